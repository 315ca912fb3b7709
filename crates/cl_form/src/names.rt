//! What a source of the forms leaves open.

use cl_base::name::Name;

/// The names of a source of two levels: the levels, `near` that of `main` and `far` that of the other
/// function; the labels of the near level, of the variable, of the result and of the function; and the
/// names of the variable and of the function.
#[derive(Drop)]
pub struct Pair {
    pub near: Name,
    pub far: Name,
    pub near_label: Name,
    pub variable_label: Name,
    pub result_label: Name,
    pub function_label: Name,
    pub variable_name: Name,
    pub function_name: Name,
}

/// The names of a source of one level, and the line of the name `main`.
#[derive(Drop)]
pub struct Alone {
    pub label: Name,
    pub level: Name,
    pub line: u32,
}

/// What is found in a source of two levels: its names, the lines of the names of its functions, and
/// whether `main` calls the other one.
#[derive(Drop)]
pub struct Found {
    pub names: Pair,
    pub line: u32,
    pub main_line: u32,
    pub crosses: bool,
}
