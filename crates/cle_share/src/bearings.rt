//! Declarations of functions on which pragmas put a label.

use cl_base::name::Name;

/// A declaration of a function that has a label: the function's name, the label's number, and the line of the declaration's first token.
#[derive(Clone, Copy, Drop)]
pub struct Bearing<'a> {
    pub function: &'a Name,
    pub label: u32,
    pub line: u32,
}
