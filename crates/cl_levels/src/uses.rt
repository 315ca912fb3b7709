//! What the body of a function uses.

use sqlite_items::Items;

/// A variable, as the body of one function sees it: an object of static duration by its number among all
/// of the program, or a parameter or a local by its number among those of the function, parameters first.
#[derive(Clone, Copy, PartialEq, Eq)]
pub enum Variable {
    Static(usize),
    Local(usize),
}

/// What a body uses, with its line: an object of static duration that it names, or a function of the
/// program that it calls, with the variable at the root of each argument that names a place.
#[derive(Drop)]
pub enum Use {
    Named {
        object: usize,
        line: u32,
    },
    Called {
        callee: usize,
        roots: Items<Option<Variable>>,
        line: u32,
    },
}

/// A call of a function of the program by a function, each by its number, with the line of the call.
#[derive(Clone, Copy, PartialEq, Eq)]
pub struct Call {
    pub caller: usize,
    pub callee: usize,
    pub line: u32,
}

/// What the body of a function uses, in the order of the source.
#[derive(Drop)]
pub struct Body {
    pub uses: Items<Use>,
}
