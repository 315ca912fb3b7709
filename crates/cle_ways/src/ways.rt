//! The ways that labels go.

use cl_mean::labels::Mention;
use sqlite_items::Items;

/// What carries labels: an object of static duration by its number, a parameter or a local by the number of
/// its function and its own there, parameters first, or the result of a function.
#[derive(Clone, Copy, PartialEq, Eq, Hash)]
pub enum Holder {
    Object(usize),
    Local(usize, usize),
    Result(usize),
}

/// Where labels come from: a label that stands there, or all that a holder carries.
#[derive(Clone, Copy, PartialEq, Eq)]
pub enum Origin {
    Just(Mention),
    AllOf(Holder),
}

/// What the origin gives, the holder carries.
#[derive(Clone, Copy, PartialEq, Eq)]
pub struct Way {
    pub from: Origin,
    pub into: Holder,
}

/// The labels that a place admits.
#[derive(Clone, Copy, PartialEq, Eq)]
pub enum Admitted {
    /// The taints of a parameter of a function.
    Argument(usize, usize),
    /// All the taints of a function.
    Body(usize),
    /// The labels of a level.
    OfLevel(u32),
    /// One label.
    Own(u32),
}

/// A rule bounds what one place carries: all that its origins give is to be admitted.
#[derive(Drop)]
pub struct Bound {
    pub rule: u8,
    pub origins: Items<Origin>,
    pub admitted: Admitted,
    pub line: u32,
}

/// What is noted of a place of a program.
#[derive(Drop)]
pub enum Note {
    Flows(Way),
    Bounds(Bound),
}

/// What is noted of a function, and how many parameters and locals it has.
#[derive(Drop)]
pub struct Body {
    pub notes: Items<Note>,
    pub locals: usize,
}
