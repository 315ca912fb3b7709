//! What the limits count.

/// How many structs, definitions of labels, functions and objects of static duration there are, and
/// how many integers these objects have.
#[derive(Clone, Copy, Debug, PartialEq, Eq)]
pub struct Totals {
    pub structs: u64,
    pub definitions: u64,
    pub functions: u64,
    pub objects: u64,
    pub integers: u64,
}
