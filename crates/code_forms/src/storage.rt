//! Where what a name means lies.

/// A cell of the frame at which it begins, a cell of the frame that keeps the address where it begins, or a static
/// cell at which it begins.
#[derive(Clone, Copy, Debug, PartialEq, Eq)]
pub enum Storage {
    Local(u32),
    Borrowed(u32),
    Global(u32),
}
