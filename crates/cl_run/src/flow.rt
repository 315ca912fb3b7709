//! How a statement ends.

/// The next statement follows, or the function returns the value.
#[derive(Clone, Copy, PartialEq, Eq)]
pub enum Flow {
    GoesOn,
    Returns(i128),
}
