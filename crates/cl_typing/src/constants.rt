//! What is known of an expression as a constant.

use cl_tree::kinds::IntKind;

/// Whether an expression holds literals, operators and casts alone, the kind of its value, and the
/// value, which is absent where the evaluation traps.
#[derive(Clone, Copy, Debug, PartialEq, Eq)]
pub struct Constant {
    pub is_constant: bool,
    pub kind: IntKind,
    pub number: Option<i128>,
}
