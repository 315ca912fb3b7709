//! The integer kinds, the operators and the causes of a trap.

/// The ten integer types of the profile. `char` and `signed char` are `I8`.
#[derive(Clone, Copy, Debug, PartialEq, Eq)]
pub enum IntKind {
    I8,
    U8,
    I16,
    U16,
    I32,
    U32,
    Long,
    ULong,
    LLong,
    ULLong,
}

/// The unary operators: `-`, `+`, `~`, `!`, and the two of pointers, `*` and `&`.
#[derive(Clone, Copy, Debug, PartialEq, Eq)]
pub enum UnOp {
    Minus,
    Plus,
    Flip,
    Not,
    Star,
    Amp,
}

/// The binary operators, from the loosest to the tightest.
#[derive(Clone, Copy, Debug, PartialEq, Eq)]
pub enum BinOp {
    Or,
    And,
    BitOr,
    Xor,
    BitAnd,
    Equal,
    Unequal,
    Less,
    Greater,
    AtMost,
    AtLeast,
    Left,
    Right,
    Add,
    Sub,
    Mul,
    Div,
    Rem,
}

/// Why a run traps.
#[derive(Clone, Copy, Debug, PartialEq, Eq)]
pub enum TrapCause {
    /// The result of a signed operator, or the quotient of a signed `%`, is out of range.
    Overflow,
    /// The divisor of `/` or `%` is zero.
    Divide,
    /// A shift count is negative or at least the width, or the left side of `<<` is negative.
    Shift,
    /// An index is negative or at least the size of the array.
    Index,
    /// A function with a result, other than `main`, reaches its end.
    Return,
    /// The level would take one step more than its limit.
    Steps,
    /// A function is entered while its level has as many active calls as it may.
    Depth,
    /// A byte is written while the output of the level is full.
    Output,
    /// A crossing call would pass the frame budget of its level.
    Frames,
}
