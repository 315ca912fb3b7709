//! The kinds in which operators work.

ghost use Rattle.std.specs.Prelude.{◌≡◌};
ghost use Rattle.cl_tree.specs.Arithmetic.{beyond, holds_all_of, is_arithmetic, is_shift, least};
ghost use Rattle.cl_mean.specs.Evaluation.{given_kind, kind_by, right_kind, working_kind};
ghost use Rattle.code_forms.specs.Lowering.{logic_of};

use cl_tree::kinds::{BinOp, IntKind, UnOp};

/// The least number of a kind, and the number behind its greatest.
#[tactic(auto, unfolding(cl_tree::specs::Arithmetic::width, cl_tree::specs::Arithmetic::is_signed, cl_tree::specs::Arithmetic::least, cl_tree::specs::Arithmetic::beyond))]
fn bounds(kind: IntKind) -> (i128, i128)
    ensures least { result.0 ≡ least kind }
    ensures beyond { result.1 ≡ beyond kind }
{
    match kind {
        IntKind::I8 => (-0x80, 0x80),
        IntKind::U8 => (0, 0x100),
        IntKind::I16 => (-0x8000, 0x8000),
        IntKind::U16 => (0, 0x1_0000),
        IntKind::I32 => (-0x8000_0000, 0x8000_0000),
        IntKind::U32 => (0, 0x1_0000_0000),
        IntKind::Long | IntKind::LLong => (-0x8000_0000_0000_0000, 0x8000_0000_0000_0000),
        IntKind::ULong | IntKind::ULLong => (0, 0x1_0000_0000_0000_0000),
    }
}

/// Whether every number of the second kind is one of the first.
#[tactic(auto, unfolding(cl_tree::specs::Arithmetic::holds_all_of))]
pub fn holds_all_of(a: IntKind, b: IntKind) -> bool
    ensures { result ≡ holds_all_of a b }
{
    let (a_least, a_beyond) = bounds(a);
    let (b_least, b_beyond) = bounds(b);
    a_least <= b_least && b_beyond <= a_beyond
}

/// Whether an operator of one operand is one of numbers.
#[tactic(auto, unfolding(cl_tree::specs::Arithmetic::is_arithmetic))]
pub fn is_arithmetic(op: UnOp) -> bool
    ensures { result ≡ is_arithmetic op }
{
    match op {
        UnOp::Minus | UnOp::Plus | UnOp::Flip | UnOp::Not => true,
        UnOp::Star | UnOp::Amp => false,
    }
}

/// What an operator of one operand gives.
pub fn kind_by(op: UnOp, kind: IntKind) -> IntKind
    ensures { result ≡ kind_by op kind }
{
    match op {
        UnOp::Not => IntKind::I32,
        UnOp::Minus | UnOp::Plus | UnOp::Flip | UnOp::Star | UnOp::Amp => kind,
    }
}

#[tactic(auto, unfolding(cl_tree::specs::Arithmetic::is_shift))]
fn is_shift(op: BinOp) -> bool
    ensures { result ≡ is_shift op }
{
    matches!(op, BinOp::Left | BinOp::Right)
}

/// The kind in which an operator works.
#[tactic(auto, unfolding(cl_mean::specs::Evaluation::working_kind))]
pub fn working_kind(op: BinOp, a: IntKind, b: IntKind) -> IntKind
    ensures { result ≡ working_kind op a b }
{
    if is_shift(op) {
        a.promoted()
    } else {
        a.common(b)
    }
}

/// The kind to which its right operand is converted.
#[tactic(auto, unfolding(cl_mean::specs::Evaluation::right_kind))]
pub fn right_kind(op: BinOp, a: IntKind, b: IntKind) -> IntKind
    ensures { result ≡ right_kind op a b }
{
    if is_shift(op) {
        b.promoted()
    } else {
        a.common(b)
    }
}

/// What an operator gives.
#[tactic(auto, unfolding(cl_mean::specs::Evaluation::given_kind))]
pub fn given_kind(op: BinOp, kind: IntKind) -> IntKind
    ensures { result ≡ given_kind op kind }
{
    match op {
        BinOp::Or
        | BinOp::And
        | BinOp::Equal
        | BinOp::Unequal
        | BinOp::Less
        | BinOp::Greater
        | BinOp::AtMost
        | BinOp::AtLeast => IntKind::I32,
        BinOp::BitOr
        | BinOp::Xor
        | BinOp::BitAnd
        | BinOp::Left
        | BinOp::Right
        | BinOp::Add
        | BinOp::Sub
        | BinOp::Mul
        | BinOp::Div
        | BinOp::Rem => kind,
    }
}

/// Of `&&` and `||` the value of the left operand that decides.
#[tactic(auto, unfolding(code_forms::specs::Lowering::logic_of))]
pub fn logic_of(op: BinOp) -> Option<bool>
    ensures { result ≡ logic_of op }
{
    match op {
        BinOp::Or => Some(true),
        BinOp::And => Some(false),
        BinOp::BitOr
        | BinOp::Xor
        | BinOp::BitAnd
        | BinOp::Equal
        | BinOp::Unequal
        | BinOp::Less
        | BinOp::Greater
        | BinOp::AtMost
        | BinOp::AtLeast
        | BinOp::Left
        | BinOp::Right
        | BinOp::Add
        | BinOp::Sub
        | BinOp::Mul
        | BinOp::Div
        | BinOp::Rem => None,
    }
}
