//! How tightly the operators bind.

ghost use Rattle.std.specs.Prelude.{◌≡◌};
ghost use Rattle.cl_tree.specs.Spelling as spec;

use cl_tree::kinds::BinOp;

/// How tightly a binary operator binds: from 2 for `||` to 11 for `*`, `/` and `%` (C11 6.5.5 to 6.5.14).
pub fn binds(op: BinOp) -> u32
    ensures { result ≡ spec.binds op }
{
    match op {
        BinOp::Or => 2,
        BinOp::And => 3,
        BinOp::BitOr => 4,
        BinOp::Xor => 5,
        BinOp::BitAnd => 6,
        BinOp::Equal | BinOp::Unequal => 7,
        BinOp::Less | BinOp::Greater | BinOp::AtMost | BinOp::AtLeast => 8,
        BinOp::Left | BinOp::Right => 9,
        BinOp::Add | BinOp::Sub => 10,
        BinOp::Mul | BinOp::Div | BinOp::Rem => 11,
    }
}
