//! The values of constant expressions (C11 6.6), which are settled before the run.

ghost use Rattle.std.specs.Prelude.{◌≡◌, true, false, Some, option_map};
ghost use Rattle.cl_tree.specs.Arithmetic.{fits, is_shift, value};
ghost use Rattle.cl_typing.specs.Types as types;

use crate::types::{binary_kind, kind_of};
use cl_tree::arithmetic::{apply, convert};
use cl_tree::kinds::{BinOp, IntKind, TrapCause, UnOp};
use cl_tree::tree::{CType, Expr, Node};
use cl_typing::constants::Constant;

fn settles(answer: Result<i128, TrapCause>) -> Option<i128>
    ensures { result ≡ types.settles answer }
{
    match answer {
        Ok(n) => Some(n),
        Err(_) => None,
    }
}

/// 1 for a number other than 0.
#[tactic(auto, unfolding(cl_tree::specs::Arithmetic::truth, cl_tree::specs::Arithmetic::is_zero))]
fn truth_of(n: i128) -> i128
    ensures { result ≡ types.truth_of n }
{
    if n == 0 { 0 } else { 1 }
}

/// The value of an operator on a number of the promoted kind.
#[tactic(auto, unfolding(cl_typing::specs::Types::unary_value, cl_tree::specs::Arithmetic::truth, cl_tree::specs::Arithmetic::is_zero, cl_tree::specs::Arithmetic::is_shift), using(crate::proofs::Zero::zero_fits))]
fn unary_value(op: UnOp, kind: IntKind, n: i128) -> Option<i128>
    requires { fits kind n ≡ true }
    ensures { result ≡ types.unary_value op kind n }
{
    match op {
        UnOp::Minus => settles(apply(BinOp::Sub, kind, 0, n)),
        UnOp::Plus => Some(n),
        UnOp::Flip => settles(apply(BinOp::Xor, kind, n, convert(kind, -1))),
        UnOp::Not => Some(if n == 0 { 1 } else { 0 }),
        UnOp::Star | UnOp::Amp => None,
    }
}

#[tactic(auto, unfolding(cl_typing::specs::Types::unary_result))]
fn unary_result(op: UnOp, kind: IntKind) -> IntKind
    ensures { result ≡ types.unary_result op kind }
{
    match op {
        UnOp::Not => IntKind::I32,
        UnOp::Minus | UnOp::Plus | UnOp::Flip | UnOp::Star | UnOp::Amp => kind.promoted(),
    }
}

/// The kind in which an operator works.
#[tactic(auto, unfolding(cl_typing::specs::Types::working_kind))]
fn working_kind(op: BinOp, a: IntKind, b: IntKind) -> IntKind
    ensures { result ≡ types.working_kind op a b }
{
    match op {
        BinOp::Left | BinOp::Right => a.promoted(),
        _ => a.common(b),
    }
}

#[tactic(auto, unfolding(cl_tree::specs::Arithmetic::is_shift))]
fn is_shift(op: BinOp) -> bool
    ensures { result ≡ is_shift op }
{
    matches!(op, BinOp::Left | BinOp::Right)
}

/// The right operand as the operator takes it: a shift takes its count as it is.
#[tactic(auto, unfolding(cl_typing::specs::Types::right_value))]
fn right_value(op: BinOp, kind: IntKind, n: i128) -> i128
    ensures value { result ≡ types.right_value op kind n }
    ensures fits { is_shift op ≡ false → fits kind result ≡ true }
{
    if is_shift(op) { n } else { convert(kind, n) }
}

fn applied(op: BinOp, kind: IntKind, x: Option<i128>, y: Option<i128>) -> Option<i128>
    ensures { result ≡ types.applied op kind x y }
{
    match (x, y) {
        (Some(x), Some(y)) => settles(apply(op, kind, convert(kind, x), right_value(op, kind, y))),
        _ => None,
    }
}

fn logical(stops: bool, x: i128, y: Option<i128>) -> Option<i128>
    ensures { result ≡ types.logical stops x y }
{
    if stops {
        return Some(truth_of(x));
    }
    match y {
        Some(n) => Some(truth_of(n)),
        None => None,
    }
}

#[tactic(auto, unfolding(cl_typing::specs::Types::binary_value, cl_tree::specs::Arithmetic::is_zero))]
fn binary_value(op: BinOp, kind: IntKind, x: Option<i128>, y: Option<i128>) -> Option<i128>
    ensures { result ≡ types.binary_value op kind x y }
{
    match (op, x) {
        (BinOp::Or, Some(n)) => logical(n != 0, n, y),
        (BinOp::And, Some(n)) => logical(n == 0, n, y),
        (BinOp::Or | BinOp::And, None) => None,
        _ => applied(op, kind, x, y),
    }
}

fn converted(kind: IntKind, n: Option<i128>) -> Option<i128>
    ensures { result ≡ option_map (value kind) n }
{
    match n {
        Some(n) => Some(convert(kind, n)),
        None => None,
    }
}

#[tactic(auto, unfolding(cl_tree::specs::Arithmetic::is_zero))]
fn choice_value(kind: IntKind, c: Option<i128>, a: Option<i128>, b: Option<i128>) -> Option<i128>
    ensures { result ≡ types.choice_value kind c a b }
{
    match c {
        Some(c) => converted(kind, if c == 0 { b } else { a }),
        None => None,
    }
}

fn no_constant() -> Constant
    ensures { result ≡ types.no_constant }
{
    Constant {
        is_constant: false,
        kind: IntKind::I32,
        number: None,
    }
}

fn settled(kind: IntKind, n: i128) -> Constant
    ensures { result ≡ types.constant_of true kind (Some n) }
{
    Constant {
        is_constant: true,
        kind,
        number: Some(n),
    }
}

fn unary_number(op: UnOp, kind: IntKind, n: Option<i128>) -> Option<i128>
    ensures { result ≡ types.given n (λ m. types.unary_value op kind (value kind m)) }
{
    match n {
        Some(n) => unary_value(op, kind, convert(kind, n)),
        None => None,
    }
}

fn unary_constant(op: UnOp, e: Constant) -> Constant
    ensures { result ≡ types.unary_constant op e }
{
    Constant {
        is_constant: e.is_constant,
        kind: unary_result(op, e.kind),
        number: unary_number(op, e.kind.promoted(), e.number),
    }
}

fn binary_constant(op: BinOp, a: Constant, b: Constant) -> Constant
    ensures { result ≡ types.binary_constant op a b }
{
    Constant {
        is_constant: a.is_constant && b.is_constant,
        kind: binary_kind(op, a.kind, b.kind),
        number: binary_value(op, working_kind(op, a.kind, b.kind), a.number, b.number),
    }
}

fn choice_constant(c: Constant, a: Constant, b: Constant) -> Constant
    ensures { result ≡ types.choice_constant c a b }
{
    let kind = a.kind.common(b.kind);
    Constant {
        is_constant: c.is_constant && (a.is_constant && b.is_constant),
        kind,
        number: choice_value(kind, c.number, a.number, b.number),
    }
}

fn cast_constant(kind: Option<IntKind>, e: Constant) -> Constant
    ensures { result ≡ types.cast_constant kind e }
{
    match kind {
        Some(kind) => Constant {
            is_constant: e.is_constant,
            kind,
            number: converted(kind, e.number),
        },
        None => no_constant(),
    }
}

/// What is known of an expression as a constant.
#[tactic(auto, unfolding(cl_typing::specs::Types::constant))]
pub fn constant(e: &Expr) -> Constant
    ensures { result ≡ types.constant e.now }
{
    match &e.node {
        Node::Number { value, kind } => settled(*kind, convert(*kind, i128::from(*value))),
        Node::Letter(byte) => settled(IntKind::I32, convert(IntKind::I8, i128::from(*byte))),
        Node::Unary(op, inner) => unary_constant(*op, constant(inner.get())),
        Node::Binary(op, a, b) => binary_constant(*op, constant(a.get()), constant(b.get())),
        Node::Choice(c, a, b) => choice_constant(
            constant(c.get()),
            constant(a.get()),
            constant(b.get()),
        ),
        Node::Cast(t, inner) => cast_constant(kind_of(t), constant(inner.get())),
        Node::Paren(inner) => constant(inner.get()),
        Node::Real
        | Node::Text(_)
        | Node::Variable(_)
        | Node::Call(_, _)
        | Node::Index(_, _)
        | Node::Member(_, _)
        | Node::Arrow(_, _) => no_constant(),
    }
}

/// Whether an expression holds literals, operators and casts alone, and doesn't trap.
#[tactic(auto, unfolding(cl_typing::specs::Types::is_settled))]
pub fn is_settled(e: &Expr) -> bool
    ensures { result ≡ types.is_settled e.now }
{
    let known = constant(e);
    known.is_constant && known.number.is_some()
}
