//! How expressions are spelled, and which are well-formed.

ghost use Rattle.std.specs.Prelude.{◌≡◌, ◌++◌, [], ◌∷◌, map, OnOk, IfOk};
ghost use Rattle.cl_tree.specs.Spelling.{shape, put_on, first_on, commas, all_proper, unary_mark, binary_mark};
ghost use Rattle.cl_plain.specs.Wanting.{written};

use crate::types::{is_type_name, write_cast};
use crate::wanted::{Wanted, write_mark, write_mark_at, write_name, write_on};
use cl_base::name::NoMemory;
use cl_terminals::operators::binds;
use cl_tree::grammar::Sign;
use cl_tree::kinds::{BinOp, UnOp};
use cl_tree::token::Mark;
use cl_tree::tree::{Expr, Node};
use sqlite_items::{Boxed, Items};
use std::alloc::Global;

/// The mark of a prefix operator (C11 6.5.3).
fn unary_mark(op: UnOp) -> Mark
    ensures { result ≡ unary_mark op }
{
    match op {
        UnOp::Minus => Mark::Minus,
        UnOp::Plus => Mark::Plus,
        UnOp::Flip => Mark::Tilde,
        UnOp::Not => Mark::Bang,
        UnOp::Star => Mark::Star,
        UnOp::Amp => Mark::Amp,
    }
}

/// The mark of a binary operator (C11 6.5.5 to 6.5.14).
fn binary_mark(op: BinOp) -> Mark
    ensures { result ≡ binary_mark op }
{
    match op {
        BinOp::Or => Mark::BarBar,
        BinOp::And => Mark::AmpAmp,
        BinOp::BitOr => Mark::Bar,
        BinOp::Xor => Mark::Caret,
        BinOp::BitAnd => Mark::Amp,
        BinOp::Equal => Mark::Equal,
        BinOp::Unequal => Mark::Unequal,
        BinOp::Less => Mark::Less,
        BinOp::Greater => Mark::Greater,
        BinOp::AtMost => Mark::AtMost,
        BinOp::AtLeast => Mark::AtLeast,
        BinOp::Left => Mark::LeftShift,
        BinOp::Right => Mark::RightShift,
        BinOp::Add => Mark::Plus,
        BinOp::Sub => Mark::Minus,
        BinOp::Mul => Mark::Star,
        BinOp::Div => Mark::Slash,
        BinOp::Rem => Mark::Percent,
    }
}

/// How tightly an expression binds: 1 a choice, 2 to 11 the binary operators, 12 a cast, 13 a prefix
/// operator, 14 all else.
#[tactic(auto, unfolding(cl_tree::specs::Spelling::shape))]
pub(crate) fn level(e: &Expr) -> u32
    ensures { result ≡ (shape e.now).level }
{
    match &e.node {
        Node::Choice(_, _, _) => 1,
        Node::Binary(op, _, _) => binds(*op),
        Node::Cast(_, _) => 12,
        Node::Unary(_, _) => 13,
        _ => 14,
    }
}

/// Writes the first terminal of an expression, which stands on further lines and on both of the node's.
fn write_begin(
    out: &mut Items<Wanted>,
    lines: Items<u32>,
    e: &Expr,
    what: Sign,
) -> Result<(), NoMemory>
    ensures { OnOk result (written out.new ≡ written out.old ++ put_on (lines ++ e.now.line ∷ e.now.second ∷ []) what []) }
{
    let mut lines = lines;
    lines.push(e.line)?;
    lines.push(e.second)?;
    write_on(out, lines, what)
}

/// One line more.
fn further(lines: Items<u32>, line: u32) -> Result<Items<u32>, NoMemory>
    ensures { IfOk result (λ all. all ≡ lines ++ line ∷ []) }
{
    let mut all = lines;
    all.push(line)?;
    Ok(all)
}

/// Writes an expression.
#[cycle(spell)]
#[tactic(auto, using(crate::proofs::Shapes::first_none))]
pub(crate) fn write_expr(alloc: Global, out: &mut Items<Wanted>, e: &Expr) -> Result<(), NoMemory>
    ensures { OnOk result (written out.new ≡ written out.old ++ (shape e.now).spelling) }
{
    write_expr_on(alloc, out, Items::new(alloc), e)
}

/// Writes an expression, whose first terminal stands on further lines.
#[cycle(spell)]
#[tactic(auto, unfolding(cl_tree::specs::Spelling::shape))]
pub(crate) fn write_expr_on(
    alloc: Global,
    out: &mut Items<Wanted>,
    lines: Items<u32>,
    e: &Expr,
) -> Result<(), NoMemory>
    ensures { OnOk result (written out.new ≡ written out.old ++ first_on lines (shape e.now).spelling) }
{
    match &e.node {
        Node::Number { value, kind } => {
            let (value, kind) = (*value, *kind);
            write_begin(out, lines, e, Sign::Integer { value, kind })
        }
        Node::Real => write_begin(out, lines, e, Sign::Floating),
        Node::Letter(byte) => write_begin(out, lines, e, Sign::Letter(*byte)),
        Node::Text(bytes) => write_begin(out, lines, e, Sign::Text(bytes.copy(alloc)?)),
        Node::Variable(name) => write_begin(out, lines, e, Sign::Name(name.copy(alloc)?)),
        Node::Unary(op, inner) => {
            write_begin(out, lines, e, Sign::Mark(unary_mark(*op)))?;
            write_expr(alloc, out, inner.get())
        }
        Node::Binary(op, left, right) => {
            write_expr_on(alloc, out, further(lines, e.line)?, left.get())?;
            write_mark_at(alloc, out, e.second, binary_mark(*op))?;
            write_expr(alloc, out, right.get())
        }
        Node::Choice(test, first, other) => {
            let lines = further(further(lines, e.line)?, e.second)?;
            write_expr_on(alloc, out, lines, test.get())?;
            write_mark(alloc, out, Mark::Question)?;
            write_expr(alloc, out, first.get())?;
            write_mark(alloc, out, Mark::Colon)?;
            write_expr(alloc, out, other.get())
        }
        Node::Cast(to, inner) => {
            write_cast(alloc, out, further(lines, e.line)?, to, e.second)?;
            write_expr(alloc, out, inner.get())
        }
        Node::Call(name, arguments) => {
            write_begin(out, lines, e, Sign::Name(name.copy(alloc)?))?;
            write_mark(alloc, out, Mark::OpenParen)?;
            write_arguments(alloc, out, arguments.as_slice())?;
            write_mark(alloc, out, Mark::CloseParen)
        }
        Node::Index(base, index) => {
            write_expr_on(alloc, out, further(lines, e.line)?, base.get())?;
            write_mark_at(alloc, out, e.second, Mark::OpenBracket)?;
            write_expr(alloc, out, index.get())?;
            write_mark(alloc, out, Mark::CloseBracket)
        }
        Node::Member(base, name) => {
            let lines = further(further(lines, e.line)?, e.second)?;
            write_expr_on(alloc, out, lines, base.get())?;
            write_mark(alloc, out, Mark::Dot)?;
            write_name(alloc, out, name)
        }
        Node::Arrow(base, name) => {
            write_expr_on(alloc, out, further(lines, e.line)?, base.get())?;
            write_mark_at(alloc, out, e.second, Mark::Arrow)?;
            write_name(alloc, out, name)
        }
        Node::Paren(inner) => {
            write_begin(out, lines, e, Sign::Mark(Mark::OpenParen))?;
            write_expr(alloc, out, inner.get())?;
            write_mark(alloc, out, Mark::CloseParen)
        }
    }
}

#[cycle(spell)]
fn write_arguments(alloc: Global, out: &mut Items<Wanted>, all: &[Expr]) -> Result<(), NoMemory>
    ensures { OnOk result (written out.new ≡ written out.old ++ commas (map (λ s. s.spelling) (map shape all.now))) }
{
    if let [first, rest @ ..] = all {
        write_expr(alloc, out, first)?;
        for e in rest {
            write_mark(alloc, out, Mark::Comma)?;
            write_expr(alloc, out, e)?;
        }
    }
    Ok(())
}

/// The terminals that an expression wants.
#[tactic(auto, unfolding(crate::specs::Wanting::written))]
pub fn spelled_expr(alloc: Global, e: &Expr) -> Result<Items<Wanted>, NoMemory>
    ensures { IfOk result (λ terminals. written terminals ≡ (shape e.now).spelling) }
{
    let mut out = Items::new(alloc);
    write_expr(alloc, &mut out, e)?;
    Ok(out)
}

/// Whether the expression has a form of the grammar: its operands bind as tightly as their places ask.
#[cycle(proper)]
#[tactic(auto, unfolding(cl_tree::specs::Spelling::shape))]
pub fn well_formed_expr(e: &Expr) -> bool
    ensures { result ≡ (shape e.now).proper }
{
    match &e.node {
        Node::Unary(_, inner) => 12 <= level(inner.get()) && well_formed_expr(inner.get()),
        Node::Binary(op, left, right) => {
            (binds(*op) <= level(left.get()) && binds(*op) < level(right.get()))
                && (well_formed_expr(left.get()) && well_formed_expr(right.get()))
        }
        Node::Choice(test, first, other) => {
            2 <= level(test.get())
                && (well_formed_expr(test.get())
                    && (well_formed_expr(first.get()) && well_formed_expr(other.get())))
        }
        Node::Cast(to, inner) => {
            is_type_name(to) && (12 <= level(inner.get()) && well_formed_expr(inner.get()))
        }
        Node::Call(_, arguments) => all_proper(arguments.as_slice()),
        Node::Index(base, index) => {
            14 <= level(base.get())
                && (well_formed_expr(base.get()) && well_formed_expr(index.get()))
        }
        Node::Member(base, _) => 14 <= level(base.get()) && well_formed_expr(base.get()),
        Node::Arrow(base, _) => 14 <= level(base.get()) && well_formed_expr(base.get()),
        Node::Paren(inner) => well_formed_expr(inner.get()),
        _ => true,
    }
}

#[cycle(proper)]
fn all_proper(all: &[Expr]) -> bool
    ensures { result ≡ all_proper (map shape all.now) }
{
    for e in all {
        if !well_formed_expr(e) {
            return false;
        }
    }
    true
}
