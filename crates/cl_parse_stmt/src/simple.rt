//! Assignments, `++`, `--` and calls.

ghost use Rattle.std.specs.Prelude.{◌≡◌, IfOk};
ghost use Rattle.cl_tree.specs.Statements.{is_call};
ghost use Rattle.cl_parse_expr.specs.Cursor.{Gives};
ghost use Rattle.cl_parse_expr.specs.Reading.{expr_at};
ghost use Rattle.cl_parse_stmt.specs.Stating.{stmt, mark_tail, tail_at, is_unary, ended_by, from_place, bumped, simple_at};

use cl_base::name::NoMemory;
use cl_parse_expr::cursor::{Fixed, after};
use cl_parse_expr::expr::expr_at;
use cl_parse_expr::stop::Stop;
use cl_tree::grammar::{Sign, Terminal};
use cl_tree::kinds::BinOp;
use cl_tree::token::Mark;
use cl_tree::tree::{Act, Expr, Node, Stmt};
use sqlite_items::Boxed;
use std::alloc::Global;

/// A statement that was read, and the terminals after it.
pub fn boxed(alloc: Global, line: u32, second: u32, node: Act) -> Result<Boxed<Stmt>, NoMemory>
    ensures { IfOk result (λ s. s ≡ stmt line second node) }
{
    Ok(Boxed::new(alloc, Stmt { line, second, node })?)
}

/// What a terminal makes of the expression before it.
#[derive(Clone, Copy, PartialEq, Eq)]
pub enum Tail {
    Nothing,
    /// `=`, or with an operator `op=`.
    Assign(Option<BinOp>),
    /// `++`, else `--`.
    Bump(bool),
}

fn mark_tail(mark: Mark) -> Tail
    ensures { result ≡ mark_tail mark }
{
    match mark {
        Mark::Assign => Tail::Assign(None),
        Mark::PlusAssign => Tail::Assign(Some(BinOp::Add)),
        Mark::MinusAssign => Tail::Assign(Some(BinOp::Sub)),
        Mark::StarAssign => Tail::Assign(Some(BinOp::Mul)),
        Mark::SlashAssign => Tail::Assign(Some(BinOp::Div)),
        Mark::PercentAssign => Tail::Assign(Some(BinOp::Rem)),
        Mark::LeftAssign => Tail::Assign(Some(BinOp::Left)),
        Mark::RightAssign => Tail::Assign(Some(BinOp::Right)),
        Mark::AmpAssign => Tail::Assign(Some(BinOp::BitAnd)),
        Mark::BarAssign => Tail::Assign(Some(BinOp::BitOr)),
        Mark::CaretAssign => Tail::Assign(Some(BinOp::Xor)),
        Mark::PlusPlus => Tail::Bump(true),
        Mark::MinusMinus => Tail::Bump(false),
        _ => Tail::Nothing,
    }
}

#[tactic(auto, unfolding(crate::specs::Stating::tail_at))]
fn tail_at(terminals: &[Terminal]) -> (Tail, u32, &[Terminal])
    ensures { (result.0, result.1, result.2.now) ≡ tail_at terminals.now }
{
    match terminals {
        [first, rest @ ..] => match &first.what {
            Sign::Mark(mark) => (mark_tail(*mark), first.line, rest),
            _ => (Tail::Nothing, first.line, rest),
        },
        [] => (Tail::Nothing, 0, terminals),
    }
}

#[tactic(auto, unfolding(crate::specs::Stating::is_unary))]
fn is_unary(e: &Expr) -> bool
    ensures { result ≡ is_unary e.now }
{
    match &e.node {
        Node::Binary(_, _, _) => false,
        Node::Choice(_, _, _) => false,
        Node::Cast(_, _) => false,
        _ => true,
    }
}

#[tactic(auto, unfolding(cl_tree::specs::Statements::is_call))]
fn is_call(e: &Expr) -> bool
    ensures { result ≡ is_call e.now }
{
    match &e.node {
        Node::Call(_, _) => true,
        _ => false,
    }
}

#[tactic(auto, unfolding(crate::specs::Stating::ended_by))]
fn ended_by<'a>(
    alloc: Global,
    room: usize,
    place: Boxed<Expr>,
    here: &'a [Terminal],
    tail: Tail,
    line: u32,
    next: &'a [Terminal],
) -> Result<(Boxed<Stmt>, &'a [Terminal]), Stop>
    ensures { Gives (λ x. (x.0, x.1.now)) result (ended_by (expr_at room) place here.now tail line next.now) }
{
    let first = place.get().line;
    match tail {
        Tail::Nothing => {
            if !is_call(place.get()) {
                return Err(Stop::Unread);
            }
            Ok((
                boxed(alloc, first, first, Act::Call(place.into_inner()))?,
                here,
            ))
        }
        Tail::Assign(op) => {
            if !is_unary(place.get()) {
                return Err(Stop::Unread);
            }
            let (value, rest) = expr_at(alloc, room, 1, next)?;
            Ok((
                boxed(
                    alloc,
                    first,
                    line,
                    Act::Set {
                        op,
                        place: place.into_inner(),
                        value: value.into_inner(),
                    },
                )?,
                rest,
            ))
        }
        Tail::Bump(up) => {
            if !is_unary(place.get()) {
                return Err(Stop::Unread);
            }
            Ok((
                boxed(
                    alloc,
                    first,
                    line,
                    Act::Bump {
                        up,
                        prefix: false,
                        place: place.into_inner(),
                    },
                )?,
                next,
            ))
        }
    }
}

#[tactic(auto, unfolding(crate::specs::Stating::bumped))]
fn bumped(
    alloc: Global,
    room: usize,
    up: bool,
    line: u32,
    terminals: &[Terminal],
) -> Result<(Boxed<Stmt>, &[Terminal]), Stop>
    ensures { Gives (λ x. (x.0, x.1.now)) result (bumped (expr_at room) up line terminals.now) }
{
    let (place, rest) = expr_at(alloc, room, 12, terminals)?;
    if !is_unary(place.get()) {
        return Err(Stop::Unread);
    }
    Ok((
        boxed(
            alloc,
            line,
            line,
            Act::Bump {
                up,
                prefix: true,
                place: place.into_inner(),
            },
        )?,
        rest,
    ))
}

/// A simple statement without its `;`, and the terminals after it.
#[tactic(auto, unfolding(crate::specs::Stating::simple_at, crate::specs::Stating::from_place))]
pub fn simple_at(
    alloc: Global,
    room: usize,
    terminals: &[Terminal],
) -> Result<(Boxed<Stmt>, &[Terminal]), Stop>
    ensures { Gives (λ x. (x.0, x.1.now)) result (simple_at (expr_at room) terminals.now) }
{
    if let Some((line, rest)) = after(Fixed::Mark(Mark::PlusPlus), terminals) {
        return bumped(alloc, room, true, line, rest);
    }
    if let Some((line, rest)) = after(Fixed::Mark(Mark::MinusMinus), terminals) {
        return bumped(alloc, room, false, line, rest);
    }
    let (place, rest) = expr_at(alloc, room, 12, terminals)?;
    let (tail, line, next) = tail_at(rest);
    ended_by(alloc, room, place, rest, tail, line, next)
}
