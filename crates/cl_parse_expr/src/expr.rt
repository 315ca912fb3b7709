//! Expressions.

ghost use Rattle.std.specs.Prelude.{◌≡◌, ◌∷◌, [], length, suc, IfOk};
ghost use Rattle.cl_parse_expr.specs.Cursor.{Gives};
ghost use Rattle.cl_parse_expr.specs.Reading.{expr_at, expr_of, head_of, head_step, start_step, paren_at, cast_at, args_at, more_at, grow, loop_of, tree};

use crate::cursor::{Fixed, Link, Start, after, link_at, start_of, wanted, wanted_name};
use crate::stop::Stop;
use crate::types::{base_at, pointers_at, second_at, type_of};
use cl_base::name::{Name, NoMemory};
use cl_terminals::operators::binds;
use cl_tree::bytes::Bytes;
use cl_tree::grammar::{Base, Sign, Terminal};
use cl_tree::token::Mark;
use cl_tree::tree::{CType, Expr, Node};
use sqlite_items::{Boxed, Items};
use std::alloc::Global;

fn boxed(alloc: Global, line: u32, second: u32, node: Node) -> Result<Boxed<Expr>, NoMemory>
    ensures { IfOk result (λ e. e ≡ tree line second node) }
{
    Ok(Boxed::new(alloc, Expr { line, second, node })?)
}

fn variable(alloc: Global, line: u32, name: &Name) -> Result<Boxed<Expr>, NoMemory>
    ensures { IfOk result (λ e. e ≡ tree line line (Node.Variable name.now)) }
{
    boxed(alloc, line, line, Node::Variable(name.copy(alloc)?))
}

fn text(alloc: Global, line: u32, bytes: &Bytes) -> Result<Boxed<Expr>, NoMemory>
    ensures { IfOk result (λ e. e ≡ tree line line (Node.Text bytes.now)) }
{
    boxed(alloc, line, line, Node::Text(bytes.copy(alloc)?))
}

fn call(
    alloc: Global,
    line: u32,
    name: &Name,
    arguments: Items<Expr>,
) -> Result<Boxed<Expr>, NoMemory>
    ensures { IfOk result (λ e. e ≡ tree line line (Node.Call name.now arguments)) }
{
    let name = name.copy(alloc)?;
    boxed(alloc, line, line, Node::Call(name, arguments))
}

fn cast(
    alloc: Global,
    line: u32,
    second: u32,
    ctype: Boxed<CType>,
    inner: Boxed<Expr>,
) -> Result<Boxed<Expr>, NoMemory>
    ensures { IfOk result (λ e. e ≡ tree line second (Node.Cast ctype inner)) }
{
    boxed(alloc, line, second, Node::Cast(ctype.into_inner(), inner))
}

fn member(alloc: Global, left: Boxed<Expr>, name: &Name) -> Result<Boxed<Expr>, NoMemory>
    ensures { IfOk result (λ e. e ≡ tree left.line left.line (Node.Member left name.now)) }
{
    let line = left.get().line;
    let name = name.copy(alloc)?;
    boxed(alloc, line, line, Node::Member(left, name))
}

fn arrow(
    alloc: Global,
    left: Boxed<Expr>,
    second: u32,
    name: &Name,
) -> Result<Boxed<Expr>, NoMemory>
    ensures { IfOk result (λ e. e ≡ tree left.line second (Node.Arrow left name.now)) }
{
    let line = left.get().line;
    let name = name.copy(alloc)?;
    boxed(alloc, line, second, Node::Arrow(left, name))
}

/// An expression that binds as tightly as `level` asks, and the terminals after it. With `room` above the
/// number of terminals each expression is found.
#[cycle(expr)]
#[tactic(auto, unfolding(crate::specs::Reading::expr_at))]
pub fn expr_at(
    alloc: Global,
    room: usize,
    level: u32,
    terminals: &[Terminal],
) -> Result<(Boxed<Expr>, &[Terminal]), Stop>
    ensures { Gives (λ x. (x.0, x.1.now)) result (expr_at room level terminals.now) }
{
    if room == 0 {
        return Err(Stop::Unread);
    }
    let (first, rest) = head_at(alloc, room - 1, terminals)?;
    climb(alloc, room - 1, level, first, rest)
}

#[cycle(expr)]
#[tactic(auto, unfolding(crate::specs::Reading::head_of))]
fn head_at(
    alloc: Global,
    room: usize,
    terminals: &[Terminal],
) -> Result<(Boxed<Expr>, &[Terminal]), Stop>
    ensures { Gives (λ x. (x.0, x.1.now)) result (head_of (expr_at room) terminals.now) }
{
    let [first, rest @ ..] = terminals else {
        return Err(Stop::Unread)
    };
    let line = first.line;
    match &first.what {
        Sign::Integer { value, kind } => Ok((
            boxed(
                alloc,
                line,
                line,
                Node::Number {
                    value: *value,
                    kind: *kind,
                },
            )?,
            rest,
        )),
        Sign::Floating => Ok((boxed(alloc, line, line, Node::Real)?, rest)),
        Sign::Letter(byte) => Ok((boxed(alloc, line, line, Node::Letter(*byte))?, rest)),
        Sign::Text(bytes) => Ok((text(alloc, line, bytes)?, rest)),
        Sign::Name(name) => word_at(alloc, room, line, name, rest),
        Sign::Mark(mark) => start_at(alloc, room, line, start_of(*mark), rest),
        _ => Err(Stop::Unread),
    }
}

#[cycle(expr)]
fn word_at<'a>(
    alloc: Global,
    room: usize,
    line: u32,
    name: &Name,
    terminals: &'a [Terminal],
) -> Result<(Boxed<Expr>, &'a [Terminal]), Stop>
    ensures { Gives (λ x. (x.0, x.1.now)) result (head_step (expr_at room) line (Sign.Name name.now) terminals.now) }
{
    match after(Fixed::Mark(Mark::OpenParen), terminals) {
        None => Ok((variable(alloc, line, name)?, terminals)),
        Some((_, rest)) => {
            let (arguments, rest) = args_at(alloc, room, rest)?;
            Ok((call(alloc, line, name, arguments)?, rest))
        }
    }
}

#[cycle(expr)]
#[tactic(auto, unfolding(crate::specs::Reading::start_step))]
fn start_at(
    alloc: Global,
    room: usize,
    line: u32,
    start: Start,
    terminals: &[Terminal],
) -> Result<(Boxed<Expr>, &[Terminal]), Stop>
    ensures { Gives (λ x. (x.0, x.1.now)) result (start_step (expr_at room) line start terminals.now) }
{
    match start {
        Start::Nothing => Err(Stop::Unread),
        Start::Group => match base_at(alloc, terminals)? {
            Some((base, floating, rest)) => cast_at(alloc, room, line, base, floating, rest),
            None => paren_at(alloc, room, line, terminals),
        },
        Start::Prefix(op) => {
            let (inner, rest) = expr_at(alloc, room, 12, terminals)?;
            Ok((boxed(alloc, line, line, Node::Unary(op, inner))?, rest))
        }
    }
}

#[cycle(expr)]
#[tactic(auto, unfolding(crate::specs::Reading::paren_at))]
fn paren_at(
    alloc: Global,
    room: usize,
    line: u32,
    terminals: &[Terminal],
) -> Result<(Boxed<Expr>, &[Terminal]), Stop>
    ensures { Gives (λ x. (x.0, x.1.now)) result (paren_at (expr_at room) line terminals.now) }
{
    let (inner, rest) = expr_at(alloc, room, 1, terminals)?;
    let (_, rest) = wanted(Fixed::Mark(Mark::CloseParen), rest)?;
    Ok((boxed(alloc, line, line, Node::Paren(inner))?, rest))
}

#[cycle(expr)]
#[tactic(auto, unfolding(crate::specs::Reading::cast_at, crate::specs::Reading::cast_from))]
fn cast_at(
    alloc: Global,
    room: usize,
    line: u32,
    base: Base,
    floating: u32,
    terminals: &[Terminal],
) -> Result<(Boxed<Expr>, &[Terminal]), Stop>
    ensures { Gives (λ x. (x.0, x.1.now)) result (cast_at (expr_at room) line base floating terminals.now) }
{
    let second = second_at(&base, floating, line, terminals);
    let plain = type_of(alloc, &base)?;
    let (ctype, rest) = pointers_at(alloc, plain, terminals)?;
    let (_, rest) = wanted(Fixed::Mark(Mark::CloseParen), rest)?;
    let (inner, rest) = expr_at(alloc, room, 12, rest)?;
    Ok((cast(alloc, line, second, ctype, inner)?, rest))
}

#[cycle(expr)]
#[tactic(auto, unfolding(crate::specs::Reading::args_at))]
fn args_at(
    alloc: Global,
    room: usize,
    terminals: &[Terminal],
) -> Result<(Items<Expr>, &[Terminal]), Stop>
    ensures { Gives (λ x. (x.0, x.1.now)) result (args_at (expr_at room) terminals.now) }
{
    match after(Fixed::Mark(Mark::CloseParen), terminals) {
        Some((_, rest)) => Ok((Items::new(alloc), rest)),
        None => {
            let (first, rest) = expr_at(alloc, room, 1, terminals)?;
            let mut arguments = Items::new(alloc);
            arguments.push(first.into_inner())?;
            more_at(alloc, room, arguments, rest)
        }
    }
}

#[cycle(expr)]
#[tactic(auto, unfolding(crate::specs::Reading::more_at), using(crate::proofs::Turns::more_go))]
fn more_at(
    alloc: Global,
    room: usize,
    arguments: Items<Expr>,
    start: &[Terminal],
) -> Result<(Items<Expr>, &[Terminal]), Stop>
    ensures { Gives (λ x. (x.0, x.1.now)) result (more_at (expr_at room) (length start.now) arguments start.now) }
{
    let mut done = arguments;
    let mut terminals = start;
    let mut turns = start.len();
    'commas: while turns != 0 {
        match after(Fixed::Mark(Mark::Comma), terminals) {
            None => {
                let (_, rest) = wanted(Fixed::Mark(Mark::CloseParen), terminals)?;
                return Ok((done, rest));
            }
            Some((_, rest)) => {
                let (next, rest) = expr_at(alloc, room, 1, rest)?;
                done.push(next.into_inner())?;
                terminals = rest;
            }
        }
        turns -= 1;
    }
    Err(Stop::Unread)
}

/// An expression that begins with the one on the left.
#[cycle(expr)]
#[tactic(auto, unfolding(crate::specs::Reading::grow))]
fn grow(
    alloc: Global,
    room: usize,
    left: Boxed<Expr>,
    line: u32,
    link: Link,
    terminals: &[Terminal],
) -> Result<(Boxed<Expr>, &[Terminal]), Stop>
    ensures { Gives (λ x. (x.0, x.1.now)) result (grow (expr_at room) left line link terminals.now) }
{
    let first = left.get().line;
    match link {
        Link::Nothing => Err(Stop::Unread),
        Link::Binary(op) => {
            let (right, rest) = expr_at(alloc, room, binds(op) + 1, terminals)?;
            Ok((
                boxed(alloc, first, line, Node::Binary(op, left, right))?,
                rest,
            ))
        }
        Link::Choice => {
            let (yes, rest) = expr_at(alloc, room, 1, terminals)?;
            let (_, rest) = wanted(Fixed::Mark(Mark::Colon), rest)?;
            let (no, rest) = expr_at(alloc, room, 1, rest)?;
            Ok((
                boxed(alloc, first, first, Node::Choice(left, yes, no))?,
                rest,
            ))
        }
        Link::Index => {
            let (index, rest) = expr_at(alloc, room, 1, terminals)?;
            let (_, rest) = wanted(Fixed::Mark(Mark::CloseBracket), rest)?;
            Ok((boxed(alloc, first, line, Node::Index(left, index))?, rest))
        }
        Link::Member => {
            let (name, _, rest) = wanted_name(terminals)?;
            Ok((member(alloc, left, name)?, rest))
        }
        Link::Arrow => {
            let (name, _, rest) = wanted_name(terminals)?;
            Ok((arrow(alloc, left, line, name)?, rest))
        }
    }
}

#[cycle(expr)]
#[tactic(auto, unfolding(crate::specs::Reading::loop_of), using(crate::proofs::Turns::loop_goes))]
fn climb(
    alloc: Global,
    room: usize,
    level: u32,
    first: Boxed<Expr>,
    start: &[Terminal],
) -> Result<(Boxed<Expr>, &[Terminal]), Stop>
    ensures { Gives (λ x. (x.0, x.1.now)) result (loop_of (expr_at room) (suc (length start.now)) level first start.now) }
{
    let mut left = first;
    let mut terminals = start;
    let mut turns = start.len();
    'links: while let Some((link, line, rest)) = link_at(level, terminals) {
        let (grown, rest) = grow(alloc, room, left, line, link, rest)?;
        left = grown;
        terminals = rest;
        if turns == 0 {
            return Err(Stop::Unread);
        }
        turns -= 1;
    }
    Ok((left, terminals))
}
