//! Statements.

ghost use Rattle.std.specs.Prelude.{◌≡◌, ◌∷◌, [], length, suc, IfOk, Some, None};
ghost use Rattle.cl_parse_expr.specs.Cursor.{Gives};
ghost use Rattle.cl_parse_expr.specs.Reading.{expr_at};
ghost use Rattle.cl_parse_stmt.specs.Declaring.{init_at};
ghost use Rattle.cl_parse_stmt.specs.Stating.{stmt, test_at, declare_at, declares_at, declares_sign, line_at, before, if_at, while_at, do_at, first_at, value_at, next_at, for_at, return_at, jump_at, sign_head, block_at, headed, stmt_of, listed_step, listed_of, stmt_at, simple_at};
ghost use Rattle.cl_parse_expr.specs.declared.cursor.Fixed.TheVariants as fixed;
ghost use Rattle.cl_tree.specs.declared.token.Mark.TheVariants as mark;

use crate::declare::declaration_from;
use crate::simple::{boxed, simple_at};
use cl_base::name::{Name, NoMemory};
use cl_parse_expr::cursor::{Fixed, after, line_of, wanted};
use cl_parse_expr::expr::expr_at;
use cl_parse_expr::stop::Stop;
use cl_terminals::terminals::copy_pragma;
use cl_tree::grammar::{Keyword, Sign, Terminal};
use cl_tree::token::{Mark, Pragma};
use cl_tree::tree::{Act, Declaration, Expr, Stmt};
use sqlite_items::{Boxed, Items};
use std::alloc::Global;

/// What a statement begins with.
#[derive(Clone, Copy, PartialEq, Eq)]
pub enum Head {
    Empty,
    Block,
    If,
    While,
    Do,
    For,
    Return,
    Break,
    Continue,
    Simple,
}

fn sign_head(what: &Sign) -> Head
    ensures { result ≡ sign_head what.now }
{
    match what {
        Sign::Mark(Mark::Semicolon) => Head::Empty,
        Sign::Mark(Mark::OpenBrace) => Head::Block,
        Sign::Key(Keyword::If) => Head::If,
        Sign::Key(Keyword::While) => Head::While,
        Sign::Key(Keyword::Do) => Head::Do,
        Sign::Key(Keyword::For) => Head::For,
        Sign::Key(Keyword::Return) => Head::Return,
        Sign::Key(Keyword::Break) => Head::Break,
        Sign::Key(Keyword::Continue) => Head::Continue,
        _ => Head::Simple,
    }
}

/// An expression in parentheses.
#[tactic(auto, unfolding(crate::specs::Stating::test_at))]
fn test_at(
    alloc: Global,
    room: usize,
    terminals: &[Terminal],
) -> Result<(Boxed<Expr>, &[Terminal]), Stop>
    ensures { Gives (λ x. (x.0, x.1.now)) result (test_at (expr_at room) terminals.now) }
{
    let (_, rest) = wanted(Fixed::Mark(Mark::OpenParen), terminals)?;
    let (test, rest) = expr_at(alloc, room, 1, rest)?;
    let (_, rest) = wanted(Fixed::Mark(Mark::CloseParen), rest)?;
    Ok((test, rest))
}

/// A declaration without its `;`.
#[tactic(auto, unfolding(crate::specs::Stating::declare_at))]
fn declare_at(
    alloc: Global,
    room: usize,
    terminals: &[Terminal],
) -> Result<(Boxed<Stmt>, &[Terminal]), Stop>
    ensures { Gives (λ x. (x.0, x.1.now)) result (declare_at (init_at room (expr_at room)) terminals.now) }
{
    match after(Fixed::Key(Keyword::Static), terminals) {
        Some((line, rest)) => {
            let (declaration, rest) = declaration_from(alloc, room, true, line, rest)?;
            Ok((boxed(alloc, line, line, Act::Declare(declaration))?, rest))
        }
        None => {
            let line = line_of(terminals);
            let (declaration, rest) = declaration_from(alloc, room, false, line, terminals)?;
            Ok((boxed(alloc, line, line, Act::Declare(declaration))?, rest))
        }
    }
}

/// Whether the first terminal begins a declaration.
#[tactic(auto, unfolding(crate::specs::Stating::declares_at))]
fn declares_at(terminals: &[Terminal]) -> bool
    ensures { result ≡ declares_at terminals.now }
{
    match terminals {
        [first, ..] => match &first.what {
            Sign::Kind(_) => true,
            Sign::Real => true,
            Sign::Key(Keyword::Static) => true,
            Sign::Key(Keyword::Struct) => true,
            _ => false,
        },
        [] => false,
    }
}

/// A simple statement or a declaration, without its `;`.
#[tactic(auto, unfolding(crate::specs::Stating::line_at))]
fn line_at(
    alloc: Global,
    room: usize,
    terminals: &[Terminal],
) -> Result<(Boxed<Stmt>, &[Terminal]), Stop>
    ensures { Gives (λ x. (x.0, x.1.now)) result (line_at (expr_at room) (init_at room (expr_at room)) terminals.now) }
{
    if declares_at(terminals) {
        declare_at(alloc, room, terminals)
    } else {
        simple_at(alloc, room, terminals)
    }
}

#[tactic(auto, unfolding(crate::specs::Stating::first_at))]
fn first_at(
    alloc: Global,
    room: usize,
    terminals: &[Terminal],
) -> Result<(Option<Boxed<Stmt>>, &[Terminal]), Stop>
    ensures { Gives (λ x. (x.0, x.1.now)) result (first_at (expr_at room) (init_at room (expr_at room)) terminals.now) }
{
    match after(Fixed::Mark(Mark::Semicolon), terminals) {
        Some((_, rest)) => Ok((None, rest)),
        None => {
            let (first, rest) = line_at(alloc, room, terminals)?;
            let (_, rest) = wanted(Fixed::Mark(Mark::Semicolon), rest)?;
            Ok((Some(first), rest))
        }
    }
}

/// An expression, if there is one, and its `;`.
#[tactic(auto, unfolding(crate::specs::Stating::value_at))]
fn value_at(
    alloc: Global,
    room: usize,
    terminals: &[Terminal],
) -> Result<(Option<Boxed<Expr>>, &[Terminal]), Stop>
    ensures { Gives (λ x. (x.0, x.1.now)) result (value_at (expr_at room) terminals.now) }
{
    match after(Fixed::Mark(Mark::Semicolon), terminals) {
        Some((_, rest)) => Ok((None, rest)),
        None => {
            let (value, rest) = expr_at(alloc, room, 1, terminals)?;
            let (_, rest) = wanted(Fixed::Mark(Mark::Semicolon), rest)?;
            Ok((Some(value), rest))
        }
    }
}

#[tactic(auto, unfolding(crate::specs::Stating::next_at))]
fn next_at(
    alloc: Global,
    room: usize,
    terminals: &[Terminal],
) -> Result<(Option<Boxed<Stmt>>, &[Terminal]), Stop>
    ensures { Gives (λ x. (x.0, x.1.now)) result (next_at (expr_at room) terminals.now) }
{
    match after(Fixed::Mark(Mark::CloseParen), terminals) {
        Some((_, rest)) => Ok((None, rest)),
        None => {
            let (next, rest) = simple_at(alloc, room, terminals)?;
            let (_, rest) = wanted(Fixed::Mark(Mark::CloseParen), rest)?;
            Ok((Some(next), rest))
        }
    }
}

fn opened(value: Option<Boxed<Expr>>) -> Option<Expr>
    ensures { result ≡ value }
{
    match value {
        Some(e) => Some(e.into_inner()),
        None => None,
    }
}

#[tactic(auto, unfolding(crate::specs::Stating::return_at))]
fn return_at(
    alloc: Global,
    room: usize,
    line: u32,
    terminals: &[Terminal],
) -> Result<(Boxed<Stmt>, &[Terminal]), Stop>
    ensures { Gives (λ x. (x.0, x.1.now)) result (return_at (expr_at room) line terminals.now) }
{
    let (value, rest) = value_at(alloc, room, terminals)?;
    Ok((boxed(alloc, line, line, Act::Return(opened(value)))?, rest))
}

#[tactic(auto, unfolding(crate::specs::Stating::jump_at))]
fn break_at(
    alloc: Global,
    line: u32,
    terminals: &[Terminal],
) -> Result<(Boxed<Stmt>, &[Terminal]), Stop>
    ensures { Gives (λ x. (x.0, x.1.now)) result (jump_at Act.Break line terminals.now) }
{
    let (_, rest) = wanted(Fixed::Mark(Mark::Semicolon), terminals)?;
    Ok((boxed(alloc, line, line, Act::Break)?, rest))
}

#[tactic(auto, unfolding(crate::specs::Stating::jump_at))]
fn continue_at(
    alloc: Global,
    line: u32,
    terminals: &[Terminal],
) -> Result<(Boxed<Stmt>, &[Terminal]), Stop>
    ensures { Gives (λ x. (x.0, x.1.now)) result (jump_at Act.Continue line terminals.now) }
{
    let (_, rest) = wanted(Fixed::Mark(Mark::Semicolon), terminals)?;
    Ok((boxed(alloc, line, line, Act::Continue)?, rest))
}

fn simple_before(
    alloc: Global,
    room: usize,
    terminals: &[Terminal],
) -> Result<(Boxed<Stmt>, &[Terminal]), Stop>
    ensures { Gives (λ x. (x.0, x.1.now)) result (before (simple_at (expr_at room) terminals.now) (fixed.Mark mark.Semicolon)) }
{
    let (s, rest) = simple_at(alloc, room, terminals)?;
    let (_, rest) = wanted(Fixed::Mark(Mark::Semicolon), rest)?;
    Ok((s, rest))
}

fn declare_before(
    alloc: Global,
    room: usize,
    terminals: &[Terminal],
) -> Result<(Boxed<Stmt>, &[Terminal]), Stop>
    ensures { Gives (λ x. (x.0, x.1.now)) result (before (declare_at (init_at room (expr_at room)) terminals.now) (fixed.Mark mark.Semicolon)) }
{
    let (s, rest) = declare_at(alloc, room, terminals)?;
    let (_, rest) = wanted(Fixed::Mark(Mark::Semicolon), rest)?;
    Ok((s, rest))
}

fn pragma_statement(alloc: Global, line: u32, pragma: &Pragma) -> Result<Boxed<Stmt>, NoMemory>
    ensures { IfOk result (λ s. s ≡ stmt line line (Act.Cle pragma.now)) }
{
    boxed(alloc, line, line, Act::Cle(copy_pragma(alloc, pragma)?))
}

#[cycle(stmt)]
#[tactic(auto, unfolding(crate::specs::Stating::if_at))]
fn if_at(
    alloc: Global,
    room: usize,
    deep: usize,
    line: u32,
    terminals: &[Terminal],
) -> Result<(Boxed<Stmt>, &[Terminal]), Stop>
    ensures { Gives (λ x. (x.0, x.1.now)) result (if_at (stmt_at deep (expr_at room) (init_at room (expr_at room))) (expr_at room) line terminals.now) }
{
    let (test, rest) = test_at(alloc, room, terminals)?;
    let (yes, rest) = stmt_at(alloc, room, deep, rest)?;
    match after(Fixed::Key(Keyword::Else), rest) {
        Some((_, rest)) => {
            let (no, rest) = stmt_at(alloc, room, deep, rest)?;
            Ok((
                boxed(alloc, line, line, Act::If(test.into_inner(), yes, Some(no)))?,
                rest,
            ))
        }
        None => Ok((
            boxed(alloc, line, line, Act::If(test.into_inner(), yes, None))?,
            rest,
        )),
    }
}

#[cycle(stmt)]
#[tactic(auto, unfolding(crate::specs::Stating::while_at))]
fn while_at(
    alloc: Global,
    room: usize,
    deep: usize,
    line: u32,
    terminals: &[Terminal],
) -> Result<(Boxed<Stmt>, &[Terminal]), Stop>
    ensures { Gives (λ x. (x.0, x.1.now)) result (while_at (stmt_at deep (expr_at room) (init_at room (expr_at room))) (expr_at room) line terminals.now) }
{
    let (test, rest) = test_at(alloc, room, terminals)?;
    let (body, rest) = stmt_at(alloc, room, deep, rest)?;
    Ok((
        boxed(alloc, line, line, Act::While(test.into_inner(), body))?,
        rest,
    ))
}

#[cycle(stmt)]
#[tactic(auto, unfolding(crate::specs::Stating::do_at))]
fn do_at(
    alloc: Global,
    room: usize,
    deep: usize,
    line: u32,
    terminals: &[Terminal],
) -> Result<(Boxed<Stmt>, &[Terminal]), Stop>
    ensures { Gives (λ x. (x.0, x.1.now)) result (do_at (stmt_at deep (expr_at room) (init_at room (expr_at room))) (expr_at room) line terminals.now) }
{
    let (body, rest) = stmt_at(alloc, room, deep, terminals)?;
    let (_, rest) = wanted(Fixed::Key(Keyword::While), rest)?;
    let (test, rest) = test_at(alloc, room, rest)?;
    let (_, rest) = wanted(Fixed::Mark(Mark::Semicolon), rest)?;
    Ok((
        boxed(alloc, line, line, Act::DoWhile(body, test.into_inner()))?,
        rest,
    ))
}

#[cycle(stmt)]
#[tactic(auto, unfolding(crate::specs::Stating::for_at))]
fn for_at(
    alloc: Global,
    room: usize,
    deep: usize,
    line: u32,
    terminals: &[Terminal],
) -> Result<(Boxed<Stmt>, &[Terminal]), Stop>
    ensures { Gives (λ x. (x.0, x.1.now)) result (for_at (stmt_at deep (expr_at room) (init_at room (expr_at room))) (expr_at room) (init_at room (expr_at room)) line terminals.now) }
{
    let (_, rest) = wanted(Fixed::Mark(Mark::OpenParen), terminals)?;
    let (first, rest) = first_at(alloc, room, rest)?;
    let (test, rest) = value_at(alloc, room, rest)?;
    let (next, rest) = next_at(alloc, room, rest)?;
    let (body, rest) = stmt_at(alloc, room, deep, rest)?;
    Ok((
        boxed(
            alloc,
            line,
            line,
            Act::For {
                first,
                test: opened(test),
                next,
                body,
            },
        )?,
        rest,
    ))
}

/// One of a block's statements: also a declaration or a pragma.
#[cycle(stmt)]
#[tactic(auto, unfolding(crate::specs::Stating::listed_of))]
fn listed_at(
    alloc: Global,
    room: usize,
    deep: usize,
    terminals: &[Terminal],
) -> Result<(Boxed<Stmt>, &[Terminal]), Stop>
    ensures { Gives (λ x. (x.0, x.1.now)) result (listed_of (stmt_at deep (expr_at room) (init_at room (expr_at room))) (init_at room (expr_at room)) terminals.now) }
{
    let [first, rest @ ..] = terminals else {
        return Err(Stop::Unread)
    };
    match &first.what {
        Sign::Cle(pragma) => Ok((pragma_statement(alloc, first.line, pragma)?, rest)),
        _ => {
            if declares_at(terminals) {
                declare_before(alloc, room, terminals)
            } else {
                stmt_at(alloc, room, deep, terminals)
            }
        }
    }
}

/// The statements of a block behind its `{`, and what follows its `}`.
#[cycle(stmt)]
#[tactic(auto, unfolding(crate::specs::Stating::block_at), using(crate::proofs::Turns::block_goes))]
pub fn block_at(
    alloc: Global,
    room: usize,
    deep: usize,
    start: &[Terminal],
) -> Result<(Items<Stmt>, &[Terminal]), Stop>
    ensures { Gives (λ x. (x.0, x.1.now)) result (block_at (listed_of (stmt_at deep (expr_at room) (init_at room (expr_at room))) (init_at room (expr_at room))) (suc (length start.now)) [] start.now) }
{
    let mut done = Items::new(alloc);
    let mut terminals = start;
    let mut turns = start.len();
    'statements: loop {
        if let Some((_, rest)) = after(Fixed::Mark(Mark::CloseBrace), terminals) {
            return Ok((done, rest));
        }
        let (next, rest) = listed_at(alloc, room, deep, terminals)?;
        done.push(next.into_inner())?;
        terminals = rest;
        if turns == 0 {
            return Err(Stop::Unread);
        }
        turns -= 1;
    }
}

#[cycle(stmt)]
#[tactic(auto, unfolding(crate::specs::Stating::headed))]
fn headed<'a>(
    alloc: Global,
    room: usize,
    deep: usize,
    head: Head,
    line: u32,
    here: &'a [Terminal],
    rest: &'a [Terminal],
) -> Result<(Boxed<Stmt>, &'a [Terminal]), Stop>
    ensures { Gives (λ x. (x.0, x.1.now)) result (headed (stmt_at deep (expr_at room) (init_at room (expr_at room))) (listed_of (stmt_at deep (expr_at room) (init_at room (expr_at room))) (init_at room (expr_at room))) (expr_at room) (init_at room (expr_at room)) head line here.now rest.now) }
{
    match head {
        Head::Empty => Ok((boxed(alloc, line, line, Act::Empty)?, rest)),
        Head::Block => {
            let (all, rest) = block_at(alloc, room, deep, rest)?;
            Ok((boxed(alloc, line, line, Act::Block(all))?, rest))
        }
        Head::If => if_at(alloc, room, deep, line, rest),
        Head::While => while_at(alloc, room, deep, line, rest),
        Head::Do => do_at(alloc, room, deep, line, rest),
        Head::For => for_at(alloc, room, deep, line, rest),
        Head::Return => return_at(alloc, room, line, rest),
        Head::Break => break_at(alloc, line, rest),
        Head::Continue => continue_at(alloc, line, rest),
        Head::Simple => simple_before(alloc, room, here),
    }
}

/// A statement, and the terminals after it. With `deep` above the number of terminals each statement is found.
#[cycle(stmt)]
#[tactic(auto, unfolding(crate::specs::Stating::stmt_at, crate::specs::Stating::stmt_of))]
fn stmt_at(
    alloc: Global,
    room: usize,
    deep: usize,
    terminals: &[Terminal],
) -> Result<(Boxed<Stmt>, &[Terminal]), Stop>
    ensures { Gives (λ x. (x.0, x.1.now)) result (stmt_at deep (expr_at room) (init_at room (expr_at room)) terminals.now) }
{
    if deep == 0 {
        return Err(Stop::Unread);
    }
    let [first, rest @ ..] = terminals else {
        return Err(Stop::Unread)
    };
    headed(
        alloc,
        room,
        deep - 1,
        sign_head(&first.what),
        first.line,
        terminals,
        rest,
    )
}
