//! How statements are spelled, and which are well-formed.

ghost use Rattle.std.specs.Prelude.{◌≡◌, ◌++◌, [], ◌∷◌, map, option_map, OnOk};
ghost use Rattle.cl_tree.specs.Spelling.{shape, put_on, put_mark};
ghost use Rattle.cl_tree.specs.Statements.{stmt_shape, statements, all_stmts, assign_mark, assigns, bump_mark, is_call, is_statement, is_simple, is_head, is_first, is_test, is_next};
ghost use Rattle.cl_plain.specs.Wanting.{written};
ghost use Rattle.cl_plain.specs.Parts.{first_part, test_part, next_part, else_part};

use crate::declarations::{well_formed_declaration, write_declaration};
use crate::expressions::{level, well_formed_expr, write_expr, write_expr_on};
use crate::wanted::{Wanted, one_line, two_lines, write_key, write_mark, write_mark_at, write_on};
use cl_base::name::NoMemory;
use cl_terminals::terminals::copy_pragma;
use cl_tree::grammar::{Keyword, Sign};
use cl_tree::kinds::BinOp;
use cl_tree::token::{Mark, Pragma};
use cl_tree::tree::{Act, Expr, Node, Stmt};
use sqlite_items::{Boxed, Items};
use std::alloc::Global;

/// The mark of an assignment (C11 6.5.16); of an operator that has none, that of `=`.
fn assign_mark(op: &Option<BinOp>) -> Mark
    ensures { result ≡ assign_mark op.now }
{
    match op {
        Some(BinOp::Add) => Mark::PlusAssign,
        Some(BinOp::Sub) => Mark::MinusAssign,
        Some(BinOp::Mul) => Mark::StarAssign,
        Some(BinOp::Div) => Mark::SlashAssign,
        Some(BinOp::Rem) => Mark::PercentAssign,
        Some(BinOp::Left) => Mark::LeftAssign,
        Some(BinOp::Right) => Mark::RightAssign,
        Some(BinOp::BitAnd) => Mark::AmpAssign,
        Some(BinOp::BitOr) => Mark::BarAssign,
        Some(BinOp::Xor) => Mark::CaretAssign,
        _ => Mark::Assign,
    }
}

/// Whether there is such an assignment.
fn assigns(op: &Option<BinOp>) -> bool
    ensures { result ≡ assigns op.now }
{
    match op {
        Some(BinOp::Or) => false,
        Some(BinOp::And) => false,
        Some(BinOp::Equal) => false,
        Some(BinOp::Unequal) => false,
        Some(BinOp::Less) => false,
        Some(BinOp::Greater) => false,
        Some(BinOp::AtMost) => false,
        Some(BinOp::AtLeast) => false,
        _ => true,
    }
}

/// `++` or `--`.
fn bump_mark(up: bool) -> Mark
    ensures { result ≡ bump_mark up }
{
    if up { Mark::PlusPlus } else { Mark::MinusMinus }
}

/// Writes a line `#pragma cle`, which stands on these lines.
pub(crate) fn write_pragma(
    alloc: Global,
    out: &mut Items<Wanted>,
    lines: Items<u32>,
    pragma: &Pragma,
) -> Result<(), NoMemory>
    ensures { OnOk result (written out.new ≡ written out.old ++ put_on lines (Sign.Cle pragma.now) []) }
{
    let pragma = copy_pragma(alloc, pragma)?;
    write_on(out, lines, Sign::Cle(pragma))
}

/// Writes the first terminal of a statement, which stands on both of its lines.
fn write_begin(alloc: Global, out: &mut Items<Wanted>, s: &Stmt, what: Sign) -> Result<(), NoMemory>
    ensures { OnOk result (written out.new ≡ written out.old ++ put_on (s.now.line ∷ s.now.second ∷ []) what []) }
{
    let lines = two_lines(alloc, s.line, s.second)?;
    write_on(out, lines, what)
}

/// Writes what stands before the `;` of a simple statement or a declaration, and nothing of another.
#[tactic(auto, unfolding(cl_tree::specs::Statements::stmt_shape))]
fn write_bare(alloc: Global, out: &mut Items<Wanted>, s: &Stmt) -> Result<(), NoMemory>
    ensures { OnOk result (written out.new ≡ written out.old ++ (stmt_shape s.now).bare) }
{
    match &s.node {
        Act::Set { op, place, value } => {
            write_expr_on(alloc, out, one_line(alloc, s.line)?, place)?;
            write_mark_at(alloc, out, s.second, assign_mark(op))?;
            write_expr(alloc, out, value)
        }
        Act::Bump {
            up,
            prefix: true,
            place,
        } => {
            write_begin(alloc, out, s, Sign::Mark(bump_mark(*up)))?;
            write_expr(alloc, out, place)
        }
        Act::Bump {
            up,
            prefix: false,
            place,
        } => {
            write_expr_on(alloc, out, one_line(alloc, s.line)?, place)?;
            write_mark_at(alloc, out, s.second, bump_mark(*up))
        }
        Act::Call(e) => write_expr_on(alloc, out, two_lines(alloc, s.line, s.second)?, e),
        Act::Declare(d) => {
            let lines = two_lines(alloc, s.line, s.second)?;
            write_declaration(alloc, out, lines, d)
        }
        _ => Ok(()),
    }
}

/// Writes a simple statement or a declaration with its `;`.
fn write_ended(alloc: Global, out: &mut Items<Wanted>, s: &Stmt) -> Result<(), NoMemory>
    ensures { OnOk result (written out.new ≡ written out.old ++ ((stmt_shape s.now).bare ++ put_mark Mark.Semicolon [])) }
{
    write_bare(alloc, out, s)?;
    write_mark(alloc, out, Mark::Semicolon)
}

/// Writes a test in its parentheses.
fn write_test(alloc: Global, out: &mut Items<Wanted>, test: &Expr) -> Result<(), NoMemory>
    ensures { OnOk result (written out.new ≡ written out.old ++ put_mark Mark.OpenParen ((shape test.now).spelling ++ put_mark Mark.CloseParen [])) }
{
    write_mark(alloc, out, Mark::OpenParen)?;
    write_expr(alloc, out, test)?;
    write_mark(alloc, out, Mark::CloseParen)
}

#[tactic(auto, unfolding(crate::specs::Parts::test_part))]
fn write_maybe_expr(
    alloc: Global,
    out: &mut Items<Wanted>,
    e: &Option<Expr>,
) -> Result<(), NoMemory>
    ensures { OnOk result (written out.new ≡ written out.old ++ test_part e.now) }
{
    match e {
        None => Ok(()),
        Some(e) => write_expr(alloc, out, e),
    }
}

/// Writes the last part of the head of a `for`, without a `;`.
#[tactic(auto, unfolding(crate::specs::Parts::next_part))]
fn write_next(
    alloc: Global,
    out: &mut Items<Wanted>,
    next: &Option<Boxed<Stmt>>,
) -> Result<(), NoMemory>
    ensures { OnOk result (written out.new ≡ written out.old ++ next_part next.now) }
{
    match next {
        None => Ok(()),
        Some(next) => write_bare(alloc, out, next.get()),
    }
}

/// Writes a statement (C11 6.8).
#[cycle(spell)]
#[tactic(auto, unfolding(cl_tree::specs::Statements::stmt_shape))]
fn write_stmt(alloc: Global, out: &mut Items<Wanted>, s: &Stmt) -> Result<(), NoMemory>
    ensures { OnOk result (written out.new ≡ written out.old ++ (stmt_shape s.now).spelling) }
{
    match &s.node {
        Act::Empty => write_begin(alloc, out, s, Sign::Mark(Mark::Semicolon)),
        Act::Block(all) => {
            write_begin(alloc, out, s, Sign::Mark(Mark::OpenBrace))?;
            write_statements(alloc, out, all.as_slice())
        }
        Act::Set { .. } => write_ended(alloc, out, s),
        Act::Bump { .. } => write_ended(alloc, out, s),
        Act::Call(_) => write_ended(alloc, out, s),
        Act::Declare(_) => write_ended(alloc, out, s),
        Act::If(test, first, other) => {
            write_begin(alloc, out, s, Sign::Key(Keyword::If))?;
            write_test(alloc, out, test)?;
            write_stmt(alloc, out, first.get())?;
            write_else(alloc, out, other)
        }
        Act::While(test, body) => {
            write_begin(alloc, out, s, Sign::Key(Keyword::While))?;
            write_test(alloc, out, test)?;
            write_stmt(alloc, out, body.get())
        }
        Act::DoWhile(body, test) => {
            write_begin(alloc, out, s, Sign::Key(Keyword::Do))?;
            write_stmt(alloc, out, body.get())?;
            write_key(alloc, out, Keyword::While)?;
            write_test(alloc, out, test)?;
            write_mark(alloc, out, Mark::Semicolon)
        }
        Act::For {
            first,
            test,
            next,
            body,
        } => {
            write_begin(alloc, out, s, Sign::Key(Keyword::For))?;
            write_mark(alloc, out, Mark::OpenParen)?;
            write_first(alloc, out, first)?;
            write_maybe_expr(alloc, out, test)?;
            write_mark(alloc, out, Mark::Semicolon)?;
            write_next(alloc, out, next)?;
            write_mark(alloc, out, Mark::CloseParen)?;
            write_stmt(alloc, out, body.get())
        }
        Act::Return(e) => {
            write_begin(alloc, out, s, Sign::Key(Keyword::Return))?;
            write_maybe_expr(alloc, out, e)?;
            write_mark(alloc, out, Mark::Semicolon)
        }
        Act::Break => {
            write_begin(alloc, out, s, Sign::Key(Keyword::Break))?;
            write_mark(alloc, out, Mark::Semicolon)
        }
        Act::Continue => {
            write_begin(alloc, out, s, Sign::Key(Keyword::Continue))?;
            write_mark(alloc, out, Mark::Semicolon)
        }
        Act::Cle(pragma) => {
            let lines = two_lines(alloc, s.line, s.second)?;
            write_pragma(alloc, out, lines, pragma)
        }
    }
}

/// Writes the first part of the head of a `for`, with its `;`.
#[cycle(spell)]
#[tactic(auto, unfolding(crate::specs::Parts::first_part))]
fn write_first(
    alloc: Global,
    out: &mut Items<Wanted>,
    first: &Option<Boxed<Stmt>>,
) -> Result<(), NoMemory>
    ensures { OnOk result (written out.new ≡ written out.old ++ first_part first.now) }
{
    match first {
        None => write_mark(alloc, out, Mark::Semicolon),
        Some(first) => write_stmt(alloc, out, first.get()),
    }
}

#[cycle(spell)]
#[tactic(auto, unfolding(crate::specs::Parts::else_part))]
fn write_else(
    alloc: Global,
    out: &mut Items<Wanted>,
    other: &Option<Boxed<Stmt>>,
) -> Result<(), NoMemory>
    ensures { OnOk result (written out.new ≡ written out.old ++ else_part other.now) }
{
    match other {
        None => Ok(()),
        Some(other) => {
            write_key(alloc, out, Keyword::Else)?;
            write_stmt(alloc, out, other.get())
        }
    }
}

/// Writes the statements of a block, and its end.
#[cycle(spell)]
pub(crate) fn write_statements(
    alloc: Global,
    out: &mut Items<Wanted>,
    all: &[Stmt],
) -> Result<(), NoMemory>
    ensures { OnOk result (written out.new ≡ written out.old ++ statements (map stmt_shape all.now)) }
{
    for s in all {
        write_stmt(alloc, out, s)?;
    }
    write_mark(alloc, out, Mark::CloseBrace)
}

/// What may stand where the grammar asks for a statement.
#[tactic(auto, unfolding(cl_tree::specs::Statements::stmt_shape))]
fn is_statement(s: &Stmt) -> bool
    ensures { result ≡ is_statement (stmt_shape s.now).form }
{
    match &s.node {
        Act::Declare(_) => false,
        Act::Cle(_) => false,
        _ => true,
    }
}

/// What may stand last in the head of a `for`.
#[tactic(auto, unfolding(cl_tree::specs::Statements::stmt_shape))]
fn is_simple(s: &Stmt) -> bool
    ensures { result ≡ is_simple (stmt_shape s.now).form }
{
    match &s.node {
        Act::Set { .. } => true,
        Act::Bump { .. } => true,
        Act::Call(_) => true,
        _ => false,
    }
}

/// What may stand first in the head of a `for`.
#[tactic(auto, unfolding(cl_tree::specs::Statements::stmt_shape))]
fn is_head(s: &Stmt) -> bool
    ensures { result ≡ is_head (stmt_shape s.now).form }
{
    match &s.node {
        Act::Set { .. } => true,
        Act::Bump { .. } => true,
        Act::Call(_) => true,
        Act::Declare(_) => true,
        _ => false,
    }
}

/// Whether it ends in an `if` without `else`.
#[tactic(auto, unfolding(cl_tree::specs::Statements::stmt_shape))]
fn is_dangling(s: &Stmt) -> bool
    ensures { result ≡ (stmt_shape s.now).dangling }
{
    match &s.node {
        Act::If(_, _, None) => true,
        Act::If(_, _, Some(other)) => is_dangling(other.get()),
        Act::While(_, body) => is_dangling(body.get()),
        Act::For { body, .. } => is_dangling(body.get()),
        _ => false,
    }
}

/// Whether the expression is a call.
#[tactic(auto, unfolding(cl_tree::specs::Statements::is_call))]
fn is_call(e: &Expr) -> bool
    ensures { result ≡ is_call e.now }
{
    match &e.node {
        Node::Call(_, _) => true,
        _ => false,
    }
}

fn is_test(test: &Option<Expr>) -> bool
    ensures { result ≡ is_test test.now }
{
    match test {
        None => true,
        Some(e) => well_formed_expr(e),
    }
}

/// Whether the statement has a form of the grammar. It may still be one that stands only in a block, as
/// a declaration.
#[cycle(proper)]
#[tactic(auto, unfolding(cl_tree::specs::Statements::stmt_shape))]
pub fn well_formed_stmt(s: &Stmt) -> bool
    ensures { result ≡ (stmt_shape s.now).proper }
{
    match &s.node {
        Act::Block(all) => all_stmts(all.as_slice()),
        Act::Set { op, place, value } => {
            assigns(op)
                && (13 <= level(place) && (well_formed_expr(place) && well_formed_expr(value)))
        }
        Act::Bump { place, .. } => 13 <= level(place) && well_formed_expr(place),
        Act::Call(e) => is_call(e) && well_formed_expr(e),
        Act::If(test, first, None) => {
            well_formed_expr(test) && (is_statement(first.get()) && well_formed_stmt(first.get()))
        }
        Act::If(test, first, Some(other)) => {
            well_formed_expr(test)
                && (!is_dangling(first.get())
                    && ((is_statement(first.get()) && well_formed_stmt(first.get()))
                        && (is_statement(other.get()) && well_formed_stmt(other.get()))))
        }
        Act::While(test, body) => {
            well_formed_expr(test) && (is_statement(body.get()) && well_formed_stmt(body.get()))
        }
        Act::DoWhile(body, test) => {
            (is_statement(body.get()) && well_formed_stmt(body.get())) && well_formed_expr(test)
        }
        Act::For {
            first,
            test,
            next,
            body,
        } => {
            is_first(first)
                && (is_test(test)
                    && (is_next(next)
                        && (is_statement(body.get()) && well_formed_stmt(body.get()))))
        }
        Act::Return(Some(e)) => well_formed_expr(e),
        Act::Declare(d) => well_formed_declaration(d),
        _ => true,
    }
}

#[cycle(proper)]
fn is_first(first: &Option<Boxed<Stmt>>) -> bool
    ensures { result ≡ is_first (option_map stmt_shape first.now) }
{
    match first {
        None => true,
        Some(s) => is_head(s.get()) && well_formed_stmt(s.get()),
    }
}

#[cycle(proper)]
fn is_next(next: &Option<Boxed<Stmt>>) -> bool
    ensures { result ≡ is_next (option_map stmt_shape next.now) }
{
    match next {
        None => true,
        Some(s) => is_simple(s.get()) && well_formed_stmt(s.get()),
    }
}

/// Whether all are well-formed.
#[cycle(proper)]
pub(crate) fn all_stmts(all: &[Stmt]) -> bool
    ensures { result ≡ all_stmts (map stmt_shape all.now) }
{
    for s in all {
        if !well_formed_stmt(s) {
            return false;
        }
    }
    true
}
