//! Types in statements.

ghost use Rattle.std.specs.Prelude.{◌≡◌, [], map, option_map, OnOk};
ghost use Rattle.cl_typing.specs.Rules as rules;
ghost use Rattle.cl_typing.specs.Scope.{with_names};
ghost use Rattle.cl_typing.specs.Wrong as wrong;
ghost use Rattle.cl_scope.specs.Finds.{Finds};
ghost use Rattle.cl_types.specs.Views.{judged_of};
ghost use Rattle.cl_wrong.specs.Inside.{inside_of};

use crate::inits::look_names;
use cl_members::tags::Tags;
use cl_scope::items::bind_all;
use cl_scope::scopes::Scopes;
use cl_scope::search::unless;
use cl_scope::stop::Stop;
use cl_tree::kinds::BinOp;
use cl_tree::tree::{Act, CType, Expr, Stmt};
use cl_types::calls::call_right;
use cl_types::exprs::judge;
use cl_types::types::{Judged, is_integer, is_void, place_takes, takes};
use sqlite_items::Boxed;

/// What is the same in all of a function: the structs so far, and its result.
#[derive(Clone, Copy, Drop)]
pub struct Inside<'b, 'a> {
    pub tags: &'b Tags<'a>,
    pub result: &'a CType,
}

/// `=` takes what its left side takes; the operators of the others have integers alone.
fn set_fits(op: Option<BinOp>, place: Judged<'_>, value: Judged<'_>) -> bool
    ensures { result ≡ wrong.set_fits op (judged_of place.entry) (judged_of value.entry) }
{
    match op {
        None => place.is_place && place_takes(place, value),
        Some(_) => place.is_place && (is_integer(place) && is_integer(value)),
    }
}

fn bump_fits(place: Judged<'_>) -> bool
    ensures { result ≡ wrong.bump_fits (judged_of place.entry) }
{
    place.is_place && is_integer(place)
}

fn return_fits<'a>(inside: &Inside<'_, 'a>, names: &Scopes<'a>, e: &'a Option<Expr>) -> bool
    ensures { result ≡ wrong.return_fits (inside_of inside.now) names.now e.now }
{
    match e {
        Some(e) => takes(inside.result, judge(inside.tags, names, e)),
        None => is_void(inside.result),
    }
}

fn test_fits<'a>(inside: &Inside<'_, 'a>, names: &Scopes<'a>, test: &'a Option<Expr>) -> bool
    ensures { result ≡ wrong.test_fits (inside_of inside.now) names.now test.now }
{
    match test {
        Some(e) => is_condition(inside, names, e),
        None => true,
    }
}

fn is_condition<'a>(inside: &Inside<'_, 'a>, names: &Scopes<'a>, e: &'a Expr) -> bool
    ensures { result ≡ wrong.integer_in (inside_of inside.now) names.now e.now }
{
    is_integer(judge(inside.tags, names, e))
}

/// A statement, inside or outside of a loop. What it declares is known behind it.
#[cycle(stmt)]
#[tactic(auto, unfolding(cl_typing::specs::Wrong::stmt_wrong, cl_typing::specs::Scope::with_names), using(cl_scope::proofs::Searches::searches))]
pub fn look_stmt<'a>(
    inside: &Inside<'_, 'a>,
    names: &mut Scopes<'a>,
    loops: bool,
    s: &'a Stmt,
) -> Result<(), Stop>
    ensures places { Finds result ((wrong.stmt_wrong (inside_of inside.now) s.now).places names.old loops) }
    ensures names { OnOk result (names.new ≡ with_names (wrong.stmt_wrong (inside_of inside.now) s.now).declares
        names.old) }
{
    match &s.node {
        Act::Empty | Act::Cle(_) => Ok(()),
        Act::Block(ss) => look_block(inside, names, loops, ss.as_slice()),
        Act::Set { op, place, value } => {
            let place = judge(inside.tags, names, place);
            unless(
                set_fits(*op, place, judge(inside.tags, names, value)),
                s.line,
            )
        }
        Act::Bump {
            up: _,
            prefix: _,
            place,
        } => unless(bump_fits(judge(inside.tags, names, place)), s.line),
        Act::Call(e) => unless(call_right(inside.tags, names, e), s.line),
        Act::If(c, body, other) => {
            unless(is_condition(inside, names, c), s.line)?;
            look_own(inside, names, loops, body)?;
            look_optional(inside, names, loops, other)
        }
        Act::While(c, body) => {
            unless(is_condition(inside, names, c), s.line)?;
            look_own(inside, names, true, body)
        }
        Act::DoWhile(body, c) => {
            unless(is_condition(inside, names, c), s.line)?;
            look_own(inside, names, true, body)
        }
        Act::For {
            first,
            test,
            next,
            body,
        } => look_for(
            inside, names, loops, s.line, &s.node, first, test, next, body,
        ),
        Act::Return(e) => unless(return_fits(inside, names, e), s.line),
        Act::Break | Act::Continue => unless(loops, s.line),
        Act::Declare(d) => look_names(inside.tags, names, d.is_static, d.names.as_slice()),
    }
}

/// A part of a statement. What it declares is forgotten.
#[cycle(stmt)]
#[tactic(auto, using(cl_scope::proofs::Behind::left))]
fn look_own<'a>(
    inside: &Inside<'_, 'a>,
    names: &mut Scopes<'a>,
    loops: bool,
    s: &'a Boxed<Stmt>,
) -> Result<(), Stop>
    ensures places { Finds result ((wrong.stmt_wrong (inside_of inside.now) s.now).places names.old loops) }
    ensures names { OnOk result (names.new ≡ names.old) }
{
    let start = names.len();
    look_stmt(inside, names, loops, s.get())?;
    names.leave(start);
    Ok(())
}

/// A `for`: its declaration is known in its head and its body. Its test stands before its parts.
#[cycle(stmt)]
#[tactic(auto, using(cl_scope::proofs::Searches::searches, crate::proofs::Heads::left_head))]
fn look_for<'a>(
    inside: &Inside<'_, 'a>,
    names: &mut Scopes<'a>,
    loops: bool,
    line: u32,
    whole: &'a Act,
    first: &'a Option<Boxed<Stmt>>,
    test: &'a Option<Expr>,
    next: &'a Option<Boxed<Stmt>>,
    body: &'a Boxed<Stmt>,
) -> Result<(), Stop>
    requires { whole.now ≡ Act.For first.now test.now next.now body.now }
    ensures places { Finds result (wrong.for_wrong (inside_of inside.now)
        (option_map (wrong.stmt_wrong (inside_of inside.now)) first.now) test.now
        (option_map (wrong.stmt_wrong (inside_of inside.now)) next.now)
        (wrong.stmt_wrong (inside_of inside.now) body.now) line names.old loops) }
    ensures names { OnOk result (names.new ≡ names.old) }
{
    let start = names.len();
    look_test(inside, names, line, first, test)?;
    look_first(inside, names, loops, first)?;
    look_optional(inside, names, loops, next)?;
    look_own(inside, names, true, body)?;
    names.leave(start);
    Ok(())
}

/// The test of a `for`, where what its head declares is known.
#[tactic(auto, using(crate::proofs::Heads::left_head))]
fn look_test<'a>(
    inside: &Inside<'_, 'a>,
    names: &mut Scopes<'a>,
    line: u32,
    first: &'a Option<Boxed<Stmt>>,
    test: &'a Option<Expr>,
) -> Result<(), Stop>
    ensures places { Finds result (rules.unless (wrong.test_fits (inside_of inside.now)
        (wrong.env_behind (option_map (wrong.stmt_wrong (inside_of inside.now)) first.now) names.old) test.now) line) }
    ensures names { OnOk result (names.new ≡ names.old) }
{
    let start = names.len();
    bind_first(inside, names, first)?;
    unless(test_fits(inside, names, test), line)?;
    names.leave(start);
    Ok(())
}

/// What the head of a `for` declares becomes known.
fn bind_first<'a>(
    inside: &Inside<'_, 'a>,
    names: &mut Scopes<'a>,
    first: &'a Option<Boxed<Stmt>>,
) -> Result<(), Stop>
    ensures none { Finds result [] }
    ensures names { OnOk result (names.new ≡ wrong.env_behind
        (option_map (wrong.stmt_wrong (inside_of inside.now)) first.now) names.old) }
{
    match first {
        Some(s) => bind_declared(inside, names, s.get()),
        None => Ok(()),
    }
}

#[tactic(auto, unfolding(cl_typing::specs::Wrong::stmt_wrong, cl_typing::specs::Scope::with_names))]
fn bind_declared<'a>(
    inside: &Inside<'_, 'a>,
    names: &mut Scopes<'a>,
    s: &'a Stmt,
) -> Result<(), Stop>
    ensures none { Finds result [] }
    ensures names { OnOk result (names.new ≡ with_names (wrong.stmt_wrong (inside_of inside.now) s.now).declares
        names.old) }
{
    match &s.node {
        Act::Declare(d) => {
            bind_all(names, d.names.as_slice())?;
            Ok(())
        }
        _ => Ok(()),
    }
}

/// A part of a statement that may be absent. What it declares is forgotten.
#[cycle(stmt)]
#[tactic(auto, using(cl_scope::proofs::Behind::left))]
fn look_optional<'a>(
    inside: &Inside<'_, 'a>,
    names: &mut Scopes<'a>,
    loops: bool,
    s: &'a Option<Boxed<Stmt>>,
) -> Result<(), Stop>
    ensures places { Finds result (wrong.optional_in (option_map (wrong.stmt_wrong (inside_of inside.now)) s.now)
        names.old loops) }
    ensures names { OnOk result (names.new ≡ names.old) }
{
    match s {
        Some(s) => {
            let start = names.len();
            look_stmt(inside, names, loops, s.get())?;
            names.leave(start);
            Ok(())
        }
        None => Ok(()),
    }
}

/// A declaration in the head of a `for` isn't `static`.
#[tactic(auto, unfolding(cl_typing::specs::Wrong::stmt_wrong))]
fn look_head(inside: &Inside<'_, '_>, s: &Stmt) -> Result<(), Stop>
    ensures { Finds result (wrong.stmt_wrong (inside_of inside.now) s.now).as_head }
{
    match &s.node {
        Act::Declare(d) => unless(!d.is_static, s.line),
        _ => Ok(()),
    }
}

/// The first part of the head of a `for`, whose declaration stays known.
#[cycle(stmt)]
#[tactic(auto, using(cl_scope::proofs::Searches::searches))]
fn look_first<'a>(
    inside: &Inside<'_, 'a>,
    names: &mut Scopes<'a>,
    loops: bool,
    s: &'a Option<Boxed<Stmt>>,
) -> Result<(), Stop>
    ensures places { Finds result (wrong.head_in (option_map (wrong.stmt_wrong (inside_of inside.now)) s.now) names.old
        loops) }
    ensures names { OnOk result (names.new ≡ wrong.env_behind
        (option_map (wrong.stmt_wrong (inside_of inside.now)) s.now) names.old) }
{
    match s {
        Some(s) => {
            look_head(inside, s.get())?;
            look_stmt(inside, names, loops, s.get())
        }
        None => Ok(()),
    }
}

/// The statements of a block.
#[cycle(stmt)]
#[tactic(auto, unfolding(cl_typing::specs::Wrong::in_order), using(cl_scope::proofs::Searches::searches, cl_scope::proofs::Behind::extends_self))]
pub fn look_block<'a>(
    inside: &Inside<'_, 'a>,
    names: &mut Scopes<'a>,
    loops: bool,
    all: &'a [Stmt],
) -> Result<(), Stop>
    ensures places { Finds result (wrong.in_order (map (wrong.stmt_wrong (inside_of inside.now)) all.now) names.old
        loops) }
    ensures names { OnOk result (names.new ≡ names.old) }
{
    let start = names.len();
    for s in all {
        look_stmt(inside, names, loops, s)?;
    }
    names.leave(start);
    Ok(())
}
