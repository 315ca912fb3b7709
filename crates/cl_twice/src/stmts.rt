//! Names that declarations and statements declare a second time.

ghost use Rattle.std.specs.Prelude.{◌≡◌, ◌≤◌, ◌∷◌, [], map, option_map, length, not, ◌||◌, OnOk};
ghost use Rattle.cl_typing.specs.Rules.{optional};
ghost use Rattle.cl_typing.specs.Scope.{with_names, bound, in_order, is_library, is_bound};
ghost use Rattle.cl_typing.specs.Twice as twice;
ghost use Rattle.cl_scope.specs.Table.{since};
ghost use Rattle.cl_scope.specs.Behind.{Extends};
ghost use Rattle.cl_scope.specs.Finds.{Finds};

use cl_base::name::Name;
use cl_scope::library::is_library;
use cl_scope::scopes::{Meaning, Scopes};
use cl_scope::search::unless;
use cl_scope::stop::Stop;
use cl_tree::tree::{Act, Declarator, Stmt};
use sqlite_items::Boxed;

/// Whether a name can be declared in the scope that was entered when there were `start` names.
fn can_declare(names: &Scopes<'_>, start: usize, name: &Name) -> bool
    ensures { result ≡ not (is_library name.now || is_bound (since start names.now) name.now) }
{
    if is_library(name) {
        return false;
    }
    !names.is_bound_since(start, name)
}

fn look_name<'a>(names: &mut Scopes<'a>, start: usize, d: &'a Declarator) -> Result<(), Stop>
    requires { start ≤ length names.old }
    ensures places { Finds result (twice.name_twice (since start names.old) d.now) }
    ensures names { OnOk result (names.new ≡ bound d.now ∷ names.old) }
{
    unless(can_declare(names, start, &d.name), d.line)?;
    names.bind(&d.name, Meaning::Variable(&d.ctype))?;
    Ok(())
}

/// Declarators in the scope that was entered when there were `start` names.
#[tactic(auto, unfolding(cl_typing::specs::Twice::names_twice, cl_typing::specs::Scope::with_names), using(crate::proofs::Steps::steps))]
pub fn look_names<'a>(
    names: &mut Scopes<'a>,
    start: usize,
    ds: &'a [Declarator],
) -> Result<(), Stop>
    requires { start ≤ length names.old }
    ensures places { Finds result (twice.names_twice (since start names.old) ds.now) }
    ensures names { OnOk result (names.new ≡ with_names ds.now names.old) }
{
    for d in ds {
        look_name(names, start, d)?;
    }
    Ok(())
}

/// A statement in the scope that was entered when there were `start` names.
#[cycle(stmt)]
#[tactic(auto, unfolding(cl_typing::specs::Twice::stmt_twice, cl_typing::specs::Scope::with_names), using(cl_scope::proofs::Searches::searches))]
fn look_stmt<'a>(names: &mut Scopes<'a>, start: usize, s: &'a Stmt) -> Result<(), Stop>
    requires { start ≤ length names.old }
    ensures places { Finds result ((twice.stmt_twice s.now).places (since start names.old)) }
    ensures names { OnOk result (names.new ≡ with_names (twice.stmt_twice s.now).declares names.old) }
{
    match &s.node {
        Act::Block(ss) => look_block(names, ss.as_slice()),
        Act::If(_, body, other) => {
            look_own(names, body)?;
            look_optional(names, other)
        }
        Act::While(_, body) => look_own(names, body),
        Act::DoWhile(body, _) => look_own(names, body),
        Act::For {
            first,
            test: _,
            next,
            body,
        } => {
            look_optional(names, first)?;
            look_optional(names, next)?;
            look_own(names, body)
        }
        Act::Declare(d) => look_names(names, start, d.names.as_slice()),
        Act::Empty
        | Act::Set {
            op: _,
            place: _,
            value: _,
        }
        | Act::Bump {
            up: _,
            prefix: _,
            place: _,
        }
        | Act::Call(_)
        | Act::Return(_)
        | Act::Break
        | Act::Continue
        | Act::Cle(_) => Ok(()),
    }
}

/// A part of a statement, which is a scope of its own.
#[cycle(stmt)]
#[tactic(auto, using(cl_scope::proofs::Behind::left, cl_scope::proofs::Behind::since_self))]
fn look_own<'a>(names: &mut Scopes<'a>, s: &'a Boxed<Stmt>) -> Result<(), Stop>
    ensures places { Finds result (twice.own (twice.stmt_twice s.now)) }
    ensures names { OnOk result (names.new ≡ names.old) }
{
    let start = names.len();
    look_stmt(names, start, s.get())?;
    names.leave(start);
    Ok(())
}

#[cycle(stmt)]
#[tactic(auto, using(cl_scope::proofs::Behind::left, cl_scope::proofs::Behind::since_self))]
fn look_optional<'a>(names: &mut Scopes<'a>, s: &'a Option<Boxed<Stmt>>) -> Result<(), Stop>
    ensures places { Finds result (optional (option_map twice.own (option_map twice.stmt_twice s.now))) }
    ensures names { OnOk result (names.new ≡ names.old) }
{
    match s {
        Some(s) => {
            let start = names.len();
            look_stmt(names, start, s.get())?;
            names.leave(start);
            Ok(())
        }
        None => Ok(()),
    }
}

/// The statements of a block.
#[cycle(stmt)]
#[tactic(auto, using(cl_scope::proofs::Behind::since_self))]
fn look_block<'a>(names: &mut Scopes<'a>, all: &'a [Stmt]) -> Result<(), Stop>
    ensures places { Finds result (in_order (map twice.stmt_twice all.now) []) }
    ensures names { OnOk result (names.new ≡ names.old) }
{
    let start = names.len();
    look_all(names, start, all)?;
    names.leave(start);
    Ok(())
}

/// Statements in the scope that was entered when there were `start` names. Their own names stay.
#[cycle(stmt)]
#[tactic(auto, unfolding(cl_typing::specs::Scope::in_order), using(cl_scope::proofs::Searches::searches, cl_scope::proofs::Behind::extends_self))]
pub fn look_all<'a>(names: &mut Scopes<'a>, start: usize, all: &'a [Stmt]) -> Result<(), Stop>
    requires { start ≤ length names.old }
    ensures places { Finds result (in_order (map twice.stmt_twice all.now) (since start names.old)) }
    ensures names { OnOk result (Extends names.old names.new) }
{
    for s in all {
        look_stmt(names, start, s)?;
    }
    Ok(())
}
