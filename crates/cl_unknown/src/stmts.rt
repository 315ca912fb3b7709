//! Names and tags in declarations and statements.

ghost use Rattle.std.specs.Prelude.{◌≡◌, ◌∷◌, map, option_map, OnOk};
ghost use Rattle.cl_typing.specs.Scope.{with_names, bound, in_order};
ghost use Rattle.cl_typing.specs.Unknown as unknown;
ghost use Rattle.cl_scope.specs.Finds.{Finds};
ghost use Rattle.cl_unknown.specs.Known.{known_of};

use crate::exprs::{Known, has_tag, look_expr, look_part, look_start};
use cl_scope::scopes::{Meaning, Scopes};
use cl_scope::search::unless;
use cl_scope::stop::Stop;
use cl_tree::tree::{Act, Declarator, Expr, Stmt};
use sqlite_items::{Boxed, Items};

/// One declarator, whose name is known in its own initialiser.
#[tactic(auto, unfolding(cl_typing::specs::Unknown::declarator_unknown), using(cl_scope::proofs::Searches::searches))]
fn look_declarator<'a>(
    known: &Known<'a>,
    names: &mut Scopes<'a>,
    d: &'a Declarator,
) -> Result<(), Stop>
    ensures places { Finds result (unknown.declarator_unknown (known_of known.now) names.old d.now) }
    ensures names { OnOk result (names.new ≡ bound d.now ∷ names.old) }
{
    unless(has_tag(&known.tags, &d.ctype), d.line)?;
    names.bind(&d.name, Meaning::Variable(&d.ctype))?;
    look_start(known, names, &d.init)
}

#[tactic(auto, unfolding(cl_typing::specs::Unknown::names_unknown, cl_typing::specs::Scope::with_names), using(cl_scope::proofs::Searches::searches))]
pub fn look_names<'a>(
    known: &Known<'a>,
    names: &mut Scopes<'a>,
    ds: &'a [Declarator],
) -> Result<(), Stop>
    ensures places { Finds result (unknown.names_unknown (known_of known.now) names.old ds.now) }
    ensures names { OnOk result (names.new ≡ with_names ds.now names.old) }
{
    for d in ds {
        look_declarator(known, names, d)?;
    }
    Ok(())
}

/// A statement. What it declares is known behind it.
#[cycle(stmt)]
#[tactic(auto, unfolding(cl_typing::specs::Unknown::stmt_unknown, cl_typing::specs::Scope::with_names), using(cl_scope::proofs::Searches::searches))]
pub fn look_stmt<'a>(known: &Known<'a>, names: &mut Scopes<'a>, s: &'a Stmt) -> Result<(), Stop>
    ensures places { Finds result ((unknown.stmt_unknown (known_of known.now) s.now).places names.old) }
    ensures names { OnOk result (names.new ≡ with_names (unknown.stmt_unknown (known_of known.now) s.now).declares
        names.old) }
{
    match &s.node {
        Act::Empty | Act::Break | Act::Continue | Act::Cle(_) => Ok(()),
        Act::Block(ss) => look_block(known, names, ss.as_slice()),
        Act::Set {
            op: _,
            place,
            value,
        } => {
            look_expr(known, names, place)?;
            look_expr(known, names, value)
        }
        Act::Bump {
            up: _,
            prefix: _,
            place,
        } => look_expr(known, names, place),
        Act::Call(e) => look_expr(known, names, e),
        Act::If(c, body, other) => {
            look_expr(known, names, c)?;
            look_own(known, names, body)?;
            look_optional(known, names, other)
        }
        Act::While(c, body) => {
            look_expr(known, names, c)?;
            look_own(known, names, body)
        }
        Act::DoWhile(body, c) => {
            look_own(known, names, body)?;
            look_expr(known, names, c)
        }
        Act::For {
            first,
            test,
            next,
            body,
        } => look_for(known, names, &s.node, first, test, next, body),
        Act::Return(e) => look_part(known, names, e),
        Act::Declare(d) => look_names(known, names, d.names.as_slice()),
    }
}

/// A part of a statement. What it declares is forgotten.
#[cycle(stmt)]
#[tactic(auto, using(cl_scope::proofs::Behind::left))]
fn look_own<'a>(known: &Known<'a>, names: &mut Scopes<'a>, s: &'a Boxed<Stmt>) -> Result<(), Stop>
    ensures places { Finds result ((unknown.stmt_unknown (known_of known.now) s.now).places names.old) }
    ensures names { OnOk result (names.new ≡ names.old) }
{
    let len = names.len();
    look_stmt(known, names, s.get())?;
    names.leave(len);
    Ok(())
}

/// A `for`: its declaration is known in its head and its body.
#[cycle(stmt)]
#[tactic(auto, using(cl_scope::proofs::Searches::searches, crate::proofs::Heads::left_head))]
fn look_for<'a>(
    known: &Known<'a>,
    names: &mut Scopes<'a>,
    whole: &'a Act,
    first: &'a Option<Boxed<Stmt>>,
    test: &'a Option<Expr>,
    next: &'a Option<Boxed<Stmt>>,
    body: &'a Boxed<Stmt>,
) -> Result<(), Stop>
    requires { whole.now ≡ Act.For first.now test.now next.now body.now }
    ensures places { Finds result (unknown.for_unknown (known_of known.now)
        (option_map (unknown.stmt_unknown (known_of known.now)) first.now) test.now
        (option_map (unknown.stmt_unknown (known_of known.now)) next.now)
        (unknown.stmt_unknown (known_of known.now) body.now) names.old) }
    ensures names { OnOk result (names.new ≡ names.old) }
{
    let len = names.len();
    look_first(known, names, first)?;
    look_part(known, names, test)?;
    look_optional(known, names, next)?;
    look_own(known, names, body)?;
    names.leave(len);
    Ok(())
}

/// A part of a statement that may be absent. What it declares is forgotten.
#[cycle(stmt)]
#[tactic(auto, using(cl_scope::proofs::Behind::left))]
fn look_optional<'a>(
    known: &Known<'a>,
    names: &mut Scopes<'a>,
    s: &'a Option<Boxed<Stmt>>,
) -> Result<(), Stop>
    ensures places { Finds result (unknown.optional_in (option_map (unknown.stmt_unknown (known_of known.now)) s.now)
        names.old) }
    ensures names { OnOk result (names.new ≡ names.old) }
{
    match s {
        Some(s) => {
            let len = names.len();
            look_stmt(known, names, s.get())?;
            names.leave(len);
            Ok(())
        }
        None => Ok(()),
    }
}

/// The first part of the head of a `for`, whose declaration stays known.
#[cycle(stmt)]
fn look_first<'a>(
    known: &Known<'a>,
    names: &mut Scopes<'a>,
    s: &'a Option<Boxed<Stmt>>,
) -> Result<(), Stop>
    ensures places { Finds result (unknown.optional_in (option_map (unknown.stmt_unknown (known_of known.now)) s.now)
        names.old) }
    ensures names { OnOk result (names.new ≡ unknown.env_behind
        (option_map (unknown.stmt_unknown (known_of known.now)) s.now) names.old) }
{
    match s {
        Some(s) => look_stmt(known, names, s.get()),
        None => Ok(()),
    }
}

/// The statements of a block.
#[cycle(stmt)]
#[tactic(auto, unfolding(cl_typing::specs::Scope::in_order), using(cl_scope::proofs::Searches::searches, cl_scope::proofs::Behind::extends_self, cl_scope::proofs::Behind::extends_names))]
pub fn look_block<'a>(
    known: &Known<'a>,
    names: &mut Scopes<'a>,
    all: &'a [Stmt],
) -> Result<(), Stop>
    ensures places { Finds result (in_order (map (unknown.stmt_unknown (known_of known.now)) all.now) names.old) }
    ensures names { OnOk result (names.new ≡ names.old) }
{
    let len = names.len();
    for s in all {
        look_stmt(known, names, s)?;
    }
    names.leave(len);
    Ok(())
}
