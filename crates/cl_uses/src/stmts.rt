//! What statements use.

ghost use Rattle.std.specs.Prelude.{◌≡◌, ◌++◌, map, option_map, OnOk};
ghost use Rattle.cl_tree.specs.declared.tree.Act.TheVariants as Act;
ghost use Rattle.cl_levels.specs.Uses as u;
ghost use Rattle.cl_uses.specs.Spots.{for_walk};

use crate::exprs::{look_expr, look_part, look_start};
use crate::functions::Functions;
use crate::spot::Spot;
use cl_base::name::NoMemory;
use cl_levels::uses::Use;
use cl_tree::tree::{Act, Declaration, Declarator, Expr, Stmt};
use sqlite_items::Boxed;
use std::alloc::Global;

/// Locals: each is known in its own initialiser.
fn look_locals<'a>(
    alloc: Global,
    functions: &Functions<'a>,
    spot: &mut Spot<'a>,
    ds: &'a [Declarator],
    uses: &mut Vec<Use>,
) -> Result<(), NoMemory>
    ensures uses { OnOk result (uses.new.items ≡ uses.old.items ++ (u.locals_walk functions.now ds.now spot.old).0) }
    ensures names { OnOk result (spot.new ≡ (u.locals_walk functions.now ds.now spot.old).1) }
{
    for d in ds {
        spot.bind_local(&d.name)?;
        look_start(alloc, functions, spot, &d.init, uses)?;
    }
    Ok(())
}

/// Static locals: the declaration of each names it.
fn look_statics<'a>(
    spot: &mut Spot<'a>,
    ds: &'a [Declarator],
    uses: &mut Vec<Use>,
) -> Result<(), NoMemory>
    ensures uses { OnOk result (uses.new.items ≡ uses.old.items ++ (u.statics_walk ds.now spot.old).0) }
    ensures names { OnOk result (spot.new ≡ (u.statics_walk ds.now spot.old).1) }
{
    for d in ds {
        uses.push(Use::Named {
            object: spot.statics(),
            line: d.line,
        })?;
        spot.bind_static(&d.name)?;
    }
    Ok(())
}

fn look_declaration<'a>(
    alloc: Global,
    functions: &Functions<'a>,
    spot: &mut Spot<'a>,
    d: &'a Declaration,
    uses: &mut Vec<Use>,
) -> Result<(), NoMemory>
    ensures uses { OnOk result (uses.new.items ≡ uses.old.items ++ (u.declare_walk functions.now d.now.is_static d.now.names spot.old).0) }
    ensures names { OnOk result (spot.new ≡ (u.declare_walk functions.now d.now.is_static d.now.names spot.old).1) }
{
    if d.is_static {
        look_statics(spot, d.names.as_slice(), uses)
    } else {
        look_locals(alloc, functions, spot, d.names.as_slice(), uses)
    }
}

/// A statement. What it declares is known behind it.
#[cycle(stmt)]
#[tactic(auto, unfolding(cl_levels::specs::Uses::walk))]
fn look_stmt<'a>(
    alloc: Global,
    functions: &Functions<'a>,
    spot: &mut Spot<'a>,
    s: &'a Stmt,
    uses: &mut Vec<Use>,
) -> Result<(), NoMemory>
    ensures uses { OnOk result (uses.new.items ≡ uses.old.items ++ (u.walk functions.now s.now spot.old).0) }
    ensures names { OnOk result (spot.new ≡ (u.walk functions.now s.now spot.old).1) }
{
    match &s.node {
        Act::Empty | Act::Break | Act::Continue | Act::Cle(_) => Ok(()),
        Act::Block(ss) => look_block(alloc, functions, spot, ss.as_slice(), uses),
        Act::Set {
            op: _,
            place,
            value,
        } => {
            look_expr(alloc, functions, spot, place, uses)?;
            look_expr(alloc, functions, spot, value, uses)
        }
        Act::Bump {
            up: _,
            prefix: _,
            place,
        } => look_expr(alloc, functions, spot, place, uses),
        Act::Call(e) => look_expr(alloc, functions, spot, e, uses),
        Act::If(c, body, other) => {
            look_expr(alloc, functions, spot, c, uses)?;
            look_own(alloc, functions, spot, body, uses)?;
            look_other(alloc, functions, spot, other, uses)
        }
        Act::While(c, body) => {
            look_expr(alloc, functions, spot, c, uses)?;
            look_own(alloc, functions, spot, body, uses)
        }
        Act::DoWhile(body, c) => {
            look_own(alloc, functions, spot, body, uses)?;
            look_expr(alloc, functions, spot, c, uses)
        }
        Act::For {
            first,
            test,
            next,
            body,
        } => look_for(
            alloc, functions, spot, &s.node, first, test, next, body, uses,
        ),
        Act::Return(e) => look_part(alloc, functions, spot, e, uses),
        Act::Declare(d) => look_declaration(alloc, functions, spot, d, uses),
    }
}

/// A part of a statement. What it declares is forgotten.
#[cycle(stmt)]
#[tactic(auto, using(crate::proofs::Behind::left_walk))]
fn look_own<'a>(
    alloc: Global,
    functions: &Functions<'a>,
    spot: &mut Spot<'a>,
    s: &'a Boxed<Stmt>,
    uses: &mut Vec<Use>,
) -> Result<(), NoMemory>
    ensures uses { OnOk result (uses.new.items ≡ uses.old.items ++ (u.scoped (u.walk functions.now s.now) spot.old).0) }
    ensures names { OnOk result (spot.new ≡ (u.scoped (u.walk functions.now s.now) spot.old).1) }
{
    let len = spot.len();
    look_stmt(alloc, functions, spot, s.get(), uses)?;
    spot.leave(len);
    Ok(())
}

/// A `for`: its declaration is known in its head and its body.
#[cycle(stmt)]
#[tactic(auto, using(crate::proofs::Behind::left_for))]
fn look_for<'a>(
    alloc: Global,
    functions: &Functions<'a>,
    spot: &mut Spot<'a>,
    whole: &'a Act,
    first: &'a Option<Boxed<Stmt>>,
    test: &'a Option<Expr>,
    next: &'a Option<Boxed<Stmt>>,
    body: &'a Boxed<Stmt>,
    uses: &mut Vec<Use>,
) -> Result<(), NoMemory>
    requires { whole.now ≡ Act.For first.now test.now next.now body.now }
    ensures uses { OnOk result (uses.new.items ≡ uses.old.items ++ (for_walk functions.now first.now test.now next.now body.now spot.old).0) }
    ensures names { OnOk result (spot.new ≡ (for_walk functions.now first.now test.now next.now body.now spot.old).1) }
{
    let len = spot.len();
    look_head(alloc, functions, spot, first, uses)?;
    look_part(alloc, functions, spot, test, uses)?;
    look_head(alloc, functions, spot, next, uses)?;
    look_own(alloc, functions, spot, body, uses)?;
    spot.leave(len);
    Ok(())
}

/// A part of a statement that may be absent. What it declares is forgotten.
#[cycle(stmt)]
#[tactic(auto, using(crate::proofs::Behind::left_walk))]
fn look_other<'a>(
    alloc: Global,
    functions: &Functions<'a>,
    spot: &mut Spot<'a>,
    s: &'a Option<Boxed<Stmt>>,
    uses: &mut Vec<Use>,
) -> Result<(), NoMemory>
    ensures uses { OnOk result (uses.new.items ≡ uses.old.items ++ (u.scoped (u.if_there (option_map (u.walk functions.now) s.now)) spot.old).0) }
    ensures names { OnOk result (spot.new ≡ (u.scoped (u.if_there (option_map (u.walk functions.now) s.now)) spot.old).1) }
{
    match s {
        Some(s) => {
            let len = spot.len();
            look_stmt(alloc, functions, spot, s.get(), uses)?;
            spot.leave(len);
            Ok(())
        }
        None => Ok(()),
    }
}

/// A part of the head of a `for`, whose declaration stays known.
#[cycle(stmt)]
#[tactic(auto)]
fn look_head<'a>(
    alloc: Global,
    functions: &Functions<'a>,
    spot: &mut Spot<'a>,
    s: &'a Option<Boxed<Stmt>>,
    uses: &mut Vec<Use>,
) -> Result<(), NoMemory>
    ensures uses { OnOk result (uses.new.items ≡ uses.old.items ++ (u.if_there (option_map (u.walk functions.now) s.now) spot.old).0) }
    ensures names { OnOk result (spot.new ≡ (u.if_there (option_map (u.walk functions.now) s.now) spot.old).1) }
{
    match s {
        Some(s) => look_stmt(alloc, functions, spot, s.get(), uses),
        None => Ok(()),
    }
}

/// Statements in order, of which each is known what those before it declare.
#[cycle(stmt)]
pub fn look_stmts<'a>(
    alloc: Global,
    functions: &Functions<'a>,
    spot: &mut Spot<'a>,
    all: &'a [Stmt],
    uses: &mut Vec<Use>,
) -> Result<(), NoMemory>
    ensures uses { OnOk result (uses.new.items ≡ uses.old.items ++ (u.in_turn (map (u.walk functions.now) all.now) spot.old).0) }
    ensures names { OnOk result (spot.new ≡ (u.in_turn (map (u.walk functions.now) all.now) spot.old).1) }
{
    for s in all {
        look_stmt(alloc, functions, spot, s, uses)?;
    }
    Ok(())
}

/// A block. What it declares is forgotten.
#[cycle(stmt)]
#[tactic(auto, using(crate::proofs::Behind::left_turn))]
fn look_block<'a>(
    alloc: Global,
    functions: &Functions<'a>,
    spot: &mut Spot<'a>,
    all: &'a [Stmt],
    uses: &mut Vec<Use>,
) -> Result<(), NoMemory>
    ensures uses { OnOk result (uses.new.items ≡ uses.old.items ++ (u.scoped (u.in_turn (map (u.walk functions.now) all.now)) spot.old).0) }
    ensures names { OnOk result (spot.new ≡ (u.scoped (u.in_turn (map (u.walk functions.now) all.now)) spot.old).1) }
{
    let len = spot.len();
    look_stmts(alloc, functions, spot, all, uses)?;
    spot.leave(len);
    Ok(())
}
