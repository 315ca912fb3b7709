//! What is noted of statements.

ghost use Rattle.std.specs.Prelude.{◌≡◌, ◌++◌, map, option_map, OnOk};
ghost use Rattle.cl_tree.specs.declared.tree.Act.TheVariants as Act;
ghost use Rattle.cle_ways.specs.Ways as w;
ghost use Rattle.cle_walk.specs.Walked.{for_walk};

use cl_base::name::NoMemory;
use cl_tree::tree::{Act, Declaration, Declarator, Expr, Stmt};
use cle_ways::facts::Program;
use cle_ways::places::{look_part, look_return, look_set, look_start, look_used};
use cle_ways::spot::Spot;
use cle_ways::ways::{Holder, Note};
use sqlite_items::Boxed;
use std::alloc::Global;

/// Locals: each is known in its own initialiser.
fn look_locals<'a>(
    alloc: Global,
    program: &Program<'_>,
    f: usize,
    spot: &mut Spot<'a>,
    ds: &'a [Declarator],
    notes: &mut Vec<Note>,
) -> Result<(), NoMemory>
    ensures notes { OnOk result (notes.new.items ≡ notes.old.items ++ (w.locals_walk program.now f ds.now spot.old).0) }
    ensures names { OnOk result (spot.new ≡ (w.locals_walk program.now f ds.now spot.old).1) }
{
    for d in ds {
        let x = Holder::Local(f, spot.locals());
        spot.bind_local(&d.name)?;
        look_start(alloc, program, f, spot, x, &d.init, notes)?;
    }
    Ok(())
}

/// Static locals, whose initialisers are constants.
fn bind_statics<'a>(spot: &mut Spot<'a>, ds: &'a [Declarator]) -> Result<(), NoMemory>
    ensures { OnOk result (spot.new ≡ (w.statics_walk ds.now spot.old).1) }
{
    for d in ds {
        spot.bind_static(&d.name)?;
    }
    Ok(())
}

fn look_declaration<'a>(
    alloc: Global,
    program: &Program<'_>,
    f: usize,
    spot: &mut Spot<'a>,
    d: &'a Declaration,
    notes: &mut Vec<Note>,
) -> Result<(), NoMemory>
    ensures notes { OnOk result (notes.new.items ≡ notes.old.items ++ (w.declare_walk program.now f d.now.is_static d.now.names spot.old).0) }
    ensures names { OnOk result (spot.new ≡ (w.declare_walk program.now f d.now.is_static d.now.names spot.old).1) }
{
    if d.is_static {
        bind_statics(spot, d.names.as_slice())
    } else {
        look_locals(alloc, program, f, spot, d.names.as_slice(), notes)
    }
}

/// A statement. What it declares is known behind it.
#[cycle(stmt)]
#[tactic(auto, unfolding(cle_ways::specs::Ways::walk))]
fn look_stmt<'a>(
    alloc: Global,
    program: &Program<'_>,
    f: usize,
    spot: &mut Spot<'a>,
    s: &'a Stmt,
    notes: &mut Vec<Note>,
) -> Result<(), NoMemory>
    ensures notes { OnOk result (notes.new.items ≡ notes.old.items ++ (w.walk program.now f s.now spot.old).0) }
    ensures names { OnOk result (spot.new ≡ (w.walk program.now f s.now spot.old).1) }
{
    match &s.node {
        Act::Empty | Act::Break | Act::Continue | Act::Cle(_) => Ok(()),
        Act::Block(ss) => look_block(alloc, program, f, spot, ss.as_slice(), notes),
        Act::Set { op, place, value } => look_set(
            alloc, program, f, spot, *op, place, value, notes,
        ),
        Act::Bump {
            up: _,
            prefix: _,
            place,
        } => look_used(alloc, program, f, spot, place, notes),
        Act::Call(e) => look_used(alloc, program, f, spot, e, notes),
        Act::If(c, body, other) => {
            look_used(alloc, program, f, spot, c, notes)?;
            look_own(alloc, program, f, spot, body, notes)?;
            look_other(alloc, program, f, spot, other, notes)
        }
        Act::While(c, body) => {
            look_used(alloc, program, f, spot, c, notes)?;
            look_own(alloc, program, f, spot, body, notes)
        }
        Act::DoWhile(body, c) => {
            look_own(alloc, program, f, spot, body, notes)?;
            look_used(alloc, program, f, spot, c, notes)
        }
        Act::For {
            first,
            test,
            next,
            body,
        } => look_for(
            alloc, program, f, spot, &s.node, first, test, next, body, notes,
        ),
        Act::Return(e) => look_return(alloc, program, f, spot, s.line, e, notes),
        Act::Declare(d) => look_declaration(alloc, program, f, spot, d, notes),
    }
}

/// A part of a statement. What it declares is forgotten.
#[cycle(stmt)]
#[tactic(auto, using(crate::proofs::Behind::left_walk))]
fn look_own<'a>(
    alloc: Global,
    program: &Program<'_>,
    f: usize,
    spot: &mut Spot<'a>,
    s: &'a Boxed<Stmt>,
    notes: &mut Vec<Note>,
) -> Result<(), NoMemory>
    ensures notes { OnOk result (notes.new.items ≡ notes.old.items ++ (w.scoped (w.walk program.now f s.now) spot.old).0) }
    ensures names { OnOk result (spot.new ≡ (w.scoped (w.walk program.now f s.now) spot.old).1) }
{
    let len = spot.len();
    look_stmt(alloc, program, f, spot, s.get(), notes)?;
    spot.leave(len);
    Ok(())
}

/// A `for`: its declaration is known in its head and its body.
#[cycle(stmt)]
#[tactic(auto, using(crate::proofs::Behind::left_for))]
fn look_for<'a>(
    alloc: Global,
    program: &Program<'_>,
    f: usize,
    spot: &mut Spot<'a>,
    whole: &'a Act,
    first: &'a Option<Boxed<Stmt>>,
    test: &'a Option<Expr>,
    next: &'a Option<Boxed<Stmt>>,
    body: &'a Boxed<Stmt>,
    notes: &mut Vec<Note>,
) -> Result<(), NoMemory>
    requires { whole.now ≡ Act.For first.now test.now next.now body.now }
    ensures notes { OnOk result (notes.new.items ≡ notes.old.items ++ (for_walk program.now f first.now test.now next.now body.now spot.old).0) }
    ensures names { OnOk result (spot.new ≡ (for_walk program.now f first.now test.now next.now body.now spot.old).1) }
{
    let len = spot.len();
    look_head(alloc, program, f, spot, first, notes)?;
    look_part(alloc, program, f, spot, test, notes)?;
    look_head(alloc, program, f, spot, next, notes)?;
    look_own(alloc, program, f, spot, body, notes)?;
    spot.leave(len);
    Ok(())
}

/// A part of a statement that may be absent. What it declares is forgotten.
#[cycle(stmt)]
#[tactic(auto, using(crate::proofs::Behind::left_walk))]
fn look_other<'a>(
    alloc: Global,
    program: &Program<'_>,
    f: usize,
    spot: &mut Spot<'a>,
    s: &'a Option<Boxed<Stmt>>,
    notes: &mut Vec<Note>,
) -> Result<(), NoMemory>
    ensures notes { OnOk result (notes.new.items ≡ notes.old.items ++ (w.scoped (w.if_there (option_map (w.walk program.now f) s.now)) spot.old).0) }
    ensures names { OnOk result (spot.new ≡ (w.scoped (w.if_there (option_map (w.walk program.now f) s.now)) spot.old).1) }
{
    match s {
        Some(s) => {
            let len = spot.len();
            look_stmt(alloc, program, f, spot, s.get(), notes)?;
            spot.leave(len);
            Ok(())
        }
        None => Ok(()),
    }
}

/// A part of the head of a `for`, whose declaration stays known.
#[cycle(stmt)]
fn look_head<'a>(
    alloc: Global,
    program: &Program<'_>,
    f: usize,
    spot: &mut Spot<'a>,
    s: &'a Option<Boxed<Stmt>>,
    notes: &mut Vec<Note>,
) -> Result<(), NoMemory>
    ensures notes { OnOk result (notes.new.items ≡ notes.old.items ++ (w.if_there (option_map (w.walk program.now f) s.now) spot.old).0) }
    ensures names { OnOk result (spot.new ≡ (w.if_there (option_map (w.walk program.now f) s.now) spot.old).1) }
{
    match s {
        Some(s) => look_stmt(alloc, program, f, spot, s.get(), notes),
        None => Ok(()),
    }
}

/// Statements in order, of which each is known what those before it declare.
#[cycle(stmt)]
pub fn look_stmts<'a>(
    alloc: Global,
    program: &Program<'_>,
    f: usize,
    spot: &mut Spot<'a>,
    all: &'a [Stmt],
    notes: &mut Vec<Note>,
) -> Result<(), NoMemory>
    ensures notes { OnOk result (notes.new.items ≡ notes.old.items ++ (w.in_turn (map (w.walk program.now f) all.now) spot.old).0) }
    ensures names { OnOk result (spot.new ≡ (w.in_turn (map (w.walk program.now f) all.now) spot.old).1) }
{
    for s in all {
        look_stmt(alloc, program, f, spot, s, notes)?;
    }
    Ok(())
}

/// A block. What it declares is forgotten.
#[cycle(stmt)]
#[tactic(auto, using(crate::proofs::Behind::left_turn))]
fn look_block<'a>(
    alloc: Global,
    program: &Program<'_>,
    f: usize,
    spot: &mut Spot<'a>,
    all: &'a [Stmt],
    notes: &mut Vec<Note>,
) -> Result<(), NoMemory>
    ensures notes { OnOk result (notes.new.items ≡ notes.old.items ++ (w.scoped (w.in_turn (map (w.walk program.now f) all.now)) spot.old).0) }
    ensures names { OnOk result (spot.new ≡ (w.scoped (w.in_turn (map (w.walk program.now f) all.now)) spot.old).1) }
{
    let len = spot.len();
    look_stmts(alloc, program, f, spot, all, notes)?;
    spot.leave(len);
    Ok(())
}
