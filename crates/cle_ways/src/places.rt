//! What is noted of expressions that statements use.

ghost use Rattle.std.specs.Prelude.{◌≡◌, ◌++◌, map, IfOk, OnOk};
ghost use Rattle.std.specs.List.{flat_map};
ghost use Rattle.cle_ways.specs.Ways as ways;

use crate::exprs::{holder_of, look, note_in_body, put_bound, put_into, root_of};
use crate::facts::Program;
use crate::spot::Spot;
use crate::ways::{Admitted, Holder, Note, Origin};
use cl_base::name::NoMemory;
use cl_levels::uses::Variable;
use cl_tree::kinds::BinOp;
use cl_tree::tree::{Expr, Init, Node};
use std::alloc::Global;

/// An expression that is used by itself: what it carries is added to `origins`.
fn look_origins(
    alloc: Global,
    program: &Program<'_>,
    f: usize,
    spot: &Spot<'_>,
    e: &Expr,
    notes: &mut Vec<Note>,
) -> Result<Vec<Origin>, NoMemory>
    ensures origins { IfOk result (λ origins. origins.items ≡ (ways.gist program.now f spot.now.known e.now).origins) }
    ensures notes { OnOk result (notes.new.items ≡ notes.old.items ++ ways.used_expr program.now f spot.now.known e.now) }
{
    let mut origins = Vec::new(alloc);
    look(alloc, program, f, spot, e, &mut origins, notes)?;
    note_in_body(alloc, program, f, e.line, origins.as_slice(), notes)?;
    Ok(origins)
}

/// The same, where what it carries goes nowhere.
pub fn look_used(
    alloc: Global,
    program: &Program<'_>,
    f: usize,
    spot: &Spot<'_>,
    e: &Expr,
    notes: &mut Vec<Note>,
) -> Result<(), NoMemory>
    ensures { OnOk result (notes.new.items ≡ notes.old.items ++ ways.used_expr program.now f spot.now.known e.now) }
{
    look_origins(alloc, program, f, spot, e, notes)?;
    Ok(())
}

/// An expression that may be absent.
pub fn look_part(
    alloc: Global,
    program: &Program<'_>,
    f: usize,
    spot: &Spot<'_>,
    part: &Option<Expr>,
    notes: &mut Vec<Note>,
) -> Result<(), NoMemory>
    ensures { OnOk result (notes.new.items ≡ notes.old.items ++ ways.maybe_used program.now f spot.now.known part.now) }
{
    match part {
        Some(e) => look_used(alloc, program, f, spot, e, notes),
        None => Ok(()),
    }
}

/// The calls of an expression whose value isn't used.
fn look_calls(
    alloc: Global,
    program: &Program<'_>,
    f: usize,
    spot: &Spot<'_>,
    e: &Expr,
    notes: &mut Vec<Note>,
) -> Result<(), NoMemory>
    ensures { OnOk result (notes.new.items ≡ notes.old.items ++ (ways.gist program.now f spot.now.known e.now).notes) }
{
    let mut origins = Vec::new(alloc);
    look(alloc, program, f, spot, e, &mut origins, notes)
}

/// The place of `=`, of which the indexes alone are read.
#[tactic(auto, unfolding(crate::specs::Ways::gist))]
fn look_place(
    alloc: Global,
    program: &Program<'_>,
    f: usize,
    spot: &Spot<'_>,
    e: &Expr,
    notes: &mut Vec<Note>,
) -> Result<(), NoMemory>
    ensures { OnOk result (notes.new.items ≡ notes.old.items ++ (ways.gist program.now f spot.now.known e.now).place) }
{
    match &e.node {
        Node::Variable(_) => Ok(()),
        Node::Index(a, i) => {
            look_place(alloc, program, f, spot, a.get(), notes)?;
            look_used(alloc, program, f, spot, i.get(), notes)
        }
        Node::Member(a, _) => look_place(alloc, program, f, spot, a.get(), notes),
        Node::Arrow(a, _) => look_place(alloc, program, f, spot, a.get(), notes),
        Node::Paren(a) => look_place(alloc, program, f, spot, a.get(), notes),
        Node::Number { value: _, kind: _ }
        | Node::Real
        | Node::Letter(_)
        | Node::Text(_)
        | Node::Unary(_, _)
        | Node::Binary(_, _, _)
        | Node::Choice(_, _, _)
        | Node::Cast(_, _)
        | Node::Call(_, _) => look_calls(alloc, program, f, spot, e, notes),
    }
}

fn look_target(
    alloc: Global,
    program: &Program<'_>,
    f: usize,
    spot: &Spot<'_>,
    op: Option<BinOp>,
    place: &Expr,
    notes: &mut Vec<Note>,
) -> Result<(), NoMemory>
    ensures { OnOk result (notes.new.items ≡ notes.old.items
        ++ ways.place_notes program.now f op (ways.gist program.now f spot.now.known place.now)) }
{
    match op {
        Some(_) => look_used(alloc, program, f, spot, place, notes),
        None => look_place(alloc, program, f, spot, place, notes),
    }
}

/// What a store adds.
fn store(
    program: &Program<'_>,
    f: usize,
    root: Option<Variable>,
    origins: &[Origin],
    notes: &mut Vec<Note>,
) -> Result<(), NoMemory>
    ensures { OnOk result (notes.new.items ≡ notes.old.items ++ ways.stored program.now f root origins.now) }
{
    match root {
        Some(v) => {
            if program.keeps(f, v) {
                Ok(())
            } else {
                put_into(holder_of(f, v), origins, notes)
            }
        }
        None => Ok(()),
    }
}

/// `place = e`, or with an operator.
pub fn look_set(
    alloc: Global,
    program: &Program<'_>,
    f: usize,
    spot: &Spot<'_>,
    op: Option<BinOp>,
    place: &Expr,
    e: &Expr,
    notes: &mut Vec<Note>,
) -> Result<(), NoMemory>
    ensures { OnOk result (notes.new.items ≡ notes.old.items
        ++ ways.set_notes program.now f op (ways.gist program.now f spot.now.known place.now) (ways.gist program.now f spot.now.known e.now)) }
{
    look_target(alloc, program, f, spot, op, place, notes)?;
    let origins = look_origins(alloc, program, f, spot, e, notes)?;
    let root = root_of(program, f, spot, place);
    store(program, f, root, origins.as_slice(), notes)
}

fn put_returned(
    program: &Program<'_>,
    f: usize,
    origins: &[Origin],
    notes: &mut Vec<Note>,
) -> Result<(), NoMemory>
    ensures { OnOk result (notes.new.items ≡ notes.old.items ++ ways.returned program.now f origins.now) }
{
    if program.is_annotated(f) {
        Ok(())
    } else {
        put_into(Holder::Result(f), origins, notes)
    }
}

/// E34, where the function is `main`.
fn put_from_main(
    alloc: Global,
    program: &Program<'_>,
    f: usize,
    line: u32,
    origins: &[Origin],
    notes: &mut Vec<Note>,
) -> Result<(), NoMemory>
    ensures { OnOk result (notes.new.items ≡ notes.old.items ++ ways.from_main program.now f line origins.now) }
{
    if program.is_main(f) {
        put_bound(
            alloc,
            34,
            origins,
            Admitted::OfLevel(program.level(f)),
            line,
            notes,
        )
    } else {
        Ok(())
    }
}

/// A `return`, with its line.
pub fn look_return(
    alloc: Global,
    program: &Program<'_>,
    f: usize,
    spot: &Spot<'_>,
    line: u32,
    e: &Option<Expr>,
    notes: &mut Vec<Note>,
) -> Result<(), NoMemory>
    ensures { OnOk result (notes.new.items ≡ notes.old.items ++ ways.maybe_return program.now f spot.now.known line e.now) }
{
    match e {
        Some(e) => {
            let origins = look_origins(alloc, program, f, spot, e, notes)?;
            put_returned(program, f, origins.as_slice(), notes)?;
            put_from_main(alloc, program, f, line, origins.as_slice(), notes)
        }
        None => Ok(()),
    }
}

/// An expression of an initialiser of a holder.
fn look_one(
    alloc: Global,
    program: &Program<'_>,
    f: usize,
    spot: &Spot<'_>,
    x: Holder,
    e: &Expr,
    notes: &mut Vec<Note>,
) -> Result<(), NoMemory>
    ensures { OnOk result (notes.new.items ≡ notes.old.items ++ ways.started program.now f x (ways.gist program.now f spot.now.known e.now)) }
{
    let origins = look_origins(alloc, program, f, spot, e, notes)?;
    put_into(x, origins.as_slice(), notes)
}

#[cycle(init)]
#[tactic(auto, unfolding(crate::specs::Ways::init_notes))]
fn look_init(
    alloc: Global,
    program: &Program<'_>,
    f: usize,
    spot: &Spot<'_>,
    x: Holder,
    i: &Init,
    notes: &mut Vec<Note>,
) -> Result<(), NoMemory>
    ensures { OnOk result (notes.new.items ≡ notes.old.items ++ ways.init_notes program.now f spot.now.known x i.now) }
{
    match i {
        Init::One(e) => look_one(alloc, program, f, spot, x, e, notes),
        Init::Many(parts) => look_inits(alloc, program, f, spot, x, parts.as_slice(), notes),
    }
}

#[cycle(init)]
fn look_inits(
    alloc: Global,
    program: &Program<'_>,
    f: usize,
    spot: &Spot<'_>,
    x: Holder,
    all: &[Init],
    notes: &mut Vec<Note>,
) -> Result<(), NoMemory>
    ensures { OnOk result (notes.new.items ≡ notes.old.items
        ++ flat_map (λ ns. ns) (map (ways.init_notes program.now f spot.now.known x) all.now)) }
{
    for i in all {
        look_init(alloc, program, f, spot, x, i, notes)?;
    }
    Ok(())
}

/// The initialiser of a declarator.
pub fn look_start(
    alloc: Global,
    program: &Program<'_>,
    f: usize,
    spot: &Spot<'_>,
    x: Holder,
    init: &Option<Init>,
    notes: &mut Vec<Note>,
) -> Result<(), NoMemory>
    ensures { OnOk result (notes.new.items ≡ notes.old.items ++ ways.maybe_init program.now f spot.now.known x init.now) }
{
    match init {
        Some(i) => look_init(alloc, program, f, spot, x, i, notes),
        None => Ok(()),
    }
}
