//! What expressions carry, and what is noted of them.

ghost use Rattle.std.specs.Prelude.{◌≡◌, ◌++◌, map, IfOk, OnOk};
ghost use Rattle.std.specs.List.{flat_map};
ghost use Rattle.cle_ways.specs.Ways as ways;

use crate::facts::Program;
use crate::spot::Spot;
use crate::ways::{Admitted, Bound, Holder, Note, Origin, Way};
use cl_base::name::{Name, NoMemory};
use cl_levels::uses::Variable;
use cl_mean::labels::Mention;
use cl_tree::tree::{Expr, Node};
use sqlite_items::Items;
use std::alloc::Global;

/// The holder of a variable that the body of a function sees.
pub fn holder_of(f: usize, variable: Variable) -> Holder
    ensures { result ≡ ways.holder_of f variable }
{
    match variable {
        Variable::Static(k) => Holder::Object(k),
        Variable::Local(k) => Holder::Local(f, k),
    }
}

/// What the origins give, a holder carries.
pub fn put_into(x: Holder, origins: &[Origin], notes: &mut Vec<Note>) -> Result<(), NoMemory>
    ensures { OnOk result (notes.new.items ≡ notes.old.items ++ ways.into x origins.now) }
{
    for origin in origins {
        notes.push(Note::Flows(Way {
            from: *origin,
            into: x,
        }))?;
    }
    Ok(())
}

/// What the origins give is to be admitted.
pub fn put_bound(
    alloc: Global,
    rule: u8,
    origins: &[Origin],
    admitted: Admitted,
    line: u32,
    notes: &mut Vec<Note>,
) -> Result<(), NoMemory>
    ensures { OnOk result (notes.new.items ≡ notes.old.items ++ ways.bound rule origins.now admitted line) }
{
    let mut all = Vec::new(alloc);
    all.extend_from_slice(origins)?;
    notes.push(Note::Bounds(Bound {
        rule,
        origins: Items::from_vec(all),
        admitted,
        line,
    }))?;
    Ok(())
}

/// E33, where the function is annotated.
pub fn note_in_body(
    alloc: Global,
    program: &Program<'_>,
    f: usize,
    line: u32,
    origins: &[Origin],
    notes: &mut Vec<Note>,
) -> Result<(), NoMemory>
    ensures { OnOk result (notes.new.items ≡ notes.old.items ++ ways.in_body program.now f line origins.now) }
{
    if program.is_annotated(f) {
        put_bound(alloc, 33, origins, Admitted::Body(f), line, notes)
    } else {
        Ok(())
    }
}

/// A read of a variable.
fn read(f: usize, variable: Option<Variable>, origins: &mut Vec<Origin>) -> Result<(), NoMemory>
    ensures { OnOk result (origins.new.items ≡ origins.old.items ++ ways.read f variable) }
{
    match variable {
        Some(v) => {
            origins.push(Origin::AllOf(holder_of(f, v)))?;
            Ok(())
        }
        None => Ok(()),
    }
}

/// What an argument carries goes into the parameter, or is bounded by its taints.
fn pass(
    alloc: Global,
    program: &Program<'_>,
    callee: usize,
    line: u32,
    k: usize,
    origins: &[Origin],
    notes: &mut Vec<Note>,
) -> Result<(), NoMemory>
    ensures { OnOk result (notes.new.items ≡ notes.old.items ++ ways.passed program.now callee line k origins.now) }
{
    if program.is_annotated(callee) {
        put_bound(
            alloc,
            31,
            origins,
            Admitted::Argument(callee, k),
            line,
            notes,
        )
    } else {
        put_into(Holder::Local(callee, k), origins, notes)
    }
}

/// What an array parameter carries comes back into the variable that was passed.
fn bring_back(
    program: &Program<'_>,
    f: usize,
    callee: usize,
    k: usize,
    root: Option<Variable>,
    notes: &mut Vec<Note>,
) -> Result<(), NoMemory>
    ensures { OnOk result (notes.new.items ≡ notes.old.items ++ ways.comes_back program.now f callee k root) }
{
    match root {
        Some(v) => {
            if program.is_closed(f, v) {
                Ok(())
            } else {
                put_into(
                    holder_of(f, v),
                    &[Origin::AllOf(Holder::Local(callee, k))],
                    notes,
                )
            }
        }
        None => Ok(()),
    }
}

fn bring_array(
    program: &Program<'_>,
    f: usize,
    callee: usize,
    k: usize,
    is_array: bool,
    root: Option<Variable>,
    notes: &mut Vec<Note>,
) -> Result<(), NoMemory>
    ensures { OnOk result (notes.new.items ≡ notes.old.items ++ ways.if_array is_array (ways.comes_back program.now f callee k root)) }
{
    if is_array {
        bring_back(program, f, callee, k, root, notes)
    } else {
        Ok(())
    }
}

/// What is moved by an argument for a parameter.
fn move_argument(
    alloc: Global,
    program: &Program<'_>,
    f: usize,
    callee: usize,
    line: u32,
    k: usize,
    origins: &[Origin],
    root: Option<Variable>,
    notes: &mut Vec<Note>,
) -> Result<(), NoMemory>
    ensures { OnOk result (notes.new.items ≡ notes.old.items
        ++ ways.moved program.now f callee line k (ways.array_at program.now callee k) origins.now root) }
{
    match program.array_at(callee, k) {
        Some(is_array) => {
            pass(alloc, program, callee, line, k, origins, notes)?;
            bring_array(program, f, callee, k, is_array, root, notes)
        }
        None => Ok(()),
    }
}

/// What a call of the library carries.
fn library_origins(
    program: &Program<'_>,
    f: usize,
    name: &Name,
    origins: &mut Vec<Origin>,
) -> Result<(), NoMemory>
    ensures { OnOk result (origins.new.items ≡ origins.old.items ++ ways.library_origins program.now f name.now) }
{
    let text = name.text();
    if text == "getchar" {
        origins.push(Origin::Just(Mention::Level(program.level(f))))?;
    }
    Ok(())
}

/// What a call carries.
fn call_origins(
    program: &Program<'_>,
    f: usize,
    name: &Name,
    callee: Option<usize>,
    origins: &mut Vec<Origin>,
) -> Result<(), NoMemory>
    ensures { OnOk result (origins.new.items ≡ origins.old.items ++ ways.call_origins program.now f name.now callee) }
{
    match callee {
        Some(callee) => {
            origins.push(Origin::AllOf(Holder::Result(callee)))?;
            Ok(())
        }
        None => library_origins(program, f, name, origins),
    }
}

/// Adds what an expression carries and what is noted of the calls in it.
#[cycle(gist)]
#[tactic(auto, unfolding(crate::specs::Ways::gist))]
pub fn look(
    alloc: Global,
    program: &Program<'_>,
    f: usize,
    spot: &Spot<'_>,
    e: &Expr,
    origins: &mut Vec<Origin>,
    notes: &mut Vec<Note>,
) -> Result<(), NoMemory>
    ensures origins { OnOk result (origins.new.items ≡ origins.old.items ++ (ways.gist program.now f spot.now.known e.now).origins) }
    ensures notes { OnOk result (notes.new.items ≡ notes.old.items ++ (ways.gist program.now f spot.now.known e.now).notes) }
{
    match &e.node {
        Node::Number { value: _, kind: _ } | Node::Real | Node::Letter(_) | Node::Text(_) => Ok(()),
        Node::Variable(name) => read(f, spot.find(name), origins),
        Node::Unary(_, a) => look(alloc, program, f, spot, a.get(), origins, notes),
        Node::Binary(_, a, b) => {
            look(alloc, program, f, spot, a.get(), origins, notes)?;
            look(alloc, program, f, spot, b.get(), origins, notes)
        }
        Node::Choice(test, a, b) => {
            look(alloc, program, f, spot, test.get(), origins, notes)?;
            look(alloc, program, f, spot, a.get(), origins, notes)?;
            look(alloc, program, f, spot, b.get(), origins, notes)
        }
        Node::Cast(_, a) => look(alloc, program, f, spot, a.get(), origins, notes),
        Node::Call(name, all) => {
            let callee = program.number(name);
            call_origins(program, f, name, callee, origins)?;
            look_call(
                alloc,
                program,
                f,
                spot,
                e.line,
                callee,
                all.as_slice(),
                notes,
            )
        }
        Node::Index(a, i) => {
            look(alloc, program, f, spot, a.get(), origins, notes)?;
            look(alloc, program, f, spot, i.get(), origins, notes)
        }
        Node::Member(a, _) => look(alloc, program, f, spot, a.get(), origins, notes),
        Node::Arrow(a, _) => look(alloc, program, f, spot, a.get(), origins, notes),
        Node::Paren(a) => look(alloc, program, f, spot, a.get(), origins, notes),
    }
}

/// What is noted of the arguments of a call.
#[cycle(gist)]
fn look_call(
    alloc: Global,
    program: &Program<'_>,
    f: usize,
    spot: &Spot<'_>,
    line: u32,
    callee: Option<usize>,
    all: &[Expr],
    notes: &mut Vec<Note>,
) -> Result<(), NoMemory>
    ensures { OnOk result (notes.new.items ≡ notes.old.items
        ++ ways.call_notes program.now f line callee (map (ways.gist program.now f spot.now.known) all.now)) }
{
    match callee {
        Some(callee) => look_arguments(alloc, program, f, spot, callee, line, all, notes),
        None => look_printed(alloc, program, f, spot, line, all, notes),
    }
}

#[cycle(gist)]
fn look_arguments(
    alloc: Global,
    program: &Program<'_>,
    f: usize,
    spot: &Spot<'_>,
    callee: usize,
    line: u32,
    all: &[Expr],
    notes: &mut Vec<Note>,
) -> Result<(), NoMemory>
    ensures { OnOk result (notes.new.items ≡ notes.old.items
        ++ ways.arguments program.now f callee line 0 (map (ways.gist program.now f spot.now.known) all.now)) }
{
    for (k, e) in all.iter().enumerate() {
        look_argument(alloc, program, f, spot, callee, line, k, e, notes)?;
    }
    Ok(())
}

#[cycle(gist)]
fn look_argument(
    alloc: Global,
    program: &Program<'_>,
    f: usize,
    spot: &Spot<'_>,
    callee: usize,
    line: u32,
    k: usize,
    e: &Expr,
    notes: &mut Vec<Note>,
) -> Result<(), NoMemory>
    ensures { OnOk result (notes.new.items ≡ notes.old.items
        ++ ways.argument program.now f callee line k (ways.gist program.now f spot.now.known e.now)) }
{
    let mut origins = Vec::new(alloc);
    look(alloc, program, f, spot, e, &mut origins, notes)?;
    note_in_body(alloc, program, f, e.line, origins.as_slice(), notes)?;
    let root = root_of(program, f, spot, e);
    move_argument(
        alloc,
        program,
        f,
        callee,
        line,
        k,
        origins.as_slice(),
        root,
        notes,
    )
}

#[cycle(gist)]
fn look_printed(
    alloc: Global,
    program: &Program<'_>,
    f: usize,
    spot: &Spot<'_>,
    line: u32,
    all: &[Expr],
    notes: &mut Vec<Note>,
) -> Result<(), NoMemory>
    ensures { OnOk result (notes.new.items ≡ notes.old.items
        ++ flat_map (ways.printed program.now f line) (map (ways.gist program.now f spot.now.known) all.now)) }
{
    for e in all {
        look_print(alloc, program, f, spot, line, e, notes)?;
    }
    Ok(())
}

#[cycle(gist)]
fn look_print(
    alloc: Global,
    program: &Program<'_>,
    f: usize,
    spot: &Spot<'_>,
    line: u32,
    e: &Expr,
    notes: &mut Vec<Note>,
) -> Result<(), NoMemory>
    ensures { OnOk result (notes.new.items ≡ notes.old.items
        ++ ways.printed program.now f line (ways.gist program.now f spot.now.known e.now)) }
{
    let mut origins = Vec::new(alloc);
    look(alloc, program, f, spot, e, &mut origins, notes)?;
    note_in_body(alloc, program, f, e.line, origins.as_slice(), notes)?;
    put_bound(
        alloc,
        34,
        origins.as_slice(),
        Admitted::OfLevel(program.level(f)),
        line,
        notes,
    )
}

/// The variable at the root of an expression, if it names a place.
#[tactic(auto, unfolding(crate::specs::Ways::gist))]
pub fn root_of(program: &Program<'_>, f: usize, spot: &Spot<'_>, e: &Expr) -> Option<Variable>
    ensures { result ≡ (ways.gist program.now f spot.now.known e.now).root }
{
    match &e.node {
        Node::Variable(name) => spot.find(name),
        Node::Index(a, _) => root_of(program, f, spot, a.get()),
        Node::Member(a, _) => root_of(program, f, spot, a.get()),
        Node::Arrow(a, _) => root_of(program, f, spot, a.get()),
        Node::Paren(a) => root_of(program, f, spot, a.get()),
        Node::Number { value: _, kind: _ }
        | Node::Real
        | Node::Letter(_)
        | Node::Text(_)
        | Node::Unary(_, _)
        | Node::Binary(_, _, _)
        | Node::Choice(_, _, _)
        | Node::Cast(_, _)
        | Node::Call(_, _) => None,
    }
}
