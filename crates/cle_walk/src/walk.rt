//! What is noted of the functions of a program.

ghost use Rattle.std.specs.Prelude.{◌≡◌, ◌++◌, length, IfOk, OnOk};
ghost use Rattle.std.specs.Option.{option_copied};
ghost use Rattle.cl_levels.specs.Uses.{with_params, with_objects};
ghost use Rattle.cle_ways.specs.Ways as w;
ghost use Rattle.cle_walk.specs.Walked.{item_body, names_after};

use crate::stmts::look_stmts;
use cl_base::name::NoMemory;
use cl_mean::labels::{Mention, Mentions, Taints};
use cl_tree::tree::{Declarator, Item, Stmt};
use cle_ways::exprs::put_into;
use cle_ways::facts::Program;
use cle_ways::spot::Spot;
use cle_ways::ways::{Body, Holder, Note, Origin};
use sqlite_items::Items;
use std::alloc::Global;

/// The labels that stand somewhere.
fn just(alloc: Global, mentions: &[Mention]) -> Result<Vec<Origin>, NoMemory>
    ensures { IfOk result (λ origins. origins.items ≡ w.just mentions.now) }
{
    let mut origins = Vec::new(alloc);
    for mention in mentions {
        origins.push(Origin::Just(*mention))?;
    }
    Ok(origins)
}

pub fn put_just(
    alloc: Global,
    x: Holder,
    mentions: &[Mention],
    notes: &mut Vec<Note>,
) -> Result<(), NoMemory>
    ensures { OnOk result (notes.new.items ≡ notes.old.items ++ w.into x (w.just mentions.now)) }
{
    let origins = just(alloc, mentions)?;
    put_into(x, origins.as_slice(), notes)
}

#[tactic(auto, unfolding(cle_ways::specs::Ways::params_carry))]
pub fn put_params(
    alloc: Global,
    f: usize,
    args: &[Mentions],
    notes: &mut Vec<Note>,
) -> Result<(), NoMemory>
    ensures { OnOk result (notes.new.items ≡ notes.old.items ++ w.params_carry f 0 args.now) }
{
    for (k, mentions) in args.iter().enumerate() {
        put_just(alloc, Holder::Local(f, k), mentions.all.as_slice(), notes)?;
    }
    Ok(())
}

/// The taints of a function that is annotated.
fn put_taints(
    alloc: Global,
    f: usize,
    taints: Option<&Taints>,
    notes: &mut Vec<Note>,
) -> Result<(), NoMemory>
    ensures { OnOk result (notes.new.items ≡ notes.old.items ++ w.taints_carried f (option_copied taints.entry)) }
{
    match taints {
        Some(t) => {
            put_params(alloc, f, t.args.as_slice(), notes)?;
            put_just(alloc, Holder::Result(f), t.result.as_slice(), notes)
        }
        None => Ok(()),
    }
}

#[tactic(auto, unfolding(cl_levels::specs::Uses::with_params))]
fn bind_params<'a>(spot: &mut Spot<'a>, ds: &'a [Declarator]) -> Result<(), NoMemory>
    ensures { OnOk result (spot.new ≡ with_params ds.now spot.old) }
{
    for d in ds {
        spot.bind_local(&d.name)?;
    }
    Ok(())
}

#[tactic(auto, unfolding(cl_levels::specs::Uses::with_objects))]
fn bind_objects<'a>(spot: &mut Spot<'a>, ds: &'a [Declarator]) -> Result<(), NoMemory>
    ensures { OnOk result (spot.new ≡ with_objects ds.now spot.old) }
{
    for d in ds {
        spot.bind_static(&d.name)?;
    }
    Ok(())
}

/// The statements of a body. Its parameters and its outermost block are one scope.
#[tactic(auto, unfolding(cle_ways::specs::Ways::body_walk), using(crate::proofs::Behind::left_body))]
fn look_statements<'a>(
    alloc: Global,
    program: &Program<'_>,
    f: usize,
    spot: &mut Spot<'a>,
    params: &'a [Declarator],
    all: &'a [Stmt],
    notes: &mut Vec<Note>,
) -> Result<(), NoMemory>
    ensures notes { OnOk result (notes.new.items ≡ notes.old.items ++ (w.body_walk program.now f params.now all.now spot.old).0) }
    ensures names { OnOk result (spot.new ≡ (w.body_walk program.now f params.now all.now spot.old).1) }
{
    let len = spot.len();
    spot.enter();
    bind_params(spot, params)?;
    look_stmts(alloc, program, f, spot, all, notes)?;
    spot.leave(len);
    Ok(())
}

/// The body of a function.
fn look_body<'a>(
    alloc: Global,
    program: &Program<'_>,
    f: usize,
    spot: &mut Spot<'a>,
    params: &'a [Declarator],
    all: &'a [Stmt],
) -> Result<Body, NoMemory>
    ensures body { IfOk result (λ body. body ≡ w.body_of program.now f params.now all.now spot.old) }
    ensures names { OnOk result (spot.new ≡ (w.body_walk program.now f params.now all.now spot.old).1) }
{
    let mut notes = Vec::new(alloc);
    put_taints(alloc, f, program.taints(f), &mut notes)?;
    look_statements(alloc, program, f, spot, params, all, &mut notes)?;
    Ok(Body {
        notes: Items::from_vec(notes),
        locals: spot.locals(),
    })
}

#[tactic(auto, unfolding(crate::specs::Walked::item_body, crate::specs::Walked::names_after))]
fn look_item<'a>(
    alloc: Global,
    program: &Program<'_>,
    spot: &mut Spot<'a>,
    item: &'a Item,
    bodies: &mut Vec<Body>,
) -> Result<(), NoMemory>
    ensures bodies { OnOk result (bodies.new.items ≡ bodies.old.items ++ item_body program.now (length bodies.old.items) spot.old item.now) }
    ensures names { OnOk result (spot.new ≡ names_after program.now (length bodies.old.items) spot.old item.now) }
{
    match item {
        Item::Variables(d) => bind_objects(spot, d.names.as_slice()),
        Item::Function {
            is_static: _,
            result: _,
            name: _,
            void_word: _,
            params,
            body: Some(ss),
            line: _,
            second: _,
        } => {
            let f = bodies.len();
            let body = look_body(alloc, program, f, spot, params.as_slice(), ss.as_slice())?;
            bodies.push(body)?;
            Ok(())
        }
        _ => Ok(()),
    }
}

#[tactic(auto, unfolding(cle_ways::specs::Ways::bodies_from))]
pub fn look_items<'a>(
    alloc: Global,
    program: &Program<'_>,
    spot: &mut Spot<'a>,
    items: &'a [Item],
    bodies: &mut Vec<Body>,
) -> Result<(), NoMemory>
    ensures { OnOk result (bodies.new.items ≡ bodies.old.items ++ w.bodies_from program.now (length bodies.old.items) spot.old items.now) }
{
    for item in items {
        look_item(alloc, program, spot, item, bodies)?;
    }
    Ok(())
}
