//! What each function of a program uses.

ghost use Rattle.std.specs.Prelude.{◌≡◌, ◌++◌, ◌∷◌, [], map, IfOk, OnOk};
ghost use Rattle.cl_levels.specs.Levels.{object_lines};
ghost use Rattle.cl_levels.specs.Uses.{with_params, with_objects, body_walk, bodies_from, uses_of};
ghost use Rattle.cl_uses.specs.Spots.{item_uses, names_after};

use crate::functions::Functions;
use crate::lines;
use crate::spot::Spot;
use crate::stmts::look_stmts;
use crate::uses::Uses;
use cl_base::name::NoMemory;
use cl_levels::uses::Body;
use cl_mean::checked::Typed;
use cl_tree::tree::{Declarator, Item, Stmt};
use sqlite_items::Items;
use std::alloc::Global;

#[tactic(auto, unfolding(cl_levels::specs::Uses::with_params))]
fn bind_params<'a>(spot: &mut Spot<'a>, ds: &'a [Declarator]) -> Result<(), NoMemory>
    ensures { OnOk result (spot.new ≡ with_params ds.now spot.old) }
{
    for d in ds {
        spot.bind_local(&d.name)?;
    }
    Ok(())
}

#[tactic(auto, unfolding(cl_levels::specs::Uses::with_objects))]
fn bind_objects<'a>(spot: &mut Spot<'a>, ds: &'a [Declarator]) -> Result<(), NoMemory>
    ensures { OnOk result (spot.new ≡ with_objects ds.now spot.old) }
{
    for d in ds {
        spot.bind_static(&d.name)?;
    }
    Ok(())
}

/// The body of a function. Its parameters and its outermost block are one scope.
#[tactic(auto, unfolding(cl_levels::specs::Uses::body_walk), using(crate::proofs::Behind::left_body))]
fn look_body<'a>(
    alloc: Global,
    functions: &Functions<'a>,
    spot: &mut Spot<'a>,
    params: &'a [Declarator],
    all: &'a [Stmt],
) -> Result<Body, NoMemory>
    ensures uses { IfOk result (λ body. body.uses ≡ (body_walk functions.now params.now all.now spot.old).0) }
    ensures names { OnOk result (spot.new ≡ (body_walk functions.now params.now all.now spot.old).1) }
{
    let mut uses = Vec::new(alloc);
    let len = spot.len();
    spot.enter();
    bind_params(spot, params)?;
    look_stmts(alloc, functions, spot, all, &mut uses)?;
    spot.leave(len);
    Ok(Body {
        uses: Items::from_vec(uses),
    })
}

#[tactic(auto, unfolding(crate::specs::Spots::item_uses, crate::specs::Spots::names_after))]
fn look_item<'a>(
    alloc: Global,
    functions: &Functions<'a>,
    spot: &mut Spot<'a>,
    item: &'a Item,
    bodies: &mut Vec<Body>,
) -> Result<(), NoMemory>
    ensures uses { OnOk result (map (λ b. b.uses) bodies.new.items ≡ map (λ b. b.uses) bodies.old.items ++ item_uses functions.now spot.old item.now) }
    ensures names { OnOk result (spot.new ≡ names_after functions.now spot.old item.now) }
{
    match item {
        Item::Variables(d) => bind_objects(spot, d.names.as_slice()),
        Item::Function {
            is_static: _,
            result: _,
            name: _,
            void_word: _,
            params,
            body: Some(ss),
            line: _,
            second: _,
        } => {
            let body = look_body(alloc, functions, spot, params.as_slice(), ss.as_slice())?;
            bodies.push(body)?;
            Ok(())
        }
        _ => Ok(()),
    }
}

#[tactic(auto, unfolding(cl_levels::specs::Uses::bodies_from))]
fn look_items<'a>(
    alloc: Global,
    functions: &Functions<'a>,
    spot: &mut Spot<'a>,
    items: &'a [Item],
    bodies: &mut Vec<Body>,
) -> Result<(), NoMemory>
    ensures { OnOk result (map (λ b. b.uses) bodies.new.items ≡ map (λ b. b.uses) bodies.old.items ++ bodies_from functions.now spot.old items.now) }
{
    for item in items {
        look_item(alloc, functions, spot, item, bodies)?;
    }
    Ok(())
}

/// What each function of a program uses, and the line of the declaration of each object of static duration.
#[tactic(auto, unfolding(cl_levels::specs::Uses::uses_of, cl_levels::specs::Levels::object_lines))]
pub fn uses(alloc: Global, typed: &Typed) -> Result<Uses, NoMemory>
    ensures functions { IfOk result (λ u. map (λ b. b.uses) u.functions ≡ uses_of typed.now) }
    ensures lines { IfOk result (λ u. u.lines ≡ object_lines typed.now.program) }
{
    let functions = Functions::of(alloc, typed.functions.as_slice())?;
    let mut spot = Spot::new(alloc);
    let mut bodies = Vec::new(alloc);
    let items = typed.program.items.as_slice();
    look_items(alloc, &functions, &mut spot, items, &mut bodies)?;
    let mut found = Vec::new(alloc);
    lines::look_items(&mut found, items)?;
    Ok(Uses {
        functions: Items::from_vec(bodies),
        lines: Items::from_vec(found),
    })
}
