//! A checked source whose payloads have thousands of integers.

use crate::source::{
    add, array, checked_of, draw, function, integer, named, point, shape, structure,
};
use cl_base::name::NoMemory;
use cl_mean::checked::Checked;
use cl_tree::kinds::IntKind;
use cl_tree::tree::{CType, Item};
use sqlite_items::Items;
use std::alloc::Global;

/// Members of `struct many`.
const MANY: u32 = 4_000;

/// Structs of `deep` behind the first.
const DEPTH: u32 = 10;

/// `void flat(char x, char v[4000]) { }`
fn flat(alloc: Global) -> Result<Item, NoMemory> {
    let mut params = Items::new(alloc);
    add(alloc, &mut params, "x", integer(IntKind::I8))?;
    let v = array(alloc, integer(IntKind::I8), 4_000)?;
    add(alloc, &mut params, "v", v)?;
    function(alloc, "flat", CType::Void, params)
}

/// `struct cell { char a; short b[2]; };`
fn cell(alloc: Global) -> Result<Item, NoMemory> {
    let mut members = Items::new(alloc);
    add(alloc, &mut members, "a", integer(IntKind::I8))?;
    let b = array(alloc, integer(IntKind::I16), 2)?;
    add(alloc, &mut members, "b", b)?;
    structure(alloc, "cell", members)
}

/// `struct line { struct cell cells[20]; char c; };`
fn line(alloc: Global) -> Result<Item, NoMemory> {
    let mut members = Items::new(alloc);
    let cells = array(alloc, named(alloc, "cell")?, 20)?;
    add(alloc, &mut members, "cells", cells)?;
    add(alloc, &mut members, "c", integer(IntKind::I8))?;
    structure(alloc, "line", members)
}

/// `void nested(char x, struct line lines[40]) { }`
fn nested(alloc: Global) -> Result<Item, NoMemory> {
    let mut params = Items::new(alloc);
    add(alloc, &mut params, "x", integer(IntKind::I8))?;
    let lines = array(alloc, named(alloc, "line")?, 40)?;
    add(alloc, &mut params, "lines", lines)?;
    function(alloc, "nested", CType::Void, params)
}

/// `struct many { char m0; char m1; .. };`
fn many(alloc: Global) -> Result<Item, NoMemory> {
    let mut members = Items::new(alloc);
    for place in 0..MANY {
        let name = format!(in alloc; "m{place}")?;
        add(alloc, &mut members, &name, integer(IntKind::I8))?;
    }
    structure(alloc, "many", members)
}

/// `void members(struct many s) { }`
fn members(alloc: Global) -> Result<Item, NoMemory> {
    let mut params = Items::new(alloc);
    add(alloc, &mut params, "s", named(alloc, "many")?)?;
    function(alloc, "members", CType::Void, params)
}

/// `struct d0 { char x; };`
fn innermost(alloc: Global) -> Result<Item, NoMemory> {
    let mut members = Items::new(alloc);
    add(alloc, &mut members, "x", integer(IntKind::I8))?;
    structure(alloc, "d0", members)
}

/// `struct dK { char a; struct dJ n[2]; char z; };`, where `J` is one less than `K`.
fn around(alloc: Global, place: u32) -> Result<Item, NoMemory> {
    let tag = format!(in alloc; "d{place}")?;
    let inner = format!(in alloc; "d{}", place.saturating_sub(1))?;
    let mut members = Items::new(alloc);
    add(alloc, &mut members, "a", integer(IntKind::I8))?;
    let elements = array(alloc, named(alloc, &inner)?, 2)?;
    add(alloc, &mut members, "n", elements)?;
    add(alloc, &mut members, "z", integer(IntKind::I8))?;
    structure(alloc, &tag, members)
}

/// `void deep(struct d10 s, char last) { }`
fn deep(alloc: Global) -> Result<Item, NoMemory> {
    let mut params = Items::new(alloc);
    add(alloc, &mut params, "s", named(alloc, "d10")?)?;
    add(alloc, &mut params, "last", integer(IntKind::I8))?;
    function(alloc, "deep", CType::Void, params)
}

/// The structs of `deep`, and the function.
fn add_deep(alloc: Global, items: &mut Items<Item>) -> Result<(), NoMemory> {
    items.push(innermost(alloc)?)?;
    for before in 0..DEPTH {
        items.push(around(alloc, before.saturating_add(1))?)?;
    }
    items.push(deep(alloc)?)?;
    Ok(())
}

/// The functions that `purple` calls at `orange`, each with its item: `draw`, and those with wide requests, of which ten share one.
const CALLED: [(&str, u32); 14] = [
    ("draw", 2),
    ("flat", 6),
    ("nested", 7),
    ("members0", 8),
    ("members1", 8),
    ("members2", 8),
    ("members3", 8),
    ("members4", 8),
    ("members5", 8),
    ("members6", 8),
    ("members7", 8),
    ("members8", 8),
    ("members9", 8),
    ("deep", 20),
];

/// The levels of `source`, with the functions of `CALLED`.
pub fn checked(alloc: Global) -> Result<Checked, NoMemory> {
    let mut items = Items::new(alloc);
    items.push(point(alloc)?)?;
    items.push(shape(alloc)?)?;
    items.push(draw(alloc)?)?;
    items.push(cell(alloc)?)?;
    items.push(line(alloc)?)?;
    items.push(many(alloc)?)?;
    items.push(flat(alloc)?)?;
    items.push(nested(alloc)?)?;
    items.push(members(alloc)?)?;
    add_deep(alloc, &mut items)?;
    checked_of(alloc, items, &CALLED)
}
