//! A checked source of two levels, built by hand.

use cl_base::name::{Name, NoMemory};
use cl_mean::checked::{Checked, Flow, FnFact, GedlRow, GedlRows, Levels, Typed};
use cl_mean::labels::{LabelTable, Operation};
use cl_tree::kinds::IntKind;
use cl_tree::tree::{CType, Declaration, Declarator, Item, Program};
use sqlite_items::{Boxed, Items};
use std::alloc::Global;

/// The kinds of the parameters `a` to `j` of `kinds`.
const KINDS: [(&str, IntKind); 10] = [
    ("a", IntKind::I8),
    ("b", IntKind::U8),
    ("c", IntKind::I16),
    ("d", IntKind::U16),
    ("e", IntKind::I32),
    ("f", IntKind::U32),
    ("g", IntKind::Long),
    ("h", IntKind::ULong),
    ("i", IntKind::LLong),
    ("j", IntKind::ULLong),
];

pub(crate) fn integer(kind: IntKind) -> CType {
    CType::Integer(kind)
}

pub(crate) fn named(alloc: Global, name: &str) -> Result<CType, NoMemory> {
    Ok(CType::Struct(Name::of(alloc, name)?))
}

pub(crate) fn array(alloc: Global, element: CType, size: u64) -> Result<CType, NoMemory> {
    Ok(CType::Array(Boxed::new(alloc, element)?, size))
}

fn declarator(alloc: Global, name: &str, ctype: CType) -> Result<Declarator, NoMemory> {
    Ok(Declarator {
        name: Name::of(alloc, name)?,
        ctype,
        init: None,
        line: 1,
        second: 1,
    })
}

pub(crate) fn add(
    alloc: Global,
    all: &mut Items<Declarator>,
    name: &str,
    ctype: CType,
) -> Result<(), NoMemory> {
    all.push(declarator(alloc, name, ctype)?)?;
    Ok(())
}

/// A struct of these members.
pub(crate) fn structure(
    alloc: Global,
    name: &str,
    names: Items<Declarator>,
) -> Result<Item, NoMemory> {
    let mut members = Items::new(alloc);
    members.push(Declaration {
        is_static: false,
        names,
    })?;
    Ok(Item::Struct {
        name: Name::of(alloc, name)?,
        members,
        line: 1,
    })
}

/// A function of these parameters that does nothing.
pub(crate) fn function(
    alloc: Global,
    name: &str,
    given: CType,
    params: Items<Declarator>,
) -> Result<Item, NoMemory> {
    Ok(Item::Function {
        is_static: false,
        result: given,
        name: Name::of(alloc, name)?,
        void_word: false,
        params,
        body: Some(Items::new(alloc)),
        line: 1,
        second: 1,
    })
}

/// `struct point { char x; int y; };`
pub(crate) fn point(alloc: Global) -> Result<Item, NoMemory> {
    let mut members = Items::new(alloc);
    add(alloc, &mut members, "x", integer(IntKind::I8))?;
    add(alloc, &mut members, "y", integer(IntKind::I32))?;
    structure(alloc, "point", members)
}

/// `struct shape { struct point ends[2]; short h; };`
pub(crate) fn shape(alloc: Global) -> Result<Item, NoMemory> {
    let mut members = Items::new(alloc);
    let ends = array(alloc, named(alloc, "point")?, 2)?;
    add(alloc, &mut members, "ends", ends)?;
    add(alloc, &mut members, "h", integer(IntKind::I16))?;
    structure(alloc, "shape", members)
}

/// `struct shape draw(struct shape s, int v[3]) { }`
pub(crate) fn draw(alloc: Global) -> Result<Item, NoMemory> {
    let mut params = Items::new(alloc);
    add(alloc, &mut params, "s", named(alloc, "shape")?)?;
    let v = array(alloc, integer(IntKind::I32), 3)?;
    add(alloc, &mut params, "v", v)?;
    function(alloc, "draw", named(alloc, "shape")?, params)
}

/// `void kinds(char a, unsigned char b, ..) { }`
fn kinds(alloc: Global) -> Result<Item, NoMemory> {
    let mut params = Items::new(alloc);
    for (name, kind) in KINDS {
        add(alloc, &mut params, name, integer(kind))?;
    }
    function(alloc, "kinds", CType::Void, params)
}

fn fact(alloc: Global, name: &str, item: u32) -> Result<FnFact, NoMemory> {
    let name = Name::of(alloc, name)?;
    Ok(FnFact {
        name,
        item,
        line: 1,
    })
}

/// The functions of a source, each by its name and its item.
fn facts(alloc: Global, named: &[(&str, u32)]) -> Result<Items<FnFact>, NoMemory> {
    let mut functions = Items::new(alloc);
    for (name, item) in named {
        functions.push(fact(alloc, name, *item)?)?;
    }
    Ok(functions)
}

/// The rows: `purple` calls this function of `orange`.
fn row(alloc: Global, function: u32, name: &str) -> Result<GedlRow, NoMemory> {
    Ok(GedlRow {
        from: 0,
        to: 1,
        function,
        name: Name::of(alloc, name)?,
        label: Name::of(alloc, "L")?,
        operation: Operation::Allow,
        args: Items::new(alloc),
        result: CType::Void,
        request: 0,
        reply: 0,
        oneway: false,
    })
}

fn gedl(alloc: Global, named: &[(&str, u32)]) -> Result<GedlRows, NoMemory> {
    let mut rows = Items::new(alloc);
    let mut function = 0;
    for (name, _) in named {
        rows.push(row(alloc, function, name)?)?;
        function = function.saturating_add(1);
    }
    Ok(GedlRows {
        levels: Items::new(alloc),
        main: 0,
        rows,
    })
}

fn labels(alloc: Global, named: &[(&str, u32)]) -> Result<LabelTable, NoMemory> {
    let mut levels = Items::new(alloc);
    levels.push(Name::of(alloc, "purple")?)?;
    levels.push(Name::of(alloc, "orange")?)?;
    let mut on_functions = Items::new(alloc);
    for _ in named {
        on_functions.push(None)?;
    }
    Ok(LabelTable {
        levels,
        labels: Items::new(alloc),
        on_functions,
        on_objects: Items::new(alloc),
    })
}

fn levels(alloc: Global, named: &[(&str, u32)]) -> Result<Levels, NoMemory> {
    let mut of_functions = Items::new(alloc);
    for _ in named {
        of_functions.push(1)?;
    }
    Ok(Levels {
        of_functions,
        of_objects: Items::new(alloc),
        main: 0,
    })
}

/// A source of these items, and of the functions of these names that they define: `purple` calls each of them at `orange`.
pub(crate) fn checked_of(
    alloc: Global,
    items: Items<Item>,
    named: &[(&str, u32)],
) -> Result<Checked, NoMemory> {
    let functions = facts(alloc, named)?;
    Ok(Checked {
        typed: Typed {
            program: Program { items },
            functions,
            objects: Items::new(alloc),
        },
        labels: labels(alloc, named)?,
        levels: levels(alloc, named)?,
        flow: Flow {
            objects: Items::new(alloc),
            locals: Items::new(alloc),
            results: Items::new(alloc),
        },
        gedl: gedl(alloc, named)?,
    })
}

/// Two levels, `purple` and `orange`, and two functions that the first calls at the second.
pub fn checked(alloc: Global) -> Result<Checked, NoMemory> {
    let mut items = Items::new(alloc);
    items.push(point(alloc)?)?;
    items.push(shape(alloc)?)?;
    items.push(draw(alloc)?)?;
    items.push(kinds(alloc)?)?;
    checked_of(alloc, items, &[("draw", 2), ("kinds", 3)])
}
