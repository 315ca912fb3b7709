//! The rows of the calls across levels.

ghost use Rattle.std.specs.Prelude.{◌≡◌, ◌<◌, ◌≤◌, ◌+◌, ◌&&◌, ◌==◌, ◌↔◌, [], All, IfOk, OnOk, IsTrue, length, true, false};
ghost use Rattle.cl_calls.specs.Calls.{level_at, levelled, no_entry_in};
ghost use Rattle.cl_levels.specs.Crossings.{AreRows, crossings_of};
ghost use Rattle.cl_mean.specs.declared.checked.GedlRows.{GedlRows as GedlRowsValue};
ghost use Rattle.cl_rows.specs.Table.{IsTable, Calls, RowsOf};
ghost use Rattle.cl_rows.specs.Wide.{too_wide_in};
ghost use Rattle.cl_typing.specs.Typing.{IsTyped};

use crate::bytes::Bytes;
use crate::fill::{Sources, row_of};
use crate::marks::{callers, mark_at};
use cl_base::limits::{FUNCTIONS, LEVELS};
use cl_base::name::{Name, NoMemory};
use cl_calls::calls::level_at;
use cl_levels::uses::Call;
use cl_mean::checked::{GedlRow, GedlRows, Levels, Typed};
use cl_mean::labels::LabelTable;
use sqlite_items::Items;
use std::alloc::Global;

/// A program, its calls across levels, a mark for each function and level from which one calls it, and how many functions
/// there are.
#[derive(Clone, Copy, Drop)]
struct Table<'a> {
    sources: Sources<'a>,
    levels: &'a Levels,
    crossings: &'a [Call],
    callers: &'a [bool],
    count: u32,
}

fn both(a: bool, b: bool) -> bool
    ensures { result ≡ (a && b) }
{
    a && b
}

fn is_at(levels: &Levels, f: u32, to: u32) -> bool
    ensures { result ≡ (level_at levels.now f == to) }
{
    level_at(levels, f as usize) == to
}

/// Whether a level calls a function of another one.
fn calls(table: &Table<'_>, from: u32, to: u32, f: u32) -> bool
    requires table { IsTable table.now }
    requires from { from < LEVELS }
    requires function { f < FUNCTIONS }
    ensures { IsTrue result ↔ Calls table.now from to f }
{
    both(
        is_at(table.levels, f, to),
        mark_at(table.callers, f as usize * 32 + from as usize),
    )
}

/// Adds the row of a function that a level calls.
fn add_row(
    alloc: Global,
    table: &Table<'_>,
    rows: &mut Items<GedlRow>,
    from: u32,
    to: u32,
    f: u32,
) -> Result<(), NoMemory>
    requires table { IsTable table.now }
    requires calls { Calls table.now from to f }
    requires rows { RowsOf table.now from to f rows.old }
    ensures { OnOk result (RowsOf table.now from to (f + 1) rows.new) }
{
    let row = row_of(alloc, &table.sources, from, to, f)?;
    rows.push(row)?;
    Ok(())
}

/// Adds the row of a function, if a level calls it.
fn add(
    alloc: Global,
    table: &Table<'_>,
    rows: &mut Items<GedlRow>,
    from: u32,
    to: u32,
    f: u32,
) -> Result<(), NoMemory>
    requires table { IsTable table.now }
    requires from { from < LEVELS }
    requires function { f < FUNCTIONS }
    requires rows { RowsOf table.now from to f rows.old }
    ensures { OnOk result (RowsOf table.now from to (f + 1) rows.new) }
{
    if calls(table, from, to, f) {
        return add_row(alloc, table, rows, from, to, f);
    }
    Ok(())
}

/// Adds the rows by which a level calls functions of another one.
fn add_pair(
    alloc: Global,
    table: &Table<'_>,
    rows: &mut Items<GedlRow>,
    from: u32,
    to: u32,
) -> Result<(), NoMemory>
    requires table { IsTable table.now }
    requires from { from < LEVELS }
    requires few { table.now.count ≤ FUNCTIONS }
    requires rows { RowsOf table.now from to 0 rows.old }
    ensures { OnOk result (RowsOf table.now from (to + 1) 0 rows.new) }
{
    for f in 0..table.count {
        add(alloc, table, rows, from, to, f)?;
    }
    Ok(())
}

/// Adds the rows by which a level calls functions of others.
fn add_level(
    alloc: Global,
    table: &Table<'_>,
    rows: &mut Items<GedlRow>,
    from: u32,
) -> Result<(), NoMemory>
    requires table { IsTable table.now }
    requires from { from < LEVELS }
    requires few { table.now.count ≤ FUNCTIONS }
    requires rows { RowsOf table.now from 0 0 rows.old }
    ensures { OnOk result (RowsOf table.now (from + 1) 0 0 rows.new) }
{
    for to in 0..LEVELS {
        add_pair(alloc, table, rows, from, to)?;
    }
    Ok(())
}

fn rows_of(alloc: Global, table: &Table<'_>) -> Result<Items<GedlRow>, NoMemory>
    requires table { IsTable table.now }
    requires few { table.now.count ≤ FUNCTIONS }
    ensures { IfOk result (λ rows. RowsOf table.now LEVELS 0 0 rows) }
{
    let mut rows = Items::new(alloc);
    for from in 0..LEVELS {
        add_level(alloc, table, &mut rows, from)?;
    }
    Ok(rows)
}

/// The same names.
fn copy_names(alloc: Global, names: &[Name]) -> Result<Items<Name>, NoMemory>
    ensures { IfOk result (λ copy. copy ≡ names.now) }
{
    let mut copy = Items::new(alloc);
    for name in names {
        copy.push(name.copy(alloc)?)?;
    }
    Ok(copy)
}

/// Rows together with the levels of their program.
fn with_levels(
    alloc: Global,
    labels: &LabelTable,
    levels: &Levels,
    rows: Items<GedlRow>,
) -> Result<GedlRows, NoMemory>
    ensures levels { IfOk result (λ all. all.levels ≡ labels.now.levels) }
    ensures main { IfOk result (λ all. all.main ≡ levels.now.main) }
    ensures rows { IfOk result (λ all. all.rows ≡ rows) }
{
    let names = copy_names(alloc, labels.levels.as_slice())?;
    Ok(GedlRows {
        levels: names,
        main: levels.main,
        rows,
    })
}

/// The rows of a program's calls across levels.
fn made(
    alloc: Global,
    typed: &Typed,
    labels: &LabelTable,
    levels: &Levels,
    crossings: &[Call],
) -> Result<GedlRows, NoMemory>
    requires typed { IsTyped typed.now.program typed.now }
    requires levels { All (λ n. n < LEVELS) levels.now.of_functions }
    requires callees { All (λ c. c.callee < length typed.now.functions) crossings.now }
    requires few { length typed.now.functions ≤ FUNCTIONS }
    requires crossings { crossings.now ≡ crossings_of (levelled typed.now labels.now levels.now) }
    requires entries { no_entry_in labels.now levels.now crossings.now ≡ [] }
    requires narrow { too_wide_in typed.now crossings.now ≡ [] }
    ensures { IfOk result (λ r. AreRows (levelled typed.now labels.now levels.now) r) }
{
    let bytes = Bytes::of_program(alloc, typed)?;
    let callers = callers(alloc, levels, crossings)?;
    let table = Table {
        sources: Sources {
            typed,
            labels,
            bytes: &bytes,
        },
        levels,
        crossings,
        callers: callers.as_slice(),
        count: typed.functions.len() as u32,
    };
    let rows = rows_of(alloc, &table)?;
    with_levels(alloc, labels, levels, rows)
}

/// The rows of a program's calls across levels, which are given, sorted by the numbers of the caller's level, the callee's level
/// and the function. Each call has an entry, and no function that is called so has a wide payload.
///
/// # Errors
///
/// Want of memory.
pub fn rows(
    alloc: Global,
    typed: &Typed,
    labels: &LabelTable,
    levels: &Levels,
    crossings: &[Call],
) -> Result<GedlRows, NoMemory>
    requires typed { IsTyped typed.now.program typed.now }
    requires levels { All (λ n. n < LEVELS) levels.now.of_functions }
    requires callees { All (λ c. c.callee < length typed.now.functions) crossings.now }
    requires few { length typed.now.functions ≤ FUNCTIONS }
    requires crossings { crossings.now ≡ crossings_of (levelled typed.now labels.now levels.now) }
    requires entries { no_entry_in labels.now levels.now crossings.now ≡ [] }
    requires narrow { too_wide_in typed.now crossings.now ≡ [] }
    // What is answered are the program's rows.
    ensures found { IfOk result (λ r. AreRows (levelled typed.now labels.now levels.now) r) }
    // What has rows is answered with them, unless memory runs out.
    ensures only { (r : GedlRowsValue) → AreRows (levelled typed.now labels.now levels.now) r → IfOk result (λ x. x ≡ r) }
{
    made(alloc, typed, labels, levels, crossings)
}
