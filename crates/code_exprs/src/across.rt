//! The code of a call of another level, behind its arguments.

ghost use Rattle.std.specs.Prelude.{◌≡◌, ◌+◌, [], ◌∷◌, List, map, max, if◌then◌else◌, IfOk, OnOk};
ghost use Rattle.cl_mean.specs.Shape.{count_of};
ghost use Rattle.code_forms.specs.Layout.{counts, lent_counts, widths};
ghost use Rattle.code_forms.specs.Lowering.{across_code, reply_code, request_code, settle_code, taken_code, values_code};
ghost use Rattle.code_tables.specs.Types.{shape_in};
ghost use Rattle.code_exprs.specs.Written.{pushed, reached};

use crate::writer::Writer;
use cl_base::name::NoMemory;
use code_tables::types::{ValueType, plus};
use en_image::instr::Instr;
use std::alloc::Global;

/// The cells of arguments.
pub fn widths(alloc: Global, params: &[ValueType<'_>]) -> Result<u32, NoMemory>
    ensures { IfOk result (λ n. n ≡ widths (map shape_in params.now)) }
{
    let mut cells = 0;
    for param in params {
        cells = plus(cells, param.width(alloc)?)?;
    }
    Ok(cells)
}

/// The integers of arguments.
pub fn counts(alloc: Global, params: &[ValueType<'_>]) -> Result<u32, NoMemory>
    ensures { IfOk result (λ n. n ≡ counts (map shape_in params.now)) }
{
    let mut cells = 0;
    for param in params {
        cells = plus(cells, param.cells(alloc)?)?;
    }
    Ok(cells)
}

/// The integers of the arrays among arguments.
pub fn lent_counts(alloc: Global, params: &[ValueType<'_>]) -> Result<u32, NoMemory>
    ensures { IfOk result (λ n. n ≡ lent_counts (map shape_in params.now)) }
{
    let mut cells = 0;
    for param in params {
        cells = plus(cells, param.lent(alloc)?)?;
    }
    Ok(cells)
}

/// The values of an argument.
fn put_values(
    alloc: Global,
    param: ValueType<'_>,
    cell: u32,
    writer: &mut Writer,
) -> Result<(), NoMemory>
    ensures { OnOk result (writer.new ≡ pushed (values_code (shape_in param.entry) cell) writer.old) }
{
    let address = if param.is_array() {
        Instr::Borrowed(cell)
    } else {
        Instr::Local(cell)
    };
    let cells = param.cells(alloc)?;
    writer.put(address)?;
    writer.put(Instr::Fetch(cells))
}

/// The values of a request.
fn put_request(
    alloc: Global,
    params: &[ValueType<'_>],
    cell: u32,
    writer: &mut Writer,
) -> Result<(), NoMemory>
    ensures { OnOk result (writer.new ≡ pushed (request_code (map shape_in params.now) cell) writer.old) }
{
    let mut at = cell;
    for param in params {
        put_values(alloc, *param, at, writer)?;
        at = plus(at, param.width(alloc)?)?;
    }
    Ok(())
}

/// An array takes its values of a reply.
fn put_taken(
    alloc: Global,
    param: ValueType<'_>,
    cell: u32,
    from: u32,
    writer: &mut Writer,
) -> Result<(), NoMemory>
    ensures { OnOk result (writer.new ≡ pushed (taken_code (shape_in param.entry) cell from) writer.old) }
{
    if param.is_array() {
        let cells = param.cells(alloc)?;
        writer.put(Instr::Borrowed(cell))?;
        writer.put(Instr::Local(from))?;
        writer.put(Instr::Fetch(cells))?;
        writer.put(Instr::Store(cells))
    } else {
        Ok(())
    }
}

/// The arrays take their values of a reply.
fn put_reply(
    alloc: Global,
    params: &[ValueType<'_>],
    cell: u32,
    from: u32,
    writer: &mut Writer,
) -> Result<(), NoMemory>
    ensures { OnOk result (writer.new ≡ pushed (reply_code (map shape_in params.now) cell from) writer.old) }
{
    let mut at = cell;
    let mut value = from;
    for param in params {
        put_taken(alloc, *param, at, value, writer)?;
        at = plus(at, param.width(alloc)?)?;
        value = plus(value, param.lent(alloc)?)?;
    }
    Ok(())
}

/// A result goes to another cell, and so many cells are dropped.
#[tactic(auto, unfolding(code_forms::specs::Lowering::settle_code))]
fn put_settle(
    to: u32,
    from: u32,
    cells: u32,
    away: u32,
    writer: &mut Writer,
) -> Result<(), NoMemory>
    ensures { OnOk result (writer.new ≡ pushed (settle_code to from cells away) writer.old) }
{
    if away == 0 {
        return Ok(());
    }
    if cells == 0 {
        return writer.put(Instr::Drop(away));
    }
    writer.put(Instr::Local(to))?;
    writer.put(Instr::Local(from))?;
    writer.put(Instr::Fetch(cells))?;
    writer.put(Instr::Store(cells))?;
    writer.put(Instr::Drop(away))
}

/// The request, the reply to it, and the result alone, behind arguments that begin at a cell of the frame.
pub fn put_across(
    alloc: Global,
    row: u32,
    line: u32,
    params: &[ValueType<'_>],
    cells: u32,
    top: u32,
    writer: &mut Writer,
) -> Result<(), NoMemory>
    ensures { OnOk result (writer.new ≡ pushed (across_code row line (map shape_in params.now) cells top) writer.old) }
{
    let width = widths(alloc, params)?;
    let lent = lent_counts(alloc, params)?;
    let from = plus(top, width)?;
    put_request(alloc, params, top, writer)?;
    writer.put(Instr::Ask { row, line })?;
    put_reply(alloc, params, top, plus(from, cells)?, writer)?;
    put_settle(top, from, cells, plus(width, lent)?, writer)
}

/// How many cells a call of another level comes to.
pub fn height(alloc: Global, params: &[ValueType<'_>], cells: u32) -> Result<u32, NoMemory>
    ensures { IfOk result (λ n. n ≡ max (widths (map shape_in params.now) + counts (map shape_in params.now))
        (widths (map shape_in params.now) + cells + lent_counts (map shape_in params.now) + 1 + max cells (lent_counts (map shape_in params.now)))) }
{
    let width = widths(alloc, params)?;
    let lent = lent_counts(alloc, params)?;
    let request = plus(width, counts(alloc, params)?)?;
    let reply = plus(plus(plus(width, cells)?, lent)?, 1)?;
    Ok(request.max(plus(reply, cells.max(lent))?))
}
