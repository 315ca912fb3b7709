//! The code of stores.

ghost use Rattle.std.specs.Prelude.{◌≡◌, ◌+◌, ◌++◌, [], ◌∷◌, OnOk};
ghost use Rattle.cl_mean.specs.Evaluation.{given_kind};
ghost use Rattle.cl_mean.specs.Shape.{count_of};
ghost use Rattle.en_image.specs.declared.instr.Instr.TheVariants.{Store, Two};
ghost use Rattle.code_forms.specs.Lowering as l;
ghost use Rattle.code_forms.specs.Printing.{drop_code};
ghost use Rattle.code_forms.specs.Statements as s;
ghost use Rattle.code_tables.specs.Types.{shape_in};
ghost use Rattle.code_exprs.specs.Placed.{low};
ghost use Rattle.code_exprs.specs.Written.{pushed, reached, wrote};

use crate::again::again_of;
use cl_base::name::NoMemory;
use cl_tree::kinds::{BinOp, IntKind};
use cl_tree::tree::Expr;
use code_exprs::exprs::{emit_operand, emit_place, emit_value};
use code_exprs::kinds::{given_kind, holds_all_of, right_kind, working_kind};
use code_exprs::types::{place_of, type_of};
use code_exprs::writer::Writer;
use code_tables::facts::Facts;
use code_tables::names::Names;
use code_tables::types::{ValueType, plus};
use en_image::instr::Instr;
use std::alloc::Global;

/// The place of an expression, and nothing where it has none.
pub fn emit_the_place<'a>(
    alloc: Global,
    facts: &Facts<'a>,
    names: &Names<'a>,
    e: &Expr,
    top: u32,
    writer: &mut Writer,
) -> Result<(), NoMemory>
    ensures { OnOk result (writer.new ≡ wrote (l.place_of (low facts.now names.now e.now)) top writer.old) }
{
    if place_of(alloc, facts, names, e)?.is_some() {
        emit_place(alloc, facts, names, e, top, writer)?;
        return Ok(());
    }
    writer.put_nothing(top)
}

/// A value in a type.
pub fn emit_in_type<'a>(
    alloc: Global,
    facts: &Facts<'a>,
    names: &Names<'a>,
    ctype: ValueType<'a>,
    e: &Expr,
    top: u32,
    writer: &mut Writer,
) -> Result<(), NoMemory>
    ensures { OnOk result (writer.new ≡ wrote (l.in_type (shape_in ctype.entry) (low facts.now names.now e.now)) top writer.old) }
{
    if let Some(kind) = ctype.integer() {
        return emit_operand(alloc, facts, names, kind, e, top, writer);
    }
    emit_value(alloc, facts, names, e, top, writer)?;
    Ok(())
}

/// The store of a value of a type at the address below it.
fn put_store(
    alloc: Global,
    ctype: ValueType<'_>,
    top: u32,
    writer: &mut Writer,
) -> Result<(), NoMemory>
    ensures { OnOk result (writer.new ≡ reached (top + 0) (pushed (Store (count_of (shape_in ctype.entry)) ∷ []) writer.old)) }
{
    let cells = ctype.cells(alloc)?;
    writer.put(Instr::Store(cells))?;
    writer.reach(top, 0)
}

/// `place = e`.
#[tactic(auto, using(code_exprs::proofs::Wrote::wrote_do, code_exprs::proofs::Wrote::wrote_piece))]
pub fn emit_assigned<'a>(
    alloc: Global,
    facts: &Facts<'a>,
    names: &Names<'a>,
    target: &Expr,
    e: &Expr,
    top: u32,
    writer: &mut Writer,
) -> Result<(), NoMemory>
    ensures { OnOk result (writer.new ≡ wrote (s.assigned (low facts.now names.now target.now) (low facts.now names.now e.now)) top writer.old) }
{
    let ctype = type_of(alloc, facts, names, target)?;
    emit_the_place(alloc, facts, names, target, top, writer)?;
    emit_in_type(alloc, facts, names, ctype, e, plus(top, 1)?, writer)?;
    put_store(alloc, ctype, top, writer)
}

/// A conversion, where a number could change.
#[tactic(auto, unfolding(code_forms::specs::Lowering::convert_code))]
fn put_conversion(from: IntKind, to: IntKind, writer: &mut Writer) -> Result<(), NoMemory>
    ensures { OnOk result (writer.new ≡ pushed (l.convert_code from to) writer.old) }
{
    if holds_all_of(to, from) {
        Ok(())
    } else {
        writer.put(Instr::Convert(to))
    }
}

/// The old value behind the place.
#[tactic(auto, using(code_exprs::proofs::Wrote::wrote_do))]
fn emit_old<'a>(
    alloc: Global,
    facts: &Facts<'a>,
    names: &Names<'a>,
    target: &Expr,
    from: IntKind,
    kind: IntKind,
    top: u32,
    writer: &mut Writer,
) -> Result<(), NoMemory>
    requires { from ≡ l.kind_of (low facts.now names.now target.now) }
    ensures { OnOk result (writer.new ≡ wrote (s.old_value (low facts.now names.now target.now) kind) top writer.old) }
{
    emit_the_place(alloc, facts, names, target, top, writer)?;
    writer.put(again_of(facts, names, target))?;
    writer.put(Instr::Fetch(1))?;
    put_conversion(from, kind, writer)?;
    writer.reach(top, 2)
}

/// The operator, and the store of its value in a kind.
fn put_update(
    op: BinOp,
    kind: IntKind,
    line: u32,
    to: IntKind,
    top: u32,
    writer: &mut Writer,
) -> Result<(), NoMemory>
    ensures { OnOk result (writer.new ≡ reached (top + 0) (pushed (Two op kind line ∷ (l.convert_code (given_kind op kind) to ++ Store 1 ∷ [])) writer.old)) }
{
    writer.put(Instr::Two { op, kind, line })?;
    put_conversion(given_kind(op, kind), to, writer)?;
    writer.put(Instr::Store(1))?;
    writer.reach(top, 0)
}

/// `place op= e`.
#[tactic(auto, using(code_exprs::proofs::Wrote::wrote_do, code_exprs::proofs::Wrote::wrote_piece))]
pub fn emit_updated<'a>(
    alloc: Global,
    facts: &Facts<'a>,
    names: &Names<'a>,
    op: BinOp,
    line: u32,
    target: &Expr,
    e: &Expr,
    top: u32,
    writer: &mut Writer,
) -> Result<(), NoMemory>
    ensures { OnOk result (writer.new ≡ wrote (s.updated op line (low facts.now names.now target.now) (low facts.now names.now e.now)) top writer.old) }
{
    let to = type_of(alloc, facts, names, target)?.kind();
    let given = type_of(alloc, facts, names, e)?.kind();
    let kind = working_kind(op, to, given);
    emit_old(alloc, facts, names, target, to, kind, top, writer)?;
    emit_operand(
        alloc,
        facts,
        names,
        right_kind(op, to, given),
        e,
        plus(top, 2)?,
        writer,
    )?;
    put_update(op, kind, line, to, top, writer)
}

/// `place++` and `place--`.
#[tactic(auto, using(code_exprs::proofs::Wrote::wrote_do, code_exprs::proofs::Wrote::wrote_piece))]
pub fn emit_bumped<'a>(
    alloc: Global,
    facts: &Facts<'a>,
    names: &Names<'a>,
    op: BinOp,
    line: u32,
    target: &Expr,
    top: u32,
    writer: &mut Writer,
) -> Result<(), NoMemory>
    ensures { OnOk result (writer.new ≡ wrote (s.updated op line (low facts.now names.now target.now) s.one) top writer.old) }
{
    let to = type_of(alloc, facts, names, target)?.kind();
    let kind = working_kind(op, to, IntKind::I32);
    emit_old(alloc, facts, names, target, to, kind, top, writer)?;
    let above = plus(top, 2)?;
    writer.put_single(above, Instr::Push(1))?;
    writer.put_convert(above, IntKind::I32, right_kind(op, to, IntKind::I32))?;
    put_update(op, kind, line, to, top, writer)
}

/// Cells are dropped.
#[tactic(auto, unfolding(code_forms::specs::Printing::drop_code))]
pub fn put_drop(cells: u32, writer: &mut Writer) -> Result<(), NoMemory>
    ensures { OnOk result (writer.new ≡ pushed (drop_code cells) writer.old) }
{
    if cells == 0 {
        Ok(())
    } else {
        writer.put(Instr::Drop(cells))
    }
}

/// A call whose result is dropped.
#[tactic(auto, using(code_exprs::proofs::Wrote::wrote_do))]
pub fn emit_dropped<'a>(
    alloc: Global,
    facts: &Facts<'a>,
    names: &Names<'a>,
    e: &Expr,
    top: u32,
    writer: &mut Writer,
) -> Result<(), NoMemory>
    ensures { OnOk result (writer.new ≡ wrote (s.call_dropped (low facts.now names.now e.now)) top writer.old) }
{
    let ctype = emit_value(alloc, facts, names, e, top, writer)?;
    put_drop(ctype.cells(alloc)?, writer)?;
    writer.reach(top, 0)
}
