//! The code of expressions.

ghost use Rattle.std.specs.Prelude.{◌≡◌, ◌+◌, ◌-◌, ℕ, List, map, option_map, Some, None, true, false, pos, [], ◌∷◌, if◌then◌else◌, IfOk, OnOk};
ghost use Rattle.cl_tree.specs.Arithmetic.{is_arithmetic, value};
ghost use Rattle.cl_mean.specs.Evaluation.{given_kind, right_kind, working_kind};
ghost use Rattle.cl_mean.specs.Shape.{count_of, shape_of};
ghost use Rattle.cl_tree.specs.declared.tree.Node.TheVariants as made;
ghost use Rattle.code_forms.specs.Layout as layout;
ghost use Rattle.code_forms.specs.Pieces.{Piece, then_do, then_piece};
ghost use Rattle.code_forms.specs.Lowering as l;
ghost use Rattle.code_tables.specs.Facts.{called, callee_by, facts_by};
ghost use Rattle.code_tables.specs.Table.{bounds, meant_in};
ghost use Rattle.code_tables.specs.Types.{elements_in, section_in, shape_in};
ghost use Rattle.code_exprs.specs.Placed.{IsPlaced, IsTyped, low};
ghost use Rattle.code_exprs.specs.Written.{pushed, reached, wrote};

use crate::across::{height, put_across};
use crate::kinds::{given_kind, is_arithmetic, logic_of, right_kind, working_kind};
use crate::types::{cast_kind, of_cast, of_unary, of_variable, place_of, senseless, type_of};
use crate::writer::{Writer, address};
use cl_base::name::{Name, NoMemory};
use cl_tree::arithmetic::{convert, letter_value};
use cl_tree::kinds::{BinOp, IntKind, UnOp};
use cl_tree::tree::{CType, Expr, Node};
use code_forms::route::Route;
use code_tables::facts::{Callee, Facts};
use code_tables::names::{Meant, Names};
use code_tables::types::{Elements, Section, ValueType, plus};
use en_image::instr::Instr;
use std::alloc::Global;

/// The value of a variable.
#[tactic(auto, using(crate::proofs::Wrote::wrote_do))]
fn emit_variable<'a>(
    alloc: Global,
    meant: Option<Meant<'a>>,
    top: u32,
    writer: &mut Writer,
) -> Result<(), NoMemory>
    ensures { OnOk result (writer.new ≡ wrote (l.variable_of (option_map meant_in meant.entry)).value top writer.old) }
{
    match meant {
        Some(m) => {
            writer.put_single(top, address(m.storage))?;
            writer.put_fetch(alloc, top, m.ctype)
        }
        None => writer.put_nothing(top),
    }
}

/// The code of the value of an expression, and its type.
#[cycle(emit)]
#[tactic(auto, unfolding(code_forms::specs::Lowering::lowered))]
pub fn emit_value<'a>(
    alloc: Global,
    facts: &Facts<'a>,
    names: &Names<'a>,
    e: &Expr,
    top: u32,
    writer: &mut Writer,
) -> Result<ValueType<'a>, NoMemory>
    ensures code { OnOk result (writer.new ≡ wrote (low facts.now names.now e.now).value top writer.old) }
    ensures ctype { IfOk result (λ t. shape_in t ≡ (low facts.now names.now e.now).shape) }
{
    match &e.node {
        Node::Number { value, kind } => {
            writer.put_single(top, Instr::Push(convert(*kind, i128::from(*value))))?;
            Ok(ValueType::Integer(*kind))
        }
        Node::Letter(byte) => {
            writer.put_single(top, Instr::Push(letter_value(*byte)))?;
            Ok(ValueType::Integer(IntKind::I32))
        }
        Node::Real | Node::Text(_) | Node::Arrow(_, _) => {
            writer.put_nothing(top)?;
            Ok(senseless())
        }
        Node::Variable(name) => {
            let meant = names.find(name);
            emit_variable(alloc, meant, top, writer)?;
            Ok(of_variable(meant))
        }
        Node::Unary(op, a) => emit_unary(alloc, facts, names, *op, e.line, a.get(), top, writer),
        Node::Cast(ctype, a) => {
            let kind = cast_kind(facts, ctype);
            emit_cast(alloc, facts, names, kind, a.get(), top, writer)?;
            Ok(of_cast(kind))
        }
        Node::Binary(op, a, b) => emit_binary(
            alloc,
            facts,
            names,
            &e.node,
            *op,
            e.second,
            a.get(),
            b.get(),
            top,
            writer,
        ),
        Node::Choice(test, a, b) => emit_choice(
            alloc,
            facts,
            names,
            &e.node,
            test.get(),
            a.get(),
            b.get(),
            top,
            writer,
        ),
        Node::Paren(a) => emit_value(alloc, facts, names, a.get(), top, writer),
        Node::Call(name, all) => emit_call(
            alloc,
            facts,
            names,
            name,
            e.line,
            all.as_slice(),
            top,
            writer,
        ),
        Node::Index(a, b) => emit_index(
            alloc,
            facts,
            names,
            &e.node,
            a.get(),
            b.get(),
            e.second,
            top,
            writer,
        ),
        Node::Member(a, name) => emit_member(alloc, facts, names, a.get(), name, top, writer),
    }
}

/// A value, converted to a kind.
#[cycle(emit)]
#[tactic(auto, using(crate::proofs::Wrote::wrote_do))]
pub fn emit_operand<'a>(
    alloc: Global,
    facts: &Facts<'a>,
    names: &Names<'a>,
    kind: IntKind,
    e: &Expr,
    top: u32,
    writer: &mut Writer,
) -> Result<(), NoMemory>
    ensures { OnOk result (writer.new ≡ wrote (l.operand kind (low facts.now names.now e.now)) top writer.old) }
{
    let t = emit_value(alloc, facts, names, e, top, writer)?;
    writer.put_convert(top, t.kind(), kind)
}

/// An operator of one operand.
#[cycle(emit)]
#[tactic(auto, using(crate::proofs::Wrote::wrote_do))]
fn emit_unary<'a>(
    alloc: Global,
    facts: &Facts<'a>,
    names: &Names<'a>,
    op: UnOp,
    line: u32,
    a: &Expr,
    top: u32,
    writer: &mut Writer,
) -> Result<ValueType<'a>, NoMemory>
    ensures code { OnOk result (writer.new ≡ wrote (l.unary op line (low facts.now names.now a.now)).value top writer.old) }
    ensures ctype { IfOk result (λ t. shape_in t ≡ (l.unary op line (low facts.now names.now a.now)).shape) }
{
    if !is_arithmetic(op) {
        writer.put_nothing(top)?;
        return Ok(senseless());
    }
    let t = emit_value(alloc, facts, names, a, top, writer)?;
    let kind = t.kind().promoted();
    writer.put_convert(top, t.kind(), kind)?;
    writer.put(Instr::One { op, kind, line })?;
    writer.reach(top, 1)?;
    Ok(of_unary(op, t.kind()))
}

/// A cast to an integer kind.
#[cycle(emit)]
fn emit_cast<'a>(
    alloc: Global,
    facts: &Facts<'a>,
    names: &Names<'a>,
    kind: Option<IntKind>,
    a: &Expr,
    top: u32,
    writer: &mut Writer,
) -> Result<(), NoMemory>
    ensures { OnOk result (writer.new ≡ wrote (l.cast_to kind (low facts.now names.now a.now)).value top writer.old) }
{
    match kind {
        Some(kind) => emit_operand(alloc, facts, names, kind, a, top, writer),
        None => writer.put_nothing(top),
    }
}

/// An operator that evaluates both operands.
#[cycle(emit)]
#[tactic(auto, using(crate::proofs::Wrote::wrote_do, crate::proofs::Wrote::wrote_piece))]
fn emit_worked<'a>(
    alloc: Global,
    facts: &Facts<'a>,
    names: &Names<'a>,
    whole: &Node,
    op: BinOp,
    line: u32,
    a: &Expr,
    b: &Expr,
    top: u32,
    writer: &mut Writer,
) -> Result<IntKind, NoMemory>
    requires { whole.now ≡ made.Binary op a.now b.now }
    ensures code { OnOk result (writer.new ≡ wrote (l.worked op line (low facts.now names.now a.now) (low facts.now names.now b.now)) top writer.old) }
    ensures kind { IfOk result (λ k. k ≡ given_kind op (working_kind op (l.kind_of (low facts.now names.now a.now)) (l.kind_of (low facts.now names.now b.now)))) }
{
    let left = emit_value(alloc, facts, names, a, top, writer)?.kind();
    let right = type_of(alloc, facts, names, b)?.kind();
    let kind = working_kind(op, left, right);
    writer.put_convert(top, left, kind)?;
    emit_operand(
        alloc,
        facts,
        names,
        right_kind(op, left, right),
        b,
        plus(top, 1)?,
        writer,
    )?;
    writer.put(Instr::Two { op, kind, line })?;
    writer.reach(top, 1)?;
    Ok(given_kind(op, kind))
}

/// `&&`.
#[cycle(emit)]
fn emit_both<'a>(
    alloc: Global,
    facts: &Facts<'a>,
    names: &Names<'a>,
    whole: &Node,
    op: BinOp,
    a: &Expr,
    b: &Expr,
    top: u32,
    writer: &mut Writer,
) -> Result<(), NoMemory>
    requires { whole.now ≡ made.Binary op a.now b.now }
    ensures { OnOk result (writer.new ≡ wrote (l.both (low facts.now names.now a.now).value (low facts.now names.now b.now).value) top writer.old) }
{
    emit_value(alloc, facts, names, a, top, writer)?;
    let hole = writer.place()?;
    writer.put(Instr::Zero(0))?;
    emit_value(alloc, facts, names, b, top, writer)?;
    let past = plus(writer.place()?, 3)?;
    writer.set(hole, Instr::Zero(past));
    writer.put_truth(top, past)
}

/// `||`.
#[cycle(emit)]
fn emit_either<'a>(
    alloc: Global,
    facts: &Facts<'a>,
    names: &Names<'a>,
    whole: &Node,
    op: BinOp,
    a: &Expr,
    b: &Expr,
    top: u32,
    writer: &mut Writer,
) -> Result<(), NoMemory>
    requires { whole.now ≡ made.Binary op a.now b.now }
    ensures { OnOk result (writer.new ≡ wrote (l.either (low facts.now names.now a.now).value (low facts.now names.now b.now).value) top writer.old) }
{
    emit_value(alloc, facts, names, a, top, writer)?;
    let second = plus(writer.place()?, 2)?;
    writer.put(Instr::Zero(second))?;
    let hole = writer.place()?;
    writer.put(Instr::Jump(0))?;
    emit_value(alloc, facts, names, b, top, writer)?;
    let holds = plus(writer.place()?, 1)?;
    writer.set(hole, Instr::Jump(holds));
    writer.put_truth(top, plus(holds, 2)?)
}

#[cycle(emit)]
fn emit_logical<'a>(
    alloc: Global,
    facts: &Facts<'a>,
    names: &Names<'a>,
    whole: &Node,
    op: BinOp,
    decides: bool,
    a: &Expr,
    b: &Expr,
    top: u32,
    writer: &mut Writer,
) -> Result<(), NoMemory>
    requires { whole.now ≡ made.Binary op a.now b.now }
    ensures { OnOk result (writer.new ≡ wrote (l.logical decides (low facts.now names.now a.now).value (low facts.now names.now b.now).value) top writer.old) }
{
    if decides {
        emit_either(alloc, facts, names, whole, op, a, b, top, writer)
    } else {
        emit_both(alloc, facts, names, whole, op, a, b, top, writer)
    }
}

/// An operator of two operands.
#[cycle(emit)]
fn emit_binary<'a>(
    alloc: Global,
    facts: &Facts<'a>,
    names: &Names<'a>,
    whole: &Node,
    op: BinOp,
    line: u32,
    a: &Expr,
    b: &Expr,
    top: u32,
    writer: &mut Writer,
) -> Result<ValueType<'a>, NoMemory>
    requires { whole.now ≡ made.Binary op a.now b.now }
    ensures code { OnOk result (writer.new ≡ wrote (l.binary op line (low facts.now names.now a.now) (low facts.now names.now b.now)).value top writer.old) }
    ensures ctype { IfOk result (λ t. shape_in t ≡ (l.binary op line (low facts.now names.now a.now) (low facts.now names.now b.now)).shape) }
{
    match logic_of(op) {
        Some(decides) => {
            emit_logical(alloc, facts, names, whole, op, decides, a, b, top, writer)?;
            Ok(ValueType::Integer(IntKind::I32))
        }
        None => {
            let kind = emit_worked(alloc, facts, names, whole, op, line, a, b, top, writer)?;
            Ok(ValueType::Integer(kind))
        }
    }
}

/// `?:`.
#[cycle(emit)]
fn emit_choice<'a>(
    alloc: Global,
    facts: &Facts<'a>,
    names: &Names<'a>,
    whole: &Node,
    test: &Expr,
    a: &Expr,
    b: &Expr,
    top: u32,
    writer: &mut Writer,
) -> Result<ValueType<'a>, NoMemory>
    requires { whole.now ≡ made.Choice test.now a.now b.now }
    ensures code { OnOk result (writer.new ≡ wrote (l.choice (low facts.now names.now test.now) (low facts.now names.now a.now) (low facts.now names.now b.now)).value top writer.old) }
    ensures ctype { IfOk result (λ t. shape_in t ≡ (l.choice (low facts.now names.now test.now) (low facts.now names.now a.now) (low facts.now names.now b.now)).shape) }
{
    emit_value(alloc, facts, names, test, top, writer)?;
    let hole = writer.place()?;
    writer.put(Instr::Zero(0))?;
    let first = emit_value(alloc, facts, names, a, top, writer)?.kind();
    let kind = first.common(type_of(alloc, facts, names, b)?.kind());
    writer.put_convert(top, first, kind)?;
    let leave = writer.place()?;
    writer.set(hole, Instr::Zero(plus(leave, 1)?));
    writer.put(Instr::Jump(0))?;
    emit_operand(alloc, facts, names, kind, b, top, writer)?;
    let end = writer.place()?;
    writer.set(leave, Instr::Jump(end));
    Ok(ValueType::Integer(kind))
}

/// The place of an expression that has one.
#[cycle(emit)]
#[tactic(auto, unfolding(code_forms::specs::Lowering::lowered))]
pub fn emit_place<'a>(
    alloc: Global,
    facts: &Facts<'a>,
    names: &Names<'a>,
    e: &Expr,
    top: u32,
    writer: &mut Writer,
) -> Result<ValueType<'a>, NoMemory>
    ensures code { OnOk result (IsPlaced (low facts.now names.now e.now) top writer.old writer.new) }
    ensures ctype { IfOk result (λ t. IsTyped (low facts.now names.now e.now) (shape_in t)) }
{
    match &e.node {
        Node::Variable(name) => match names.find(name) {
            Some(m) => {
                writer.put_single(top, address(m.storage))?;
                Ok(m.ctype)
            }
            None => Ok(senseless()),
        },
        Node::Index(a, b) => emit_element(
            alloc,
            facts,
            names,
            &e.node,
            a.get(),
            b.get(),
            e.second,
            top,
            writer,
        ),
        Node::Member(a, name) => emit_section(alloc, facts, names, a.get(), name, top, writer),
        Node::Paren(a) => emit_place(alloc, facts, names, a.get(), top, writer),
        Node::Number { value: _, kind: _ }
        | Node::Letter(_)
        | Node::Real
        | Node::Text(_)
        | Node::Arrow(_, _)
        | Node::Unary(_, _)
        | Node::Binary(_, _, _)
        | Node::Choice(_, _, _)
        | Node::Cast(_, _)
        | Node::Call(_, _) => Ok(senseless()),
    }
}

/// The place of an element, where the array has one.
#[cycle(emit)]
fn emit_element<'a>(
    alloc: Global,
    facts: &Facts<'a>,
    names: &Names<'a>,
    whole: &Node,
    a: &Expr,
    b: &Expr,
    line: u32,
    top: u32,
    writer: &mut Writer,
) -> Result<ValueType<'a>, NoMemory>
    requires { whole.now ≡ made.Index a.now b.now }
    ensures code { OnOk result (IsPlaced (l.indexed (layout.elements_in (low facts.now names.now a.now).shape) line (low facts.now names.now a.now) (low facts.now names.now b.now)) top writer.old writer.new) }
    ensures ctype { IfOk result (λ t. IsTyped (l.indexed (layout.elements_in (low facts.now names.now a.now).shape) line (low facts.now names.now a.now) (low facts.now names.now b.now)) (shape_in t)) }
{
    let t = emit_place(alloc, facts, names, a, top, writer)?;
    let Some(es) = t.elements() else {
        return Ok(senseless());
    };
    emit_value(alloc, facts, names, b, plus(top, 1)?, writer)?;
    writer.put_at(alloc, top, es, line)?;
    Ok(es.ctype)
}

/// The place of a member, where the struct has one.
#[cycle(emit)]
fn emit_section<'a>(
    alloc: Global,
    facts: &Facts<'a>,
    names: &Names<'a>,
    a: &Expr,
    name: &Name,
    top: u32,
    writer: &mut Writer,
) -> Result<ValueType<'a>, NoMemory>
    ensures code { OnOk result (IsPlaced (l.selected (layout.member_in (low facts.now names.now a.now).shape name.now) (low facts.now names.now a.now)) top writer.old writer.new) }
    ensures ctype { IfOk result (λ t. IsTyped (l.selected (layout.member_in (low facts.now names.now a.now).shape name.now) (low facts.now names.now a.now)) (shape_in t)) }
{
    let t = emit_place(alloc, facts, names, a, top, writer)?;
    let Some(s) = t.member(alloc, name)? else {
        return Ok(senseless());
    };
    writer.put(Instr::Offset(s.offset))?;
    writer.reach(top, 1)?;
    Ok(s.ctype)
}

/// The element of an array that has no place.
#[cycle(emit)]
#[tactic(auto, using(crate::proofs::Wrote::wrote_do, crate::proofs::Wrote::wrote_piece, crate::proofs::Wrote::wrote_twice))]
fn emit_held_element<'a>(
    alloc: Global,
    facts: &Facts<'a>,
    names: &Names<'a>,
    whole: &Node,
    a: &Expr,
    b: &Expr,
    es: Elements<'a>,
    line: u32,
    top: u32,
    writer: &mut Writer,
) -> Result<(), NoMemory>
    requires { whole.now ≡ made.Index a.now b.now }
    ensures { OnOk result (writer.new ≡ wrote (l.element_held line (elements_in es.entry) (count_of (low facts.now names.now a.now).shape) (low facts.now names.now a.now).value (low facts.now names.now b.now).value) top writer.old) }
{
    let cells = emit_value(alloc, facts, names, a, top, writer)?.cells(alloc)?;
    writer.put_twice(top, cells)?;
    let above = plus(cells, 2)?;
    emit_value(alloc, facts, names, b, plus(top, above)?, writer)?;
    writer.put_element(alloc, top, es, line, cells)
}

/// An element.
#[cycle(emit)]
fn emit_index<'a>(
    alloc: Global,
    facts: &Facts<'a>,
    names: &Names<'a>,
    whole: &Node,
    a: &Expr,
    b: &Expr,
    line: u32,
    top: u32,
    writer: &mut Writer,
) -> Result<ValueType<'a>, NoMemory>
    requires { whole.now ≡ made.Index a.now b.now }
    ensures code { OnOk result (writer.new ≡ wrote (l.indexed (layout.elements_in (low facts.now names.now a.now).shape) line (low facts.now names.now a.now) (low facts.now names.now b.now)).value top writer.old) }
    ensures ctype { IfOk result (λ t. shape_in t ≡ (l.indexed (layout.elements_in (low facts.now names.now a.now).shape) line (low facts.now names.now a.now) (low facts.now names.now b.now)).shape) }
{
    let Some(es) = type_of(alloc, facts, names, a)?.elements() else {
        writer.put_nothing(top)?;
        return Ok(senseless());
    };
    if place_of(alloc, facts, names, a)?.is_some() {
        emit_element(alloc, facts, names, whole, a, b, line, top, writer)?;
        writer.put_fetch(alloc, top, es.ctype)?;
        return Ok(es.ctype);
    }
    emit_held_element(alloc, facts, names, whole, a, b, es, line, top, writer)?;
    Ok(es.ctype)
}

/// A member of a struct that has no place.
#[cycle(emit)]
fn emit_held_section<'a>(
    alloc: Global,
    facts: &Facts<'a>,
    names: &Names<'a>,
    a: &Expr,
    s: Section<'a>,
    top: u32,
    writer: &mut Writer,
) -> Result<(), NoMemory>
    ensures { OnOk result (writer.new ≡ wrote (l.section_held (section_in s.entry) (count_of (low facts.now names.now a.now).shape) (low facts.now names.now a.now).value) top writer.old) }
{
    let cells = emit_value(alloc, facts, names, a, top, writer)?.cells(alloc)?;
    writer.put_section(alloc, top, s, cells)
}

/// A member.
#[cycle(emit)]
fn emit_member<'a>(
    alloc: Global,
    facts: &Facts<'a>,
    names: &Names<'a>,
    a: &Expr,
    name: &Name,
    top: u32,
    writer: &mut Writer,
) -> Result<ValueType<'a>, NoMemory>
    ensures code { OnOk result (writer.new ≡ wrote (l.selected (layout.member_in (low facts.now names.now a.now).shape name.now) (low facts.now names.now a.now)).value top writer.old) }
    ensures ctype { IfOk result (λ t. shape_in t ≡ (l.selected (layout.member_in (low facts.now names.now a.now).shape name.now) (low facts.now names.now a.now)).shape) }
{
    let Some(s) = type_of(alloc, facts, names, a)?.member(alloc, name)? else {
        writer.put_nothing(top)?;
        return Ok(senseless());
    };
    if place_of(alloc, facts, names, a)?.is_some() {
        emit_section(alloc, facts, names, a, name, top, writer)?;
        writer.put_fetch(alloc, top, s.ctype)?;
        return Ok(s.ctype);
    }
    emit_held_section(alloc, facts, names, a, s, top, writer)?;
    Ok(s.ctype)
}

/// An argument.
#[cycle(emit)]
fn emit_argument<'a>(
    alloc: Global,
    facts: &Facts<'a>,
    names: &Names<'a>,
    param: ValueType<'a>,
    e: &Expr,
    top: u32,
    writer: &mut Writer,
) -> Result<(), NoMemory>
    ensures { OnOk result (writer.new ≡ wrote (l.argument (shape_in param.entry) (low facts.now names.now e.now)) top writer.old) }
{
    if param.is_array() {
        if place_of(alloc, facts, names, e)?.is_some() {
            emit_place(alloc, facts, names, e, top, writer)?;
            return Ok(());
        }
        return writer.put_nothing(top);
    }
    if let Some(kind) = param.integer() {
        return emit_operand(alloc, facts, names, kind, e, top, writer);
    }
    emit_value(alloc, facts, names, e, top, writer)?;
    Ok(())
}

/// Arguments in order.
#[cycle(emit)]
fn emit_arguments<'a>(
    alloc: Global,
    facts: &Facts<'a>,
    names: &Names<'a>,
    params: &[ValueType<'a>],
    all: &[Expr],
    top: u32,
    writer: &mut Writer,
) -> Result<(), NoMemory>
    ensures { OnOk result (writer.new ≡ wrote (l.arguments (map shape_in params.now) (map (l.lowered (facts_by facts.now) (bounds names.now)) all.now)) top writer.old) }
{
    let mut at = top;
    for (k, e) in all.iter().enumerate() {
        let Some(param) = params.get(k) else {
            return writer.put_nothing(at);
        };
        emit_argument(alloc, facts, names, *param, e, at, writer)?;
        at = plus(at, param.width(alloc)?)?;
    }
    writer.put_nothing(at)
}

/// A call of a function of the source.
#[cycle(emit)]
#[tactic(auto, using(crate::proofs::Wrote::wrote_do))]
fn emit_called<'a>(
    alloc: Global,
    facts: &Facts<'a>,
    names: &Names<'a>,
    callee: &Callee<'a>,
    line: u32,
    all: &[Expr],
    top: u32,
    writer: &mut Writer,
) -> Result<(), NoMemory>
    ensures { OnOk result (writer.new ≡ wrote (l.called_by (callee_by (called callee.now)).route line (callee_by (called callee.now)) (l.arguments (callee_by (called callee.now)).params (map (l.lowered (facts_by facts.now) (bounds names.now)) all.now))) top writer.old) }
{
    let params = callee.params.as_slice();
    match callee.route {
        Route::Within => {
            emit_arguments(alloc, facts, names, params, all, top, writer)?;
            writer.put(Instr::Call {
                function: callee.index,
                line: callee.line,
            })?;
            writer.reach(top, callee.result.cells(alloc)?)
        }
        Route::Across(row) => {
            emit_arguments(alloc, facts, names, params, all, top, writer)?;
            let cells = callee.result.cells(alloc)?;
            put_across(alloc, row, line, params, cells, top, writer)?;
            writer.reach(top, height(alloc, params, cells)?)
        }
        Route::Astray => writer.put_nothing(top),
    }
}

/// A call.
#[cycle(emit)]
fn emit_call<'a>(
    alloc: Global,
    facts: &Facts<'a>,
    names: &Names<'a>,
    name: &Name,
    line: u32,
    all: &[Expr],
    top: u32,
    writer: &mut Writer,
) -> Result<ValueType<'a>, NoMemory>
    ensures code { OnOk result (writer.new ≡ wrote (l.call_named (facts_by facts.now) line name.now (map (l.lowered (facts_by facts.now) (bounds names.now)) all.now)).value top writer.old) }
    ensures ctype { IfOk result (λ t. shape_in t ≡ (l.call_named (facts_by facts.now) line name.now (map (l.lowered (facts_by facts.now) (bounds names.now)) all.now)).shape) }
{
    let text = name.text();
    if text == "getchar" {
        if all.is_empty() {
            writer.put_single(top, Instr::Get)?;
        } else {
            writer.put_nothing(top)?;
        }
        return Ok(senseless());
    }
    match facts.callee(name) {
        Some(callee) => {
            emit_called(alloc, facts, names, callee, line, all, top, writer)?;
            Ok(callee.result)
        }
        None => {
            writer.put_nothing(top)?;
            Ok(senseless())
        }
    }
}
