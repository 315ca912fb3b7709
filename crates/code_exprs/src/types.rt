//! The types of expressions, and of places.

ghost use Rattle.std.specs.Prelude.{◌≡◌, ℕ, List, map, option_map, if◌then◌else◌, IfOk};
ghost use Rattle.cl_tree.specs.Arithmetic.{is_arithmetic, promoted};
ghost use Rattle.cl_mean.specs.Shape.{integer, shape_of};
ghost use Rattle.cl_mean.specs.Evaluation.{kind_by};
ghost use Rattle.code_forms.specs.Layout as layout;
ghost use Rattle.code_forms.specs.Lowering as l;
ghost use Rattle.code_tables.specs.Facts.{facts_by};
ghost use Rattle.code_tables.specs.Table.{bounds, meant_in};
ghost use Rattle.code_tables.specs.Types.{elements_in, section_in, shape_in};
ghost use Rattle.code_exprs.specs.Placed.{place_shape};

use crate::kinds::{given_kind, is_arithmetic, kind_by, logic_of, working_kind};
use cl_base::name::{Name, NoMemory};
use cl_tree::kinds::{BinOp, IntKind, UnOp};
use cl_tree::tree::{CType, Expr, Node};
use code_tables::facts::Facts;
use code_tables::names::{Meant, Names};
use code_tables::types::{Elements, Section, ValueType};
use std::alloc::Global;

/// What a form has that no accepted source has.
pub fn senseless<'a>() -> ValueType<'a>
    ensures { shape_in result ≡ l.senseless.shape }
{
    ValueType::Integer(IntKind::I32)
}

pub fn of_variable<'a>(meant: Option<Meant<'a>>) -> ValueType<'a>
    ensures { shape_in result ≡ (l.variable_of (option_map meant_in meant.entry)).shape }
{
    match meant {
        Some(m) => m.ctype,
        None => senseless(),
    }
}

pub fn of_unary<'a>(op: UnOp, kind: IntKind) -> ValueType<'a>
    ensures { shape_in result ≡ (if is_arithmetic op then integer (kind_by op (promoted kind)) else l.senseless.shape) }
{
    if is_arithmetic(op) {
        ValueType::Integer(kind_by(op, kind.promoted()))
    } else {
        senseless()
    }
}

/// The kind that an operator gives.
pub fn kind_of_binary(op: BinOp, a: IntKind, b: IntKind) -> IntKind
    ensures { (x y : l.Lowered) → l.kind_of x ≡ a → l.kind_of y ≡ b → (line : ℕ) → integer result ≡ (l.binary op line x y).shape }
{
    match logic_of(op) {
        Some(_) => IntKind::I32,
        None => given_kind(op, working_kind(op, a, b)),
    }
}

/// The kind to which a cast goes.
pub fn cast_kind(facts: &Facts<'_>, ctype: &CType) -> Option<IntKind>
    ensures { result ≡ layout.integer_in (shape_of (facts_by facts.now).structs ctype.now) }
{
    let written = ValueType::Written {
        ctype,
        items: facts.items(),
    };
    written.integer()
}

pub fn of_cast<'a>(kind: Option<IntKind>) -> ValueType<'a>
    ensures { (x : l.Lowered) → shape_in result ≡ (l.cast_to kind x).shape }
{
    match kind {
        Some(kind) => ValueType::Integer(kind),
        None => senseless(),
    }
}

pub fn of_call<'a>(facts: &Facts<'a>, name: &Name) -> ValueType<'a>
    ensures { (line : ℕ) (es : List l.Lowered) → shape_in result ≡ (l.call_named (facts_by facts.now) line name.now es).shape }
{
    let text = name.text();
    if text == "getchar" {
        return senseless();
    }
    match facts.callee(name) {
        Some(callee) => callee.result,
        None => senseless(),
    }
}

pub fn of_elements<'a>(elements: Option<Elements<'a>>) -> ValueType<'a>
    ensures { (line : ℕ) (x y : l.Lowered) → shape_in result ≡ (l.indexed (option_map elements_in elements.entry) line x y).shape }
{
    match elements {
        Some(es) => es.ctype,
        None => senseless(),
    }
}

pub fn of_section<'a>(section: Option<Section<'a>>) -> ValueType<'a>
    ensures { (x : l.Lowered) → shape_in result ≡ (l.selected (option_map section_in section.entry) x).shape }
{
    match section {
        Some(s) => s.ctype,
        None => senseless(),
    }
}

/// The type of an expression.
#[cycle(types)]
#[tactic(auto, unfolding(code_forms::specs::Lowering::lowered))]
pub fn type_of<'a>(
    alloc: Global,
    facts: &Facts<'a>,
    names: &Names<'a>,
    e: &Expr,
) -> Result<ValueType<'a>, NoMemory>
    ensures { IfOk result (λ t. shape_in t ≡ (l.lowered (facts_by facts.now) (bounds names.now) e.now).shape) }
{
    match &e.node {
        Node::Number { value: _, kind } => Ok(ValueType::Integer(*kind)),
        Node::Letter(_) | Node::Real | Node::Text(_) | Node::Arrow(_, _) => Ok(senseless()),
        Node::Variable(name) => Ok(of_variable(names.find(name))),
        Node::Unary(op, a) => {
            let t = type_of(alloc, facts, names, a.get())?;
            Ok(of_unary(*op, t.kind()))
        }
        Node::Binary(op, a, b) => {
            let t = type_of(alloc, facts, names, a.get())?;
            let u = type_of(alloc, facts, names, b.get())?;
            Ok(ValueType::Integer(kind_of_binary(*op, t.kind(), u.kind())))
        }
        Node::Choice(_, a, b) => {
            let t = type_of(alloc, facts, names, a.get())?;
            let u = type_of(alloc, facts, names, b.get())?;
            Ok(ValueType::Integer(t.kind().common(u.kind())))
        }
        Node::Cast(ctype, _) => Ok(of_cast(cast_kind(facts, ctype))),
        Node::Call(name, _) => Ok(of_call(facts, name)),
        Node::Index(a, _) => {
            let t = type_of(alloc, facts, names, a.get())?;
            Ok(of_elements(t.elements()))
        }
        Node::Member(a, name) => {
            let t = type_of(alloc, facts, names, a.get())?;
            Ok(of_section(t.member(alloc, name)?))
        }
        Node::Paren(a) => type_of(alloc, facts, names, a.get()),
    }
}

/// The type of an element, where the array has a place.
fn element_of<'a>(array: Option<ValueType<'a>>) -> Option<ValueType<'a>>
    ensures { (line : ℕ) (x y : l.Lowered) → option_map shape_in array.entry ≡ place_shape x → option_map shape_in result ≡ place_shape (l.indexed (layout.elements_in x.shape) line x y) }
{
    match array?.elements() {
        Some(es) => Some(es.ctype),
        None => None,
    }
}

/// The type of a member, where the struct has a place.
fn member_of<'a>(
    alloc: Global,
    whole: Option<ValueType<'a>>,
    name: &Name,
) -> Result<Option<ValueType<'a>>, NoMemory>
    ensures { IfOk result (λ found. (x : l.Lowered) → option_map shape_in whole.entry ≡ place_shape x → option_map shape_in found ≡ place_shape (l.selected (layout.member_in x.shape name.now) x)) }
{
    match whole {
        Some(t) => match t.member(alloc, name)? {
            Some(s) => Ok(Some(s.ctype)),
            None => Ok(None),
        },
        None => Ok(None),
    }
}

/// The type of an expression, if it has a place.
#[tactic(auto, unfolding(code_forms::specs::Lowering::lowered))]
pub fn place_of<'a>(
    alloc: Global,
    facts: &Facts<'a>,
    names: &Names<'a>,
    e: &Expr,
) -> Result<Option<ValueType<'a>>, NoMemory>
    ensures { IfOk result (λ t. option_map shape_in t ≡ place_shape (l.lowered (facts_by facts.now) (bounds names.now) e.now)) }
{
    match &e.node {
        Node::Variable(name) => match names.find(name) {
            Some(m) => Ok(Some(m.ctype)),
            None => Ok(None),
        },
        Node::Index(a, _) => Ok(element_of(place_of(alloc, facts, names, a.get())?)),
        Node::Member(a, name) => member_of(alloc, place_of(alloc, facts, names, a.get())?, name),
        Node::Paren(a) => place_of(alloc, facts, names, a.get()),
        Node::Number { value: _, kind: _ }
        | Node::Letter(_)
        | Node::Real
        | Node::Text(_)
        | Node::Arrow(_, _)
        | Node::Unary(_, _)
        | Node::Binary(_, _, _)
        | Node::Choice(_, _, _)
        | Node::Cast(_, _)
        | Node::Call(_, _) => Ok(None),
    }
}
