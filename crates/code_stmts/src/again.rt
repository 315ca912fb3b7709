//! The address of a place once more.

ghost use Rattle.std.specs.Prelude.{◌≡◌, ℕ, option_map};
ghost use Rattle.cl_tree.specs.Words.{Word};
ghost use Rattle.code_forms.specs.Layout as layout;
ghost use Rattle.code_forms.specs.Lowering as l;
ghost use Rattle.code_tables.specs.Table.{meant_in};
ghost use Rattle.code_exprs.specs.Placed.{low};

use cl_tree::tree::{Expr, Node};
use code_exprs::writer::address;
use code_tables::facts::Facts;
use code_tables::names::{Meant, Names};
use en_image::instr::Instr;

fn of_variable(meant: Option<Meant<'_>>) -> Instr
    ensures { result ≡ (l.variable_of (option_map meant_in meant.entry)).again }
{
    match meant {
        Some(m) => address(m.storage),
        None => Instr::Copy,
    }
}

fn of_element() -> Instr
    ensures { (line : ℕ) (x y : l.Lowered) → result ≡ (l.indexed (layout.elements_in x.shape) line x y).again }
{
    Instr::Copy
}

fn of_member() -> Instr
    ensures { (name : Word) (x : l.Lowered) → result ≡ (l.selected (layout.member_in x.shape name) x).again }
{
    Instr::Copy
}

/// The instruction that pushes the address of a place once more, where it is on top.
#[tactic(auto, unfolding(code_forms::specs::Lowering::lowered))]
pub fn again_of(facts: &Facts<'_>, names: &Names<'_>, e: &Expr) -> Instr
    ensures { result ≡ (low facts.now names.now e.now).again }
{
    match &e.node {
        Node::Variable(name) => of_variable(names.find(name)),
        Node::Index(_, _) => of_element(),
        Node::Member(_, _) => of_member(),
        Node::Paren(a) => again_of(facts, names, a.get()),
        Node::Number { value: _, kind: _ }
        | Node::Letter(_)
        | Node::Real
        | Node::Text(_)
        | Node::Arrow(_, _)
        | Node::Unary(_, _)
        | Node::Binary(_, _, _)
        | Node::Choice(_, _, _)
        | Node::Cast(_, _)
        | Node::Call(_, _) => Instr::Copy,
    }
}
