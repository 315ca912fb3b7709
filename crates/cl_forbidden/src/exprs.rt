//! Tokens of pointers, and floating types and literals.

ghost use Rattle.std.specs.Prelude.{◌≡◌, map, option_map};
ghost use Rattle.std.specs.List.{flat_map};
ghost use Rattle.cl_tree.specs.Spelling as spelling;
ghost use Rattle.cl_typing.specs.Rules.{optional};
ghost use Rattle.cl_typing.specs.Tokens.{in_type, in_unary, at_arrow, at_real, expr_tokens, init_tokens};
ghost use Rattle.cl_scope.specs.Finds.{Finds};
ghost use Rattle.cl_forbidden.specs.Held.{holder_of};

use cl_scope::stop::Stop;
use cl_tree::kinds::UnOp;
use cl_tree::tree::{CType, Expr, Init, Node};
use cl_typing::sought::Sought;

/// What a declarator's second line is the line of, as far as its type decides it.
#[derive(Clone, Copy, Debug, PartialEq, Eq)]
pub enum Holder {
    Star,
    Floating,
    Other,
}

#[tactic(auto, unfolding(cl_tree::specs::Spelling::type_shape))]
fn held_by(t: &CType) -> Holder
    ensures { holder_of result ≡ spelling.held_by t.now }
{
    match t {
        CType::Pointer(_) => Holder::Star,
        CType::Floating => Holder::Floating,
        CType::Array(inner, _) => held_by(inner.get()),
        CType::Void | CType::Integer(_) | CType::Struct(_) => Holder::Other,
    }
}

#[tactic(auto, unfolding(cl_typing::specs::Tokens::in_type))]
pub fn look_type(sought: Sought, t: &CType, second: u32) -> Result<(), Stop>
    ensures { Finds result (in_type sought t.now second) }
{
    match (sought, held_by(t)) {
        (Sought::Pointers, Holder::Star) | (Sought::Reals, Holder::Floating) => Err(Stop::At(
            second,
        )),
        _ => Ok(()),
    }
}

#[tactic(auto, unfolding(cl_typing::specs::Tokens::in_unary))]
fn look_unary(sought: Sought, op: UnOp, line: u32) -> Result<(), Stop>
    ensures { Finds result (in_unary sought op line) }
{
    match (sought, op) {
        (Sought::Pointers, UnOp::Star | UnOp::Amp) => Err(Stop::At(line)),
        _ => Ok(()),
    }
}

#[tactic(auto, unfolding(cl_typing::specs::Tokens::at_arrow))]
fn look_arrow(sought: Sought, line: u32) -> Result<(), Stop>
    ensures { Finds result (at_arrow sought line) }
{
    match sought {
        Sought::Pointers => Err(Stop::At(line)),
        Sought::Reals => Ok(()),
    }
}

#[tactic(auto, unfolding(cl_typing::specs::Tokens::at_real))]
fn look_real(sought: Sought, line: u32) -> Result<(), Stop>
    ensures { Finds result (at_real sought line) }
{
    match sought {
        Sought::Pointers => Ok(()),
        Sought::Reals => Err(Stop::At(line)),
    }
}

#[cycle(expr)]
#[tactic(auto, unfolding(cl_typing::specs::Tokens::expr_tokens), using(cl_scope::proofs::Searches::searches))]
pub fn look_expr(sought: Sought, e: &Expr) -> Result<(), Stop>
    ensures { Finds result (expr_tokens sought e.now) }
{
    match &e.node {
        Node::Number { value: _, kind: _ } | Node::Letter(_) | Node::Text(_) | Node::Variable(_) =>
            Ok(()),
        Node::Real => look_real(sought, e.line),
        Node::Unary(op, inner) => {
            look_unary(sought, *op, e.line)?;
            look_expr(sought, inner.get())
        }
        Node::Binary(_, a, b) => {
            look_expr(sought, a.get())?;
            look_expr(sought, b.get())
        }
        Node::Choice(c, a, b) => {
            look_expr(sought, c.get())?;
            look_expr(sought, a.get())?;
            look_expr(sought, b.get())
        }
        Node::Cast(t, inner) => {
            look_type(sought, t, e.second)?;
            look_expr(sought, inner.get())
        }
        Node::Call(_, arguments) => look_exprs(sought, arguments.as_slice()),
        Node::Index(a, i) => {
            look_expr(sought, a.get())?;
            look_expr(sought, i.get())
        }
        Node::Member(a, _) => look_expr(sought, a.get()),
        Node::Arrow(a, _) => {
            look_expr(sought, a.get())?;
            look_arrow(sought, e.second)
        }
        Node::Paren(inner) => look_expr(sought, inner.get()),
    }
}

#[cycle(expr)]
#[tactic(auto, using(cl_scope::proofs::Searches::searches))]
fn look_exprs(sought: Sought, all: &[Expr]) -> Result<(), Stop>
    ensures { Finds result (flat_map (λ ls. ls) (map (expr_tokens sought) all.now)) }
{
    for e in all {
        look_expr(sought, e)?;
    }
    Ok(())
}

#[cycle(init)]
#[tactic(auto, unfolding(cl_typing::specs::Tokens::init_tokens), using(cl_scope::proofs::Searches::searches))]
pub fn look_init(sought: Sought, i: &Init) -> Result<(), Stop>
    ensures { Finds result (init_tokens sought i.now) }
{
    match i {
        Init::One(e) => look_expr(sought, e),
        Init::Many(parts) => look_inits(sought, parts.as_slice()),
    }
}

#[cycle(init)]
#[tactic(auto, using(cl_scope::proofs::Searches::searches))]
fn look_inits(sought: Sought, all: &[Init]) -> Result<(), Stop>
    ensures { Finds result (flat_map (λ ls. ls) (map (init_tokens sought) all.now)) }
{
    for i in all {
        look_init(sought, i)?;
    }
    Ok(())
}

pub fn look_start(sought: Sought, init: &Option<Init>) -> Result<(), Stop>
    ensures { Finds result (optional (option_map (init_tokens sought) init.now)) }
{
    match init {
        Some(i) => look_init(sought, i),
        None => Ok(()),
    }
}

pub fn look_part(sought: Sought, part: &Option<Expr>) -> Result<(), Stop>
    ensures { Finds result (optional (option_map (expr_tokens sought) part.now)) }
{
    match part {
        Some(e) => look_expr(sought, e),
        None => Ok(()),
    }
}
