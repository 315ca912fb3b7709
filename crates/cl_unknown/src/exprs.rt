//! Names and tags in expressions and initialisers.

ghost use Rattle.std.specs.Prelude.{◌≡◌, map, option_map};
ghost use Rattle.std.specs.List.{flat_map};
ghost use Rattle.cl_typing.specs.Rules.{optional};
ghost use Rattle.cl_typing.specs.Unknown as unknown;
ghost use Rattle.cl_scope.specs.Finds.{Finds};
ghost use Rattle.cl_unknown.specs.Known.{known_of};

use cl_base::name::Name;
use cl_scope::library::is_library;
use cl_scope::scopes::{Meaning, Scopes};
use cl_scope::search::unless;
use cl_scope::stop::Stop;
use cl_tree::tree::{CType, Expr, Init, Node};

/// What is the same at all places of an item: the tags so far, and the functions that the program defines.
#[derive(Drop)]
pub struct Known<'a> {
    pub tags: Scopes<'a>,
    pub defined: Scopes<'a>,
}

#[tactic(auto, unfolding(cl_typing::specs::Unknown::is_known))]
fn is_known(names: &Scopes<'_>, name: &Name) -> bool
    ensures { result ≡ unknown.is_known names.now name.now }
{
    match names.find(name) {
        Some(_) => true,
        None => is_library(name),
    }
}

#[tactic(auto, unfolding(cl_typing::specs::Unknown::can_call))]
fn can_call(defined: &Scopes<'_>, names: &Scopes<'_>, name: &Name) -> bool
    ensures { result ≡ unknown.can_call defined.now names.now name.now }
{
    match names.find(name) {
        Some(Meaning::Function(_, _)) => defined.is_bound(name),
        Some(Meaning::Variable(_) | Meaning::Structure(_)) => true,
        None => is_library(name),
    }
}

#[tactic(auto, unfolding(cl_typing::specs::Unknown::has_tag, cl_typing::specs::Scope::tag_of))]
pub fn has_tag(tags: &Scopes<'_>, t: &CType) -> bool
    ensures { result ≡ unknown.has_tag tags.now t.now }
{
    match t {
        CType::Struct(tag) => tags.is_bound(tag),
        CType::Array(inner, _) => has_tag(tags, inner.get()),
        CType::Pointer(inner) => has_tag(tags, inner.get()),
        CType::Void | CType::Integer(_) | CType::Floating => true,
    }
}

#[cycle(expr)]
#[tactic(auto, unfolding(cl_typing::specs::Unknown::expr_unknown), using(cl_scope::proofs::Searches::searches))]
pub fn look_expr(known: &Known<'_>, names: &Scopes<'_>, e: &Expr) -> Result<(), Stop>
    ensures { Finds result (unknown.expr_unknown (known_of known.now) names.now e.now) }
{
    match &e.node {
        Node::Number { value: _, kind: _ } | Node::Real | Node::Letter(_) | Node::Text(_) => Ok(()),
        Node::Variable(name) => unless(is_known(names, name), e.line),
        Node::Unary(_, inner) => look_expr(known, names, inner.get()),
        Node::Binary(_, a, b) => {
            look_expr(known, names, a.get())?;
            look_expr(known, names, b.get())
        }
        Node::Choice(c, a, b) => {
            look_expr(known, names, c.get())?;
            look_expr(known, names, a.get())?;
            look_expr(known, names, b.get())
        }
        Node::Cast(t, inner) => {
            unless(has_tag(&known.tags, t), e.line)?;
            look_expr(known, names, inner.get())
        }
        Node::Call(name, arguments) => {
            unless(can_call(&known.defined, names, name), e.line)?;
            look_exprs(known, names, arguments.as_slice())
        }
        Node::Index(a, i) => {
            look_expr(known, names, a.get())?;
            look_expr(known, names, i.get())
        }
        Node::Member(a, _) => look_expr(known, names, a.get()),
        Node::Arrow(a, _) => look_expr(known, names, a.get()),
        Node::Paren(inner) => look_expr(known, names, inner.get()),
    }
}

#[cycle(expr)]
#[tactic(auto, using(cl_scope::proofs::Searches::searches))]
fn look_exprs(known: &Known<'_>, names: &Scopes<'_>, all: &[Expr]) -> Result<(), Stop>
    ensures { Finds result (flat_map (λ ls. ls) (map (unknown.expr_unknown (known_of known.now) names.now) all.now)) }
{
    for e in all {
        look_expr(known, names, e)?;
    }
    Ok(())
}

#[cycle(init)]
#[tactic(auto, unfolding(cl_typing::specs::Unknown::init_unknown), using(cl_scope::proofs::Searches::searches))]
pub fn look_init(known: &Known<'_>, names: &Scopes<'_>, i: &Init) -> Result<(), Stop>
    ensures { Finds result (unknown.init_unknown (known_of known.now) names.now i.now) }
{
    match i {
        Init::One(e) => look_expr(known, names, e),
        Init::Many(parts) => look_inits(known, names, parts.as_slice()),
    }
}

#[cycle(init)]
#[tactic(auto, using(cl_scope::proofs::Searches::searches))]
fn look_inits(known: &Known<'_>, names: &Scopes<'_>, all: &[Init]) -> Result<(), Stop>
    ensures { Finds result (flat_map (λ ls. ls) (map (unknown.init_unknown (known_of known.now) names.now) all.now)) }
{
    for i in all {
        look_init(known, names, i)?;
    }
    Ok(())
}

pub fn look_start(known: &Known<'_>, names: &Scopes<'_>, init: &Option<Init>) -> Result<(), Stop>
    ensures { Finds result (optional (option_map (unknown.init_unknown (known_of known.now) names.now) init.now)) }
{
    match init {
        Some(i) => look_init(known, names, i),
        None => Ok(()),
    }
}

pub fn look_part(known: &Known<'_>, names: &Scopes<'_>, part: &Option<Expr>) -> Result<(), Stop>
    ensures { Finds result (optional (option_map (unknown.expr_unknown (known_of known.now) names.now) part.now)) }
{
    match part {
        Some(e) => look_expr(known, names, e),
        None => Ok(()),
    }
}
