//! What expressions and initialisers use.

ghost use Rattle.std.specs.Prelude.{◌≡◌, ◌++◌, map, IfOk, OnOk};
ghost use Rattle.std.specs.List.{flat_map};
ghost use Rattle.cl_levels.specs.Uses.{read, named, called, number_among, uses_in, maybe_uses, init_uses, maybe_init};

use crate::functions::Functions;
use crate::spot::Spot;
use cl_base::name::{Name, NoMemory};
use cl_levels::uses::{Use, Variable};
use cl_tree::tree::{Expr, Init, Node};
use sqlite_items::Items;
use std::alloc::Global;

/// The variable at the root of an expression, if it names a place.
#[tactic(auto, unfolding(cl_levels::specs::Uses::read))]
fn root(functions: &Functions<'_>, spot: &Spot<'_>, e: &Expr) -> Option<Variable>
    ensures { result ≡ (read functions.now spot.now.known e.now).root }
{
    match &e.node {
        Node::Variable(name) => spot.find(name),
        Node::Index(a, _) => root(functions, spot, a.get()),
        Node::Member(a, _) => root(functions, spot, a.get()),
        Node::Arrow(a, _) => root(functions, spot, a.get()),
        Node::Paren(a) => root(functions, spot, a.get()),
        Node::Number { value: _, kind: _ }
        | Node::Real
        | Node::Letter(_)
        | Node::Text(_)
        | Node::Unary(_, _)
        | Node::Binary(_, _, _)
        | Node::Choice(_, _, _)
        | Node::Cast(_, _)
        | Node::Call(_, _) => None,
    }
}

/// The variables at the roots of arguments.
fn roots(
    alloc: Global,
    functions: &Functions<'_>,
    spot: &Spot<'_>,
    all: &[Expr],
) -> Result<Items<Option<Variable>>, NoMemory>
    ensures { IfOk result (λ found. found ≡ map (λ a. a.root) (map (read functions.now spot.now.known) all.now)) }
{
    let mut found = Items::new(alloc);
    for e in all {
        found.push(root(functions, spot, e))?;
    }
    Ok(found)
}

/// A variable that is read: an object of static duration is used.
fn name_variable(variable: Option<Variable>, line: u32, uses: &mut Vec<Use>) -> Result<(), NoMemory>
    ensures { OnOk result (uses.new.items ≡ uses.old.items ++ named variable line) }
{
    match variable {
        Some(Variable::Static(object)) => {
            uses.push(Use::Named { object, line })?;
            Ok(())
        }
        Some(Variable::Local(_)) | None => Ok(()),
    }
}

/// A call: a function of the program is used, with the roots of the arguments.
#[tactic(auto, unfolding(cl_levels::specs::Uses::read))]
fn call_function(
    alloc: Global,
    functions: &Functions<'_>,
    spot: &Spot<'_>,
    name: &Name,
    all: &[Expr],
    line: u32,
    uses: &mut Vec<Use>,
) -> Result<(), NoMemory>
    ensures { OnOk result (uses.new.items ≡ uses.old.items ++ called (number_among functions.now name.now)
        (map (λ a. a.root) (map (read functions.now spot.now.known) all.now)) line) }
{
    match functions.number(name) {
        Some(callee) => {
            let roots = roots(alloc, functions, spot, all)?;
            uses.push(Use::Called {
                callee,
                roots,
                line,
            })?;
            Ok(())
        }
        None => Ok(()),
    }
}

/// What an expression uses. A call stands before what its arguments use.
#[cycle(expr)]
#[tactic(auto, unfolding(cl_levels::specs::Uses::read))]
pub fn look_expr(
    alloc: Global,
    functions: &Functions<'_>,
    spot: &Spot<'_>,
    e: &Expr,
    uses: &mut Vec<Use>,
) -> Result<(), NoMemory>
    ensures { OnOk result (uses.new.items ≡ uses.old.items ++ uses_in functions.now spot.now.known e.now) }
{
    match &e.node {
        Node::Number { value: _, kind: _ } | Node::Real | Node::Letter(_) | Node::Text(_) => Ok(()),
        Node::Variable(name) => name_variable(spot.find(name), e.line, uses),
        Node::Unary(_, a) => look_expr(alloc, functions, spot, a.get(), uses),
        Node::Binary(_, a, b) => {
            look_expr(alloc, functions, spot, a.get(), uses)?;
            look_expr(alloc, functions, spot, b.get(), uses)
        }
        Node::Choice(c, a, b) => {
            look_expr(alloc, functions, spot, c.get(), uses)?;
            look_expr(alloc, functions, spot, a.get(), uses)?;
            look_expr(alloc, functions, spot, b.get(), uses)
        }
        Node::Cast(_, a) => look_expr(alloc, functions, spot, a.get(), uses),
        Node::Call(name, all) => {
            call_function(alloc, functions, spot, name, all.as_slice(), e.line, uses)?;
            look_exprs(alloc, functions, spot, all.as_slice(), uses)
        }
        Node::Index(a, i) => {
            look_expr(alloc, functions, spot, a.get(), uses)?;
            look_expr(alloc, functions, spot, i.get(), uses)
        }
        Node::Member(a, _) => look_expr(alloc, functions, spot, a.get(), uses),
        Node::Arrow(a, _) => look_expr(alloc, functions, spot, a.get(), uses),
        Node::Paren(a) => look_expr(alloc, functions, spot, a.get(), uses),
    }
}

#[cycle(expr)]
fn look_exprs(
    alloc: Global,
    functions: &Functions<'_>,
    spot: &Spot<'_>,
    all: &[Expr],
    uses: &mut Vec<Use>,
) -> Result<(), NoMemory>
    ensures { OnOk result (uses.new.items ≡ uses.old.items ++ flat_map (λ a. a.uses)
        (map (read functions.now spot.now.known) all.now)) }
{
    for e in all {
        look_expr(alloc, functions, spot, e, uses)?;
    }
    Ok(())
}

/// What an expression uses that may be absent.
pub fn look_part(
    alloc: Global,
    functions: &Functions<'_>,
    spot: &Spot<'_>,
    part: &Option<Expr>,
    uses: &mut Vec<Use>,
) -> Result<(), NoMemory>
    ensures { OnOk result (uses.new.items ≡ uses.old.items ++ maybe_uses functions.now spot.now.known part.now) }
{
    match part {
        Some(e) => look_expr(alloc, functions, spot, e, uses),
        None => Ok(()),
    }
}

#[cycle(init)]
#[tactic(auto, unfolding(cl_levels::specs::Uses::init_uses))]
pub fn look_init(
    alloc: Global,
    functions: &Functions<'_>,
    spot: &Spot<'_>,
    i: &Init,
    uses: &mut Vec<Use>,
) -> Result<(), NoMemory>
    ensures { OnOk result (uses.new.items ≡ uses.old.items ++ init_uses functions.now spot.now.known i.now) }
{
    match i {
        Init::One(e) => look_expr(alloc, functions, spot, e, uses),
        Init::Many(parts) => look_inits(alloc, functions, spot, parts.as_slice(), uses),
    }
}

#[cycle(init)]
fn look_inits(
    alloc: Global,
    functions: &Functions<'_>,
    spot: &Spot<'_>,
    all: &[Init],
    uses: &mut Vec<Use>,
) -> Result<(), NoMemory>
    ensures { OnOk result (uses.new.items ≡ uses.old.items ++ flat_map (λ us. us)
        (map (init_uses functions.now spot.now.known) all.now)) }
{
    for i in all {
        look_init(alloc, functions, spot, i, uses)?;
    }
    Ok(())
}

/// What the initialiser of a declarator uses.
pub fn look_start(
    alloc: Global,
    functions: &Functions<'_>,
    spot: &Spot<'_>,
    init: &Option<Init>,
    uses: &mut Vec<Use>,
) -> Result<(), NoMemory>
    ensures { OnOk result (uses.new.items ≡ uses.old.items ++ maybe_init functions.now spot.now.known init.now) }
{
    match init {
        Some(i) => look_init(alloc, functions, spot, i, uses),
        None => Ok(()),
    }
}
