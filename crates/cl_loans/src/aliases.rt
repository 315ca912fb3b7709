//! E29: the first call that lends an array which has an alias in what it calls.

ghost use Rattle.std.specs.Prelude.{◌≡◌, ◌↔◌, ◌≤◌, ◌<◌, length, map, All, IfOk, IsTrue};
ghost use Rattle.std.specs.List.{flat_map};
ghost use Rattle.cl_calls.specs.Cycles.{Answers};
ghost use Rattle.cl_groups.specs.Ties.{IsBelow};
ghost use Rattle.cl_levels.specs.Crossings as crossing;
ghost use Rattle.cl_levels.specs.Uses.{uses_of};
ghost use Rattle.cl_levels.specs.declared.uses.Use.TheVariants as used;
ghost use Rattle.cl_loans.specs.Loans.{alone, lent_by, loan_by, loans_in, IsNamed, NamesIt, NamesOne, HasAlias, Clashes, PlacesOf};

use crate::lent::lent;
use crate::naming::named;
use crate::twice::is_twice;
use cl_base::limits::{FUNCTIONS, OBJECTS};
use cl_base::name::NoMemory;
use cl_calls::signatures::params_at;
use cl_levels::uses::{Body, Use, Variable};
use cl_mean::checked::Typed;
use cl_reach::propagate::Carried;
use cl_scope::stop::Stop;
use std::alloc::Global;

/// Whether a function, or one that is reached from it by calls, names an object.
fn is_named(named: &Carried, f: usize, k: usize) -> bool
    requires { f < FUNCTIONS }
    ensures { IsTrue result ↔ IsNamed named.now f k }
{
    if k >= OBJECTS as usize {
        return false;
    }
    named.has(f, k)
}

/// The same of a variable.
fn names_it(named: &Carried, f: usize, variable: &Variable) -> bool
    requires { f < FUNCTIONS }
    ensures { IsTrue result ↔ NamesIt named.now f variable.now }
{
    match variable {
        Variable::Static(k) => is_named(named, f, *k),
        Variable::Local(_) => false,
    }
}

/// The same of one of some variables.
fn names_one(named: &Carried, f: usize, lent: &[Variable]) -> bool
    requires { f < FUNCTIONS }
    ensures { IsTrue result ↔ NamesOne named.now f lent.now }
{
    for variable in lent {
        if names_it(named, f, variable) {
            return true;
        }
    }
    false
}

/// Whether something that is lent to a function has an alias there.
fn has_alias(named: &Carried, f: usize, lent: &[Variable]) -> bool
    requires { f < FUNCTIONS }
    ensures { IsTrue result ↔ HasAlias named.now f lent.now }
{
    if is_twice(lent) {
        return true;
    }
    names_one(named, f, lent)
}

/// A program, and the objects that its functions name, themselves or by what they call.
#[derive(Clone, Copy, Drop)]
struct Searched<'a> {
    typed: &'a Typed,
    named: &'a Carried,
}

fn clashes(
    alloc: Global,
    searched: &Searched<'_>,
    callee: usize,
    roots: &[Option<Variable>],
) -> Result<bool, NoMemory>
    requires { callee < FUNCTIONS }
    ensures { IfOk result (λ b. IsTrue b ↔ HasAlias searched.now.named.now callee (lent_by searched.now.typed.now callee roots.now)) }
{
    let lent = lent(alloc, params_at(searched.typed, callee), roots)?;
    Ok(has_alias(searched.named, callee, lent.as_slice()))
}

fn look_call(
    alloc: Global,
    searched: &Searched<'_>,
    callee: usize,
    roots: &[Option<Variable>],
    line: u32,
) -> Result<(), Stop>
    requires { callee < FUNCTIONS }
    ensures { Answers result (PlacesOf (Clashes searched.now.named.now) (loan_by searched.now.typed.now (used.Called callee roots.now line))) }
{
    if clashes(alloc, searched, callee, roots)? {
        return Err(Stop::At(line));
    }
    Ok(())
}

#[tactic(auto, using(crate::proofs::Searched::no_loan))]
fn look_use(alloc: Global, searched: &Searched<'_>, used: &Use) -> Result<(), Stop>
    requires { IsBelow used.now }
    ensures { Answers result (PlacesOf (Clashes searched.now.named.now) (loan_by searched.now.typed.now used.now)) }
{
    match used {
        Use::Named { object: _, line: _ } => Ok(()),
        Use::Called {
            callee,
            roots,
            line,
        } => look_call(alloc, searched, *callee, roots.as_slice(), *line),
    }
}

fn look_body(alloc: Global, searched: &Searched<'_>, uses: &[Use]) -> Result<(), Stop>
    requires { All IsBelow uses.now }
    ensures { Answers result (PlacesOf (Clashes searched.now.named.now) (flat_map (loan_by searched.now.typed.now) uses.now)) }
{
    for used in uses {
        look_use(alloc, searched, used)?;
    }
    Ok(())
}

fn look(alloc: Global, searched: &Searched<'_>, bodies: &[Body]) -> Result<(), Stop>
    requires { All (λ b. All IsBelow b.uses) bodies.now }
    ensures { Answers result (PlacesOf (Clashes searched.now.named.now) (loans_in searched.now.typed.now (map (λ b. b.uses) bodies.now))) }
{
    for body in bodies {
        look_body(alloc, searched, body.uses.as_slice())?;
    }
    Ok(())
}

/// E29: the first call that lends one array twice, or an object that the callee or a function which it
/// reaches by calls names. What the functions of the program use, in their order, is given.
pub fn aliased(alloc: Global, typed: &Typed, bodies: &[Body]) -> Result<(), Stop>
    requires few { length bodies.now ≤ FUNCTIONS }
    requires below { All (λ b. All IsBelow b.uses) bodies.now }
    requires uses { map (λ b. b.uses) bodies.now ≡ uses_of typed.now }
    ensures { Answers result (crossing.aliased (alone typed.now)) }
{
    let named = named(alloc, bodies)?;
    let searched = Searched {
        typed,
        named: &named,
    };
    look(alloc, &searched, bodies)
}
