//! The functions of a program by their names.

ghost use Rattle.std.specs.Prelude.{◌≡◌, ℕ, List, if◌then◌else◌, Some, None, IfOk, OnOk, bytes_eq};
ghost use Rattle.cl_scope.specs.Table.{place_at};
ghost use Rattle.cl_levels.specs.Uses.{number_among};
ghost use Rattle.cl_uses.specs.Numbers.{either};

use cl_base::name::{Name, NoMemory};
use cl_mean::checked::FnFact;
use cl_scope::latest::Latest;
use std::alloc::Global;
use std::marker::Model;

/// The functions of a program, and the number of the first one of each name. Contracts see the functions.
#[derive(Drop)]
pub struct Functions<'a> {
    all: &'a [FnFact],
    first: Latest,
}

impl<'a> Model for Functions<'a> {
    ghost use Rattle.std.specs.Prelude.{◌≡◌, ℕ, List};
    ghost use Rattle.std.specs.Coded.{codes};
    ghost use Rattle.cl_mean.specs.declared.checked.FnFact.{FnFact};
    ghost use Rattle.cl_mean.specs.contracts.checked.FnFact as f;
    ghost use Rattle.cl_scope.specs.Table.{place_at};
    ghost use Rattle.cl_levels.specs.Uses.{number_among};

    ghost Value = { List FnFact };

    ghost coded = { Prim.hlevel (codes, f.the_row.coded) };

    ghost view = { λ s. s.all.now };

    ghost invariant = { λ s. (q : List ℕ) → place_at s.first q ≡ number_among s.all.now q };
}

/// Notes the number of a function, unless one of the same name is noted.
fn note(alloc: Global, first: &mut Latest, name: &Name, number: usize) -> Result<(), NoMemory>
    ensures { OnOk result ((q : List ℕ) → place_at first.new q ≡ either (place_at first.old q) (if bytes_eq name.now q then Some number else None)) }
{
    match first.get(name) {
        Some(_) => Ok(()),
        None => first.set(alloc, name, number),
    }
}

/// The number of the first function of each name.
fn numbers(alloc: Global, all: &[FnFact]) -> Result<Latest, NoMemory>
    ensures { IfOk result (λ first. (q : List ℕ) → place_at first q ≡ number_among all.now q) }
{
    let mut first = Latest::new(alloc);
    for number in 0..all.len() {
        note(alloc, &mut first, &all[number].name, number)?;
    }
    Ok(first)
}

impl<'a> Functions<'a> {
    pub fn of(alloc: Global, all: &'a [FnFact]) -> Result<Functions<'a>, NoMemory>
        ensures { IfOk result (λ functions. functions ≡ all.now) }
    {
        let first = numbers(alloc, all)?;
        Ok(Functions { all, first })
    }

    /// The number of the first function of a name.
    pub fn number(&self, name: &Name) -> Option<usize>
        ensures { result ≡ number_among self.now name.now }
    {
        self.first.get(name)
    }
}
