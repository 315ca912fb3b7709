//! The functions of a source, as those of one level call them.

ghost use Rattle.std.specs.Prelude.{◌≡◌, ℕ, List, map, if◌then◌else◌, Some, None, IfOk, OnOk, MatchOption, bytes_eq};
ghost use Rattle.cl_scope.specs.Table.{place_at};
ghost use Rattle.code_forms.specs.Layout as layout;
ghost use Rattle.code_tables.specs.Facts.{called, callee_by, facts_by, first_of, place_from};

use crate::types::ValueType;
use cl_base::name::{Name, NoMemory};
use cl_scope::latest::Latest;
use cl_tree::tree::Item;
use code_forms::route::Route;
use std::alloc::Global;
use std::marker::Model;

/// A function: its number, the line of its name, the way to it, its result and its parameters.
#[derive(Drop)]
pub struct Callee<'a> {
    pub name: &'a Name,
    pub index: u32,
    pub line: u32,
    pub route: Route,
    pub result: ValueType<'a>,
    pub params: Vec<ValueType<'a>>,
}

/// The items of a source, its functions, and the place of the first one of each name. Contracts see items and functions.
#[derive(Drop)]
pub struct Facts<'a> {
    items: &'a [Item],
    callees: Vec<Callee<'a>>,
    first: Latest,
}

impl<'a> Model for Facts<'a> {
    ghost use Rattle.std.specs.Prelude.{◌≡◌, ℕ, List, map};
    ghost use Rattle.std.specs.Coded.{codes};
    ghost use Rattle.cl_scope.specs.Table.{place_at};
    ghost use Rattle.cl_tree.specs.contracts.tree.CType as c;
    ghost use Rattle.cl_tree.specs.contracts.tree.Item as i;
    ghost use Rattle.code_tables.specs.Facts.{Held, called, place_from};

    ghost Value = { Held };

    ghost coded = { Prim.hlevel (codes, c.the_row.coded, i.the_row.coded) };

    ghost view = { λ f. record { items = f.items.now; callees = map called f.callees.items } };

    ghost invariant = { λ f. (q : List ℕ) → place_at f.first q ≡ place_from 0 (map called f.callees.items) q };
}

/// Notes the place of a function, unless one of the same name is noted.
#[tactic(auto, using(crate::proofs::First::kept, crate::proofs::First::taken, crate::proofs::First::none_first))]
fn note(alloc: Global, first: &mut Latest, name: &Name, place: usize) -> Result<(), NoMemory>
    ensures { OnOk result ((q : List ℕ) → place_at first.new q ≡ first_of (place_at first.old q) (if bytes_eq name.now q then Some place else None)) }
{
    match first.get(name) {
        Some(_) => Ok(()),
        None => first.set(alloc, name, place),
    }
}

/// The place of the first function of each name.
fn places(alloc: Global, all: &[Callee<'_>]) -> Result<Latest, NoMemory>
    ensures { IfOk result (λ first. (q : List ℕ) → place_at first q ≡ place_from 0 (map called all.now) q) }
{
    let mut first = Latest::new(alloc);
    for place in 0..all.len() {
        note(alloc, &mut first, all[place].name, place)?;
    }
    Ok(first)
}

impl<'a> Facts<'a> {
    pub fn of(
        alloc: Global,
        items: &'a [Item],
        callees: Vec<Callee<'a>>,
    ) -> Result<Facts<'a>, NoMemory>
        ensures { IfOk result (λ f. f ≡ record { items = items.now; callees = map called callees.entry.items }) }
    {
        let first = places(alloc, callees.as_slice())?;
        Ok(Facts {
            items,
            callees,
            first,
        })
    }

    /// The items, whose structs are known.
    pub fn items(&self) -> &'a [Item]
        ensures { result.now ≡ self.now.items }
    {
        self.items
    }

    /// The function of a name.
    pub fn callee(&self, name: &Name) -> Option<&Callee<'a>>
        ensures { MatchOption result (layout.callee_of (facts_by self.now).callees name.now ≡ None)
            (λ c. layout.callee_of (facts_by self.now).callees name.now ≡ Some (callee_by (called c.now))) }
    {
        match self.first.get(name) {
            Some(place) => match self.callees.get(place) {
                Some(callee) => Some(callee),
                None => None,
            },
            None => None,
        }
    }
}
