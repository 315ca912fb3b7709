//! The names that are known at a place, with what hides what.

ghost use Rattle.std.specs.Prelude.{◌≡◌, ◌≤◌, ◌∷◌, ◌-◌, [], length, drop, option_map, None, Some, OnOk, OnErr};
ghost use Rattle.cl_typing.specs.Scope.{meaning, binding, is_bound};
ghost use Rattle.cl_scope.specs.Table.{entry_of, since};

use crate::latest::Latest;
use cl_base::name::{Name, NoMemory};
use cl_tree::tree::{CType, Declaration, Declarator};
use sqlite_items::Items;
use std::alloc::Global;
use std::marker::Model;

/// What a name means: a variable of a type, a function with its result and its parameters, or, as a
/// tag, a struct with its members.
#[derive(Clone, Copy, Drop)]
pub enum Meaning<'a> {
    Variable(&'a CType),
    Function(&'a CType, &'a Items<Declarator>),
    Structure(&'a Items<Declaration>),
}

/// A binding, with the place of the binding of the same name that it hides.
#[derive(Clone, Copy, Drop)]
struct Slot<'a> {
    name: &'a Name,
    means: Meaning<'a>,
    hidden: Option<usize>,
}

/// The bindings in the order in which they came, and the place of each name's innermost one.
/// Contracts see the list of bindings, the innermost first.
#[derive(Drop)]
pub struct Scopes<'a> {
    alloc: Global,
    slots: Vec<Slot<'a>>,
    latest: Latest,
}

impl<'a> Model for Scopes<'a> {
    ghost use Rattle.std.specs.Prelude.{List};
    ghost use Rattle.cl_typing.specs.Scope.{Binding};
    ghost use Rattle.cl_scope.specs.Table.{env_of, IsKept};
    ghost use Rattle.std.specs.Coded.{codes};
    ghost use Rattle.cl_tree.specs.contracts.tree.CType as t;

    ghost Value = { List Binding };

    ghost coded = { Prim.hlevel (codes, t.the_row.coded) };

    ghost view = { λ s. env_of s.slots.items };

    ghost invariant = { λ s. IsKept s.slots.items s.latest };
}

impl<'a> Scopes<'a> {
    pub fn new(alloc: Global) -> Scopes<'a>
        ensures { result ≡ [] }
    {
        Scopes {
            alloc,
            slots: Vec::new(alloc),
            latest: Latest::new(alloc),
        }
    }

    /// How many bindings there are.
    pub fn len(&self) -> usize
        ensures { result ≡ length self.now }
    {
        self.slots.as_slice().len()
    }

    /// What a name means.
    pub fn find(&self, name: &Name) -> Option<Meaning<'a>>
        ensures { option_map entry_of result ≡ meaning self.now name.now }
    {
        match self.latest.get(name) {
            Some(place) => match self.slots.get(place) {
                Some(slot) => Some(slot.means),
                None => None,
            },
            None => None,
        }
    }

    /// Whether a name is bound.
    #[tactic(auto, unfolding(cl_typing::specs::Scope::is_bound))]
    pub fn is_bound(&self, name: &Name) -> bool
        ensures { result ≡ is_bound self.now name.now }
    {
        self.find(name).is_some()
    }

    /// Whether a name was bound in the scopes that were entered when there were `start` bindings.
    pub fn is_bound_since(&self, start: usize, name: &Name) -> bool
        ensures { result ≡ is_bound (since start self.now) name.now }
    {
        match self.latest.get(name) {
            Some(place) => start <= place,
            None => false,
        }
    }

    /// Binds a name, which hides what it meant before.
    pub fn bind(&mut self, name: &'a Name, means: Meaning<'a>) -> Result<(), NoMemory>
        ensures ok { OnOk result (self.new ≡ binding name.now (entry_of means.entry) ∷ self.old) }
        ensures err { OnErr result (self.new ≡ self.old) }
    {
        let place = self.slots.as_slice().len();
        let hidden = self.latest.get(name);
        self.slots.push(Slot {
            name,
            means,
            hidden,
        })?;
        match self.latest.set(self.alloc, name, place) {
            Ok(()) => Ok(()),
            Err(_) => {
                self.slots.pop();
                Err(NoMemory)
            }
        }
    }

    /// Forgets the innermost binding.
    fn unbind(&mut self)
        ensures { self.new ≡ drop 1 self.old }
    {
        if let Some(slot) = self.slots.pop() {
            self.latest.restore(slot.name, slot.hidden);
        }
    }

    /// Leaves the scopes that were entered when there were `start` bindings.
    pub fn leave(&mut self, start: usize)
        ensures { self.new ≡ drop (length self.old - start) self.old }
    {
        while self.len() > start {
            self.unbind();
        }
    }
}
