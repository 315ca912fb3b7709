//! The variables that are known at a place, with what hides what.

ghost use Rattle.std.specs.Prelude.{◌≡◌, ◌∷◌, ◌-◌, [], length, drop, OnOk, OnErr};
ghost use Rattle.cl_levels.specs.Uses.{known, variable_of};

use cl_base::name::{Name, NoMemory};
use cl_levels::uses::Variable;
use cl_scope::latest::Latest;
use std::alloc::Global;
use std::marker::Model;

/// A variable, with the place of the one of the same name that it hides.
#[derive(Clone, Copy, Drop)]
struct Slot<'a> {
    name: &'a Name,
    variable: Variable,
    hidden: Option<usize>,
}

/// The variables in the order in which they were declared, and the place of each name's innermost one.
/// Contracts see the list of variables, the innermost first.
#[derive(Drop)]
pub struct Table<'a> {
    alloc: Global,
    slots: Vec<Slot<'a>>,
    latest: Latest,
}

impl<'a> Model for Table<'a> {
    ghost use Rattle.std.specs.Prelude.{List};
    ghost use Rattle.cl_levels.specs.Uses.{Known};
    ghost use Rattle.cl_uses.specs.Table.{known_in, IsKept};
    ghost use Rattle.std.specs.Coded.{codes};
    ghost use Rattle.cl_levels.specs.contracts.uses.Variable as v;

    ghost Value = { List Known };

    ghost coded = { Prim.hlevel (codes, v.the_row.coded) };

    ghost view = { λ s. known_in s.slots.items };

    ghost invariant = { λ s. IsKept s.slots.items s.latest };
}

impl<'a> Table<'a> {
    pub fn new(alloc: Global) -> Table<'a>
        ensures { result ≡ [] }
    {
        Table {
            alloc,
            slots: Vec::new(alloc),
            latest: Latest::new(alloc),
        }
    }

    /// How many variables there are.
    pub fn len(&self) -> usize
        ensures { result ≡ length self.now }
    {
        self.slots.as_slice().len()
    }

    /// The variable that a name means.
    pub fn find(&self, name: &Name) -> Option<Variable>
        ensures { result ≡ variable_of self.now name.now }
    {
        match self.latest.get(name) {
            Some(place) => match self.slots.get(place) {
                Some(slot) => Some(slot.variable),
                None => None,
            },
            None => None,
        }
    }

    /// A variable becomes known, which hides the one that its name meant before.
    pub fn bind(&mut self, name: &'a Name, variable: Variable) -> Result<(), NoMemory>
        ensures ok { OnOk result (self.new ≡ known name.now variable ∷ self.old) }
        ensures err { OnErr result (self.new ≡ self.old) }
    {
        let place = self.slots.as_slice().len();
        let hidden = self.latest.get(name);
        self.slots.push(Slot {
            name,
            variable,
            hidden,
        })?;
        match self.latest.set(self.alloc, name, place) {
            Ok(()) => Ok(()),
            Err(_) => {
                self.slots.pop();
                Err(NoMemory)
            }
        }
    }

    /// Forgets the innermost variable.
    fn unbind(&mut self)
        ensures { self.new ≡ drop 1 self.old }
    {
        if let Some(slot) = self.slots.pop() {
            self.latest.restore(slot.name, slot.hidden);
        }
    }

    /// Leaves the scopes that were entered when there were `start` variables.
    pub fn leave(&mut self, start: usize)
        ensures { self.new ≡ drop (length self.old - start) self.old }
    {
        while self.len() > start {
            self.unbind();
        }
    }
}
