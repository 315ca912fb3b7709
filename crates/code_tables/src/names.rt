//! The names that are known at a place, with what hides what.

ghost use Rattle.std.specs.Prelude.{◌≡◌, ◌∷◌, ◌-◌, [], length, drop, option_map, OnOk, OnErr};
ghost use Rattle.code_forms.specs.Layout.{meant_by};
ghost use Rattle.code_tables.specs.Table.{bounds, meaning_in, meant_in, named, named_by};

use crate::types::ValueType;
use cl_base::name::{Name, NoMemory};
use cl_scope::latest::Latest;
use code_forms::storage::Storage;
use std::alloc::Global;
use std::marker::Model;

/// What a name means: its type, and where it lies.
#[derive(Clone, Copy, Drop)]
pub struct Meant<'a> {
    pub ctype: ValueType<'a>,
    pub storage: Storage,
}

/// A name with its meaning, and the place of the one of the same name that it hides.
#[derive(Clone, Copy, Drop)]
struct Slot<'a> {
    name: &'a Name,
    meant: Meant<'a>,
    hidden: Option<usize>,
}

/// The names in the order in which they were declared, and the place of each name's innermost one.
/// Contracts see the list of names, the innermost first.
#[derive(Drop)]
pub struct Names<'a> {
    alloc: Global,
    slots: Vec<Slot<'a>>,
    latest: Latest,
}

impl<'a> Model for Names<'a> {
    ghost use Rattle.std.specs.Prelude.{List};
    ghost use Rattle.std.specs.Coded.{codes};
    ghost use Rattle.cl_tree.specs.contracts.tree.CType as c;
    ghost use Rattle.cl_tree.specs.contracts.tree.Item as i;
    ghost use Rattle.code_tables.specs.Table.{Named, known_in, IsKept};

    ghost Value = { List Named };

    ghost coded = { Prim.hlevel (codes, c.the_row.coded, i.the_row.coded) };

    ghost view = { λ s. known_in s.slots.items };

    ghost invariant = { λ s. IsKept s.slots.items s.latest };
}

impl<'a> Names<'a> {
    pub fn new(alloc: Global) -> Names<'a>
        ensures { result ≡ [] }
    {
        Names {
            alloc,
            slots: Vec::new(alloc),
            latest: Latest::new(alloc),
        }
    }

    /// How many names there are.
    pub fn len(&self) -> usize
        ensures { result ≡ length self.now }
    {
        self.slots.as_slice().len()
    }

    /// What a name means.
    #[tactic(auto, using(crate::proofs::Known::found_is))]
    pub fn find(&self, name: &Name) -> Option<Meant<'a>>
        ensures { option_map meant_in result ≡ meant_by (bounds self.now) name.now }
    {
        self.lookup(name)
    }

    fn lookup(&self, name: &Name) -> Option<Meant<'a>>
        ensures { option_map meaning_in result ≡ named_by self.now name.now }
    {
        match self.latest.get(name) {
            Some(place) => match self.slots.get(place) {
                Some(slot) => Some(slot.meant),
                None => None,
            },
            None => None,
        }
    }

    /// A name becomes known, and hides what it meant before.
    pub fn bind(&mut self, name: &'a Name, meant: Meant<'a>) -> Result<(), NoMemory>
        ensures ok { OnOk result (self.new ≡ named name.now meant.entry ∷ self.old) }
        ensures err { OnErr result (self.new ≡ self.old) }
    {
        let place = self.slots.as_slice().len();
        let hidden = self.latest.get(name);
        self.slots.push(Slot {
            name,
            meant,
            hidden,
        })?;
        match self.latest.set(self.alloc, name, place) {
            Ok(()) => Ok(()),
            Err(_) => {
                self.slots.pop();
                Err(NoMemory)
            }
        }
    }

    /// Forgets the innermost name.
    fn unbind(&mut self)
        ensures { self.new ≡ drop 1 self.old }
    {
        if let Some(slot) = self.slots.pop() {
            self.latest.restore(slot.name, slot.hidden);
        }
    }

    /// Leaves the scopes that were entered when there were `start` names.
    pub fn leave(&mut self, start: usize)
        ensures { self.new ≡ drop (length self.old - start) self.old }
    {
        while self.len() > start {
            self.unbind();
        }
    }
}
