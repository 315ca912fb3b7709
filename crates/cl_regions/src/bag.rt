//! The names of regions that are open, or of the ends that lie ahead.

ghost use Rattle.std.specs.Prelude.{◌≡◌, ◌<◌, ◌-◌, ◌^◌, ◌∷◌, [], ℕ, List, length, None, Some, IsSome, OnOk};
ghost use Rattle.std.specs.Map.{update};
ghost use Rattle.std.specs.Str.{bytes_eq};
ghost use Rattle.cl_tree.specs.Words.{Word};
ghost use Rattle.cl_labelling.specs.Names.{has_word};
ghost use Rattle.cl_labelling.specs.Regions.{without, open_after};
ghost use Rattle.cl_regions.specs.Ahead.{ends_before};
ghost use Rattle.cl_regions.specs.Roles.{role_of};
ghost use Rattle.cl_regions.specs.Bag.{entry_at, entry_for, counted, Holds};
ghost use Rattle.cl_regions.specs.Few.{few, few_of};

use crate::labels::Labels;
use crate::roles::Role;
use cl_base::name::{Name, NoMemory};
use cl_tree::token::Pragma;
use std::alloc::Global;
use std::collections::BTreeMap;

/// A name that is there, and how often.
#[derive(Clone, Copy, Drop)]
struct Held<'a> {
    name: &'a Name,
    count: usize,
}

/// Names of which each may be there several times, in no order.
#[derive(Drop)]
pub struct Bag<'a> {
    alloc: Global,
    held: BTreeMap<String, Held<'a>>,
    total: usize,
}

impl<'a> Bag<'a> {
    pub fn new(alloc: Global) -> Bag<'a>
        ensures { Holds result [] }
    {
        Bag {
            alloc,
            held: BTreeMap::new(alloc),
            total: 0,
        }
    }

    fn count(&self, name: &Name) -> usize
        ensures { result ≡ counted (entry_at self.now name.now) }
    {
        match self.held.get(name.text()) {
            Some(held) => held.count,
            None => 0,
        }
    }

    /// Whether a name is there.
    pub fn has(&self, name: &Name) -> bool
        ensures { (ws : List Word) → Holds self.now ws → result ≡ has_word ws name.now }
    {
        self.count(name) > 0
    }

    #[tactic(auto, using(std::proofs::lemmas::Map::Text::text_keys))]
    fn put(&mut self, name: &'a Name, count: usize) -> Result<(), NoMemory>
        ensures each { OnOk result ((q : Word) → entry_at self.new q
            ≡ update bytes_eq (entry_at self.old) name.now (Some (name.now, count)) q) }
        ensures total { self.new.total ≡ self.old.total }
    {
        let key = String::from_str(self.alloc, name.text())?;
        self.held.insert(key, Held { name, count })?;
        Ok(())
    }

    #[tactic(auto, using(std::proofs::lemmas::Map::Text::text_keys))]
    fn forget(&mut self, name: &Name)
        ensures each { (q : Word) → entry_at self.new q ≡ update bytes_eq (entry_at self.old) name.now None q }
        ensures total { self.new.total ≡ self.old.total }
    {
        self.held.remove(name.text());
    }

    #[tactic(auto, using(std::proofs::lemmas::Map::Text::text_keys))]
    fn change(&mut self, name: &'a Name, count: usize)
        requires { IsSome (entry_at self.old name.now) }
        ensures each { (q : Word) → entry_at self.new q
            ≡ update bytes_eq (entry_at self.old) name.now (Some (name.now, count)) q }
        ensures total { self.new.total ≡ self.old.total }
    {
        if let Some(held) = self.held.get_mut(name.text()) {
            *held = Held { name, count };
        }
    }

    /// Adds a name, of which there may be some.
    pub fn add(&mut self, name: &'a Name) -> Result<(), NoMemory>
        ensures { (ws : List Word) → Holds self.old ws → length ws < 2 ^ 64 - 1 →
            OnOk result (Holds self.new (name.now ∷ ws)) }
    {
        let count = self.count(name).saturating_add(1);
        self.put(name, count)?;
        self.total = self.total.saturating_add(1);
        Ok(())
    }

    /// Notes how many are left of a name that is there.
    fn leave(&mut self, name: &'a Name, count: usize)
        requires { IsSome (entry_at self.old name.now) }
        ensures each { (q : Word) → entry_at self.new q
            ≡ update bytes_eq (entry_at self.old) name.now (entry_for name.now count) q }
        ensures total { self.new.total ≡ self.old.total }
    {
        if count == 0 {
            self.forget(name);
        } else {
            self.change(name, count);
        }
    }

    /// Removes a name once, if it is there.
    pub fn take(&mut self, name: &'a Name)
        ensures { (ws : List Word) → Holds self.old ws → Holds self.new (without ws name.now) }
    {
        let count = self.count(name);
        if count == 0 {
            return;
        }
        self.leave(name, count - 1);
        self.total = self.total.saturating_sub(1);
    }

    /// Goes over a part: the names are those of the regions that are open.
    pub fn pass(&mut self, role: Role<'a>) -> Result<(), NoMemory>
        ensures { (ws : List Word) → Holds self.old ws → length ws < 2 ^ 64 - 1 →
            OnOk result (Holds self.new (open_after ws (role_of role.entry))) }
    {
        match role {
            Role::Says(Pragma::Begin(name)) => self.add(name),
            Role::Says(Pragma::End(name)) => {
                self.take(name);
                Ok(())
            }
            _ => Ok(()),
        }
    }

    /// Goes back over a part: the names are those of the ends that lie ahead.
    pub fn pass_back(&mut self, role: Role<'a>) -> Result<(), NoMemory>
        ensures { (ws : List Word) → Holds self.old ws → length ws < 2 ^ 64 - 1 →
            OnOk result (Holds self.new (ends_before ws (role_of role.entry))) }
    {
        match role {
            Role::Says(Pragma::Begin(name)) => {
                self.take(name);
                Ok(())
            }
            Role::Says(Pragma::End(name)) => self.add(name),
            _ => Ok(()),
        }
    }

    /// The names that are there, as an item's labels.
    pub fn labels(&self) -> Labels<'a>
        ensures { (ws : List Word) → Holds self.now ws → few_of result ≡ few ws }
    {
        if self.total > 1 {
            return Labels::Many;
        }
        match self.held.first_key_value() {
            Some((_, held)) => Labels::One(held.name),
            None => Labels::Nothing,
        }
    }
}
