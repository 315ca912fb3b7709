//! The place of each name's innermost binding.

ghost use Rattle.std.specs.Prelude.{◌≡◌, ◌≤◌, ◌<◌, ℕ, List, length, None, Some, IsSome, OnOk, OnErr};
ghost use Rattle.std.specs.Map.{update};
ghost use Rattle.std.specs.Str.{bytes_eq};
ghost use Rattle.cl_scope.specs.Table as table;
ghost use Rattle.cl_scope.specs.Table.{held_at, place_at};

use cl_base::name::{Name, NoMemory};
use std::alloc::Global;
use std::collections::BTreeMap;

/// How many maps the names are spread over.
const MAPS: usize = 4096;

/// A map from names to places, ordered, so that no choice of names makes it slow.
#[derive(Drop)]
pub struct Places {
    places: BTreeMap<String, usize>,
}

impl Places {
    fn new(alloc: Global) -> Places
        ensures { (q : List ℕ) → held_at result q ≡ None }
    {
        Places {
            places: BTreeMap::new(alloc),
        }
    }

    fn get(&self, name: &Name) -> Option<usize>
        ensures { result ≡ held_at self.now name.now }
    {
        match self.places.get(name.text()) {
            Some(place) => Some(*place),
            None => None,
        }
    }

    #[tactic(auto, using(std::proofs::lemmas::Map::Text::text_keys))]
    fn set(&mut self, alloc: Global, name: &Name, place: usize) -> Result<(), NoMemory>
        ensures ok { OnOk result
            ((q : List ℕ) → held_at self.new q ≡ update bytes_eq (held_at self.old) name.now (Some place) q) }
        ensures err { OnErr result ((q : List ℕ) → held_at self.new q ≡ held_at self.old q) }
    {
        let key = String::from_str(alloc, name.text())?;
        self.places.insert(key, place)?;
        Ok(())
    }

    #[tactic(auto, using(std::proofs::lemmas::Map::Text::text_keys))]
    fn forget(&mut self, name: &Name)
        ensures { (q : List ℕ) → held_at self.new q ≡ update bytes_eq (held_at self.old) name.now None q }
    {
        self.places.remove(name.text());
    }

    #[tactic(auto, using(std::proofs::lemmas::Map::Text::text_keys))]
    fn change(&mut self, name: &Name, place: usize)
        requires { IsSome (held_at self.old name.now) }
        ensures { (q : List ℕ) → held_at self.new q ≡ update bytes_eq (held_at self.old) name.now (Some place) q }
    {
        if let Some(held) = self.places.get_mut(name.text()) {
            *held = place;
        }
    }

    fn restore(&mut self, name: &Name, hidden: Option<usize>)
        requires { IsSome (held_at self.old name.now) }
        ensures { (q : List ℕ) → held_at self.new q ≡ update bytes_eq (held_at self.old) name.now hidden q }
    {
        match hidden {
            Some(place) => self.change(name, place),
            None => self.forget(name),
        }
    }
}

/// The map of a name, by its bytes.
#[tactic(auto, unfolding(crate::specs::Table::map_from))]
fn map_of(name: &[u8]) -> usize
    ensures map { result ≡ table.map_of name.now }
    ensures below { result < MAPS }
{
    let mut map = 0;
    for byte in name {
        map = (map * 31 + *byte as usize) % MAPS;
    }
    map
}

/// A map from names to places: many small ordered maps, so that one is soon searched and no choice of names makes it slow.
#[derive(Drop)]
pub struct Latest {
    maps: Vec<Places>,
}

impl Latest {
    pub fn new(alloc: Global) -> Latest
        ensures { (q : List ℕ) → place_at result q ≡ None }
    {
        Latest {
            maps: Vec::new(alloc),
        }
    }

    /// Lets all maps be there.
    fn open(&mut self, alloc: Global) -> Result<(), NoMemory>
        ensures all { OnOk result (MAPS ≤ length self.new.maps.items) }
        ensures same { (q : List ℕ) → place_at self.new q ≡ place_at self.old q }
    {
        for _ in self.maps.len()..MAPS {
            self.maps.push(Places::new(alloc))?;
        }
        Ok(())
    }

    pub fn get(&self, name: &Name) -> Option<usize>
        ensures { result ≡ place_at self.now name.now }
    {
        match self.maps.get(map_of(name.text().as_bytes())) {
            Some(map) => map.get(name),
            None => None,
        }
    }

    /// Notes a place, also of a name that has one.
    pub fn set(&mut self, alloc: Global, name: &Name, place: usize) -> Result<(), NoMemory>
        ensures ok { OnOk result
            ((q : List ℕ) → place_at self.new q ≡ update bytes_eq (place_at self.old) name.now (Some place) q) }
        ensures err { OnErr result ((q : List ℕ) → place_at self.new q ≡ place_at self.old q) }
    {
        self.open(alloc)?;
        let map = map_of(name.text().as_bytes());
        self.maps[map].set(alloc, name, place)
    }

    /// Gives a name that has a place the one that it had before.
    pub fn restore(&mut self, name: &Name, hidden: Option<usize>)
        requires { IsSome (place_at self.old name.now) }
        ensures { (q : List ℕ) → place_at self.new q ≡ update bytes_eq (place_at self.old) name.now hidden q }
    {
        let map = map_of(name.text().as_bytes());
        if map < self.maps.len() {
            self.maps[map].restore(name, hidden);
        }
    }
}
