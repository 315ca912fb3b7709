//! The labels of a program by their names, each with its number.

ghost use Rattle.std.specs.Prelude.{◌≡◌, ◌≤◌, ◌++◌, ◌∷◌, [], length, false, OnOk};
ghost use Rattle.cl_labelling.specs.Names as named;
ghost use Rattle.cle_names.specs.Walked.{place_of};

use cl_base::name::{Name, NoMemory};
use cl_scope::latest::Latest;
use std::alloc::Global;
use std::marker::Model;

/// Names of labels in their order, and the place of each. Contracts see the list of names.
#[derive(Drop)]
pub struct Labels<'a> {
    alloc: Global,
    names: Vec<&'a Name>,
    places: Latest,
}

impl<'a> Model for Labels<'a> {
    ghost use Rattle.std.specs.Prelude.{ℕ, List, map};
    ghost use Rattle.std.specs.Coded.{coded_list, coded_ℕ};
    ghost use Rattle.cle_names.specs.Finding.{IsNumbered};

    ghost Value = { List (List ℕ) };

    ghost coded = { coded_list (coded_list coded_ℕ) };

    ghost view = { λ l. map (λ n. n.now) l.names.items };

    ghost invariant = { λ l. IsNumbered (map (λ n. n.now) l.names.items) l.places };
}

impl<'a> Labels<'a> {
    pub fn new(alloc: Global) -> Labels<'a>
        ensures { result ≡ [] }
    {
        Labels {
            alloc,
            names: Vec::new(alloc),
            places: Latest::new(alloc),
        }
    }

    pub fn len(&self) -> usize
        ensures { result ≡ length self.now }
    {
        self.names.as_slice().len()
    }

    /// The place of a name, if it is there.
    pub fn place(&self, name: &Name) -> Option<usize>
        ensures { result ≡ place_of self.now name.now }
    {
        self.places.get(name)
    }

    /// Whether a name is there.
    #[tactic(auto, using(crate::proofs::Numbers::has_place))]
    pub fn has(&self, name: &Name) -> bool
        ensures { result ≡ named.has_word self.now name.now }
    {
        self.place(name).is_some()
    }

    /// The number of a name: behind the last where it isn't there.
    #[tactic(auto, using(crate::proofs::Numbers::number_some, crate::proofs::Numbers::number_none, crate::proofs::Numbers::number_within))]
    pub fn number(&self, name: &Name) -> usize
        ensures number { result ≡ named.number_of self.now name.now }
        ensures within { result ≤ length self.now }
    {
        match self.place(name) {
            Some(place) => place,
            None => self.len(),
        }
    }

    /// Adds a name that isn't there.
    pub fn add(&mut self, name: &'a Name) -> Result<(), NoMemory>
        requires { named.has_word self.old name.now ≡ false }
        ensures { OnOk result (self.new ≡ self.old ++ name.now ∷ []) }
    {
        let place = self.len();
        self.names.push(name)?;
        match self.places.set(self.alloc, name, place) {
            Ok(()) => Ok(()),
            Err(_) => {
                self.names.pop();
                Err(NoMemory)
            }
        }
    }
}
