//! Items that have two labels.

ghost use Rattle.std.specs.Prelude.{◌≡◌, [], List, None, Some, OnOk};
ghost use Rattle.std.specs.Map.{update};
ghost use Rattle.std.specs.Str.{bytes_eq};
ghost use Rattle.cl_labelling.specs.Items as items;
ghost use Rattle.cl_labelling.specs.Regions as regions;
ghost use Rattle.cl_scope.specs.Finds.{Finds};
ghost use Rattle.cl_tree.specs.Words.{Word};
ghost use Rattle.cl_regions.specs.Few.{few_of};
ghost use Rattle.cl_regions.specs.Roles.{subject_of};
ghost use Rattle.cl_regions.specs.Marks.{all_kept, kept_all};
ghost use Rattle.cl_regions.specs.Chosen.{chosen_at, chosen_after, fits, one_by};

use crate::labels::Labels;
use crate::marks::Marked;
use crate::roles::Subject;
use cl_base::name::{Name, NoMemory};
use cl_scope::search::unless;
use cl_scope::stop::Stop;
use std::alloc::Global;
use std::collections::BTreeMap;

/// The labels of functions, where a declaration has one.
#[derive(Drop)]
struct Chosen<'a> {
    alloc: Global,
    labels: BTreeMap<String, &'a Name>,
}

impl<'a> Chosen<'a> {
    fn new(alloc: Global) -> Chosen<'a>
        ensures { (q : Word) → chosen_at result q ≡ None }
    {
        Chosen {
            alloc,
            labels: BTreeMap::new(alloc),
        }
    }

    /// Whether a label is the one that a function has, if it has one.
    fn fits(&self, function: &Name, label: &Name) -> bool
        ensures { result ≡ fits (chosen_at self.now function.now) label.now }
    {
        match self.labels.get(function.text()) {
            Some(held) => held.text() == label.text(),
            None => true,
        }
    }

    /// Whether an item has no second label.
    fn is_one(&self, m: &Marked<'a>) -> bool
        ensures { result ≡ one_by (few_of m.now.labels) (subject_of m.now.subject) (chosen_at self.now) }
    {
        match m.labels {
            Labels::Nothing => true,
            Labels::One(label) => match m.subject {
                Subject::Objects(_) => true,
                Subject::Function(function) => self.fits(function, label),
            },
            Labels::Many => false,
        }
    }

    #[tactic(auto, using(std::proofs::lemmas::Map::Text::text_keys))]
    fn set(&mut self, function: &Name, label: &'a Name) -> Result<(), NoMemory>
        ensures { OnOk result ((q : Word) → chosen_at self.new q
            ≡ update bytes_eq (chosen_at self.old) function.now (Some label.now) q) }
    {
        let key = String::from_str(self.alloc, function.text())?;
        self.labels.insert(key, label)?;
        Ok(())
    }

    /// Notes the label of an item, if it is a function.
    fn add(&mut self, m: &Marked<'a>) -> Result<(), NoMemory>
        ensures { OnOk result ((q : Word) → chosen_at self.new q
            ≡ chosen_after (few_of m.now.labels) (subject_of m.now.subject) (chosen_at self.old) q) }
    {
        match m.labels {
            Labels::One(label) => match m.subject {
                Subject::Function(function) => self.set(function, label),
                Subject::Objects(_) => Ok(()),
            },
            Labels::Nothing | Labels::Many => Ok(()),
        }
    }
}

/// The first item that has two labels, or the first declaration of a function whose label isn't that of an
/// earlier one. `marks` are the items of a program.
pub fn two_labels<'a>(alloc: Global, marks: &[Marked<'a>]) -> Result<(), Stop>
    ensures { (all : List regions.Marked) → kept_all marks.now ≡ all_kept all
        → Finds result (items.two_labels [] all) }
{
    let mut chosen = Chosen::new(alloc);
    for m in marks {
        unless(chosen.is_one(m), m.line)?;
        chosen.add(m)?;
    }
    Ok(())
}
