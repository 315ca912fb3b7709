//! The labels of functions.

ghost use Rattle.std.specs.Prelude.{◌≡◌, map, Some, None, IfOk, OnOk};
ghost use Rattle.std.specs.Map.{update};
ghost use Rattle.std.specs.Str.{bytes_eq};
ghost use Rattle.cl_labelling.specs.Items.{label_by};
ghost use Rattle.cl_regions.specs.Roles.{subject_of};
ghost use Rattle.cl_tree.specs.Words.{Word};
ghost use Rattle.cle_items.specs.Numbered.{function_label, noted_at, numbered, or_first};

use crate::numbers::Numbered;
use cl_base::name::{Name, NoMemory};
use cl_mean::checked::FnFact;
use cl_regions::roles::Subject;
use sqlite_items::Items;
use std::alloc::Global;
use std::collections::BTreeMap;

/// The labels of functions by their names, of each the first.
#[derive(Drop)]
struct Chosen {
    alloc: Global,
    labels: BTreeMap<String, u32>,
}

impl Chosen {
    fn new(alloc: Global) -> Chosen
        ensures { (q : Word) → noted_at result q ≡ None }
    {
        Chosen {
            alloc,
            labels: BTreeMap::new(alloc),
        }
    }

    fn get(&self, name: &Name) -> Option<u32>
        ensures { result ≡ noted_at self.now name.now }
    {
        self.labels.get(name.text()).copied()
    }

    #[tactic(auto, using(std::proofs::lemmas::Map::Text::text_keys))]
    fn set(&mut self, name: &Name, label: u32) -> Result<(), NoMemory>
        ensures { OnOk result ((q : Word) → noted_at self.new q ≡ update bytes_eq (noted_at self.old) name.now (Some label) q) }
    {
        let key = String::from_str(self.alloc, name.text())?;
        self.labels.insert(key, label)?;
        Ok(())
    }

    /// Notes the label of an item, if it is a declaration of a function of which none is noted.
    fn add(&mut self, item: &Numbered<'_>) -> Result<(), NoMemory>
        ensures { OnOk result ((q : Word) → noted_at self.new q ≡ or_first (noted_at self.old q) (label_by q (subject_of item.now.subject) item.now.label None)) }
    {
        let (Subject::Function(name), Some(label)) = (item.subject, item.label) else {
            return Ok(());
        };
        match self.get(name) {
            Some(_) => Ok(()),
            None => self.set(name, label),
        }
    }

    fn of(alloc: Global, all: &[Numbered<'_>]) -> Result<Chosen, NoMemory>
        ensures { IfOk result (λ chosen. (q : Word) → noted_at chosen q ≡ function_label (numbered all.now) q) }
    {
        let mut chosen = Chosen::new(alloc);
        for item in all {
            chosen.add(item)?;
        }
        Ok(chosen)
    }
}

/// The label of each function that is defined, in the order of the definitions.
pub fn on_functions(
    alloc: Global,
    all: &[Numbered<'_>],
    functions: &[FnFact],
) -> Result<Items<Option<u32>>, NoMemory>
    ensures { IfOk result (λ found. found ≡ map (λ f. function_label (numbered all.now) f.name) functions.now) }
{
    let chosen = Chosen::of(alloc, all)?;
    let mut found = Items::new(alloc);
    for function in functions {
        found.push(chosen.get(&function.name))?;
    }
    Ok(found)
}
