//! How the functions of a program are declared.

ghost use Rattle.std.specs.Prelude.{◌≡◌, ◌++◌, [], Some, None, IfOk, OnOk, is_some, option_map};
ghost use Rattle.std.specs.List.{flat_map};
ghost use Rattle.std.specs.Map.{update};
ghost use Rattle.std.specs.Str.{bytes_eq};
ghost use Rattle.cl_labelling.specs.Fits.{defined_by, declared_by};
ghost use Rattle.cl_tree.specs.Words.{Word};
ghost use Rattle.cle_share.specs.Signatures.{if_named, known, noted_at, or_first, parts_in, signatures_in};

use cl_base::name::{Name, NoMemory};
use cl_tree::tree::{CType, Declarator, Item};
use std::alloc::Global;
use std::collections::BTreeMap;

/// The result and the parameters of a function.
#[derive(Clone, Copy, Drop)]
pub struct Signature<'a> {
    pub result: &'a CType,
    pub params: &'a [Declarator],
}

/// The signatures of functions by their names: of each the definition's, and where there is none the first declaration's.
#[derive(Drop)]
pub struct Signatures<'a> {
    alloc: Global,
    by_name: BTreeMap<String, Signature<'a>>,
}

impl<'a> Signatures<'a> {
    fn new(alloc: Global) -> Signatures<'a>
        ensures { (q : Word) → noted_at result q ≡ None }
    {
        Signatures {
            alloc,
            by_name: BTreeMap::new(alloc),
        }
    }

    /// The signature of a function that is declared.
    pub fn get(&self, name: &Name) -> Option<Signature<'a>>
        ensures { option_map parts_in result ≡ noted_at self.now name.now }
    {
        self.by_name.get(name.text()).copied()
    }

    #[tactic(auto, using(std::proofs::lemmas::Map::Text::text_keys))]
    fn set(&mut self, name: &Name, signature: Signature<'a>) -> Result<(), NoMemory>
        ensures { OnOk result ((q : Word) → noted_at self.new q ≡ update bytes_eq (noted_at self.old) name.now (Some (parts_in signature.entry)) q) }
    {
        let key = String::from_str(self.alloc, name.text())?;
        self.by_name.insert(key, signature)?;
        Ok(())
    }

    /// Notes a signature, where none of its name is noted.
    fn add(&mut self, name: &Name, signature: Signature<'a>) -> Result<(), NoMemory>
        ensures { OnOk result ((q : Word) → noted_at self.new q ≡ or_first (noted_at self.old q) (if_named name.now (parts_in signature.entry) q)) }
    {
        match self.get(name) {
            Some(_) => Ok(()),
            None => self.set(name, signature),
        }
    }

    /// Notes what an item defines, or declares.
    #[tactic(auto, unfolding(crate::specs::Signatures::known, cl_labelling::specs::Fits::signature_among))]
    fn add_item(&mut self, definitions: bool, item: &'a Item) -> Result<(), NoMemory>
        ensures { OnOk result ((q : Word) → noted_at self.new q ≡ or_first (noted_at self.old q) (known (signatures_in definitions item.now) q)) }
    {
        let Item::Function {
            result,
            name,
            params,
            body,
            ..
        } = item
        else {
            return Ok(());
        };
        if definitions && body.is_none() {
            return Ok(());
        }
        let params = params.as_slice();
        self.add(name, Signature { result, params })
    }

    fn add_items(&mut self, definitions: bool, items: &'a [Item]) -> Result<(), NoMemory>
        ensures { OnOk result ((q : Word) → noted_at self.new q ≡ or_first (noted_at self.old q) (known (flat_map (signatures_in definitions) items.now) q)) }
    {
        for item in items {
            self.add_item(definitions, item)?;
        }
        Ok(())
    }

    /// The signatures of a program's functions.
    pub fn of(alloc: Global, items: &'a [Item]) -> Result<Signatures<'a>, NoMemory>
        ensures { IfOk result (λ all. (q : Word) → noted_at all q ≡ known (flat_map defined_by items.now ++ flat_map declared_by items.now) q) }
    {
        let mut all = Signatures::new(alloc);
        all.add_items(true, items)?;
        all.add_items(false, items)?;
        Ok(all)
    }
}
