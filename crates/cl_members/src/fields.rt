//! The members of a struct, by their places and by their names.

ghost use Rattle.std.specs.Prelude.{◌≡◌, ◌∷◌, ◌++◌, [], drop, option_map, slice_get, OnOk, OnErr, IfOk};
ghost use Rattle.cl_typing.specs.Scope.{Field, fields_of, declarators};
ghost use Rattle.cl_typing.specs.Types.{member_type};
ghost use Rattle.cl_members.specs.Fields.{field_of};

use cl_base::name::{Name, NoMemory};
use cl_scope::latest::Latest;
use cl_tree::tree::{CType, Declaration, Declarator};
use std::alloc::Global;
use std::marker::Model;

/// The members in order, and the place of each name's first one. Contracts see the list of members.
#[derive(Drop)]
pub struct Fields<'a> {
    alloc: Global,
    fields: Vec<&'a Declarator>,
    first: Latest,
}

impl<'a> Model for Fields<'a> {
    ghost use Rattle.std.specs.Prelude.{List};
    ghost use Rattle.cl_typing.specs.Scope.{Field};
    ghost use Rattle.cl_members.specs.Fields.{fields_in, IsIndexed};
    ghost use Rattle.std.specs.Coded.{codes};
    ghost use Rattle.cl_tree.specs.contracts.tree.CType as t;

    ghost Value = { List Field };

    ghost coded = { Prim.hlevel (codes, t.the_row.coded) };

    ghost view = { λ s. fields_in s.fields.items };

    ghost invariant = { λ s. IsIndexed s.fields.items s.first };
}

impl<'a> Fields<'a> {
    fn new(alloc: Global) -> Fields<'a>
        ensures { result ≡ [] }
    {
        Fields {
            alloc,
            fields: Vec::new(alloc),
            first: Latest::new(alloc),
        }
    }

    /// The members that declarations declare.
    #[tactic(auto, unfolding(cl_typing::specs::Scope::declarators))]
    pub fn of(alloc: Global, members: &'a [Declaration]) -> Result<Fields<'a>, NoMemory>
        ensures { IfOk result (λ fields. fields ≡ fields_of (declarators members.now)) }
    {
        let mut fields = Fields::new(alloc);
        for m in members {
            fields.push_all(m.names.as_slice())?;
        }
        Ok(fields)
    }

    fn push_all(&mut self, ds: &'a [Declarator]) -> Result<(), NoMemory>
        ensures { OnOk result (self.new ≡ self.old ++ fields_of ds.now) }
    {
        for d in ds {
            self.push(d)?;
        }
        Ok(())
    }

    fn push(&mut self, d: &'a Declarator) -> Result<(), NoMemory>
        ensures ok { OnOk result (self.new ≡ self.old ++ field_of d.now ∷ []) }
        ensures err { OnErr result (self.new ≡ self.old) }
    {
        let place = self.fields.as_slice().len();
        let held = self.first.get(&d.name);
        self.fields.push(d)?;
        match held {
            Some(_) => Ok(()),
            None => match self.first.set(self.alloc, &d.name, place) {
                Ok(()) => Ok(()),
                Err(_) => {
                    self.fields.pop();
                    Err(NoMemory)
                }
            },
        }
    }

    /// The type of the member at a place.
    pub fn get(&self, place: usize) -> Option<&'a CType>
        ensures { option_map (λ t. t.now) result ≡ option_map (λ (f : Field). f.ctype) (slice_get self.now place) }
    {
        match self.fields.get(place) {
            Some(d) => Some(&d.ctype),
            None => None,
        }
    }

    /// The type of the member of a name.
    pub fn find(&self, name: &Name) -> Option<&'a CType>
        ensures { option_map (λ t. t.now) result ≡ member_type name.now self.now }
    {
        match self.first.get(name) {
            Some(place) => self.get(place),
            None => None,
        }
    }
}
