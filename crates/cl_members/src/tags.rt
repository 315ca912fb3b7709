//! The structs that are known at a place.

ghost use Rattle.std.specs.Prelude.{◌≡◌, ◌∷◌, [], option_map, OnOk, OnErr};
ghost use Rattle.cl_typing.specs.Scope.{binding, structure, fields_of, declarators, members_of};

use crate::fields::Fields;
use cl_base::name::{Name, NoMemory};
use cl_scope::latest::Latest;
use cl_tree::tree::Declaration;
use std::alloc::Global;
use std::marker::Model;

#[derive(Drop)]
struct Tag<'a> {
    name: &'a Name,
    fields: Fields<'a>,
}

/// The structs in the order in which they came, and the place of each tag's last one. Contracts see
/// the list of their bindings, the last one first.
#[derive(Drop)]
pub struct Tags<'a> {
    alloc: Global,
    tags: Vec<Tag<'a>>,
    latest: Latest,
}

impl<'a> Model for Tags<'a> {
    ghost use Rattle.std.specs.Prelude.{List};
    ghost use Rattle.cl_typing.specs.Scope.{Binding};
    ghost use Rattle.cl_members.specs.Tags.{tags_in, IsTagged};
    ghost use Rattle.std.specs.Coded.{codes};
    ghost use Rattle.cl_tree.specs.contracts.tree.CType as t;

    ghost Value = { List Binding };

    ghost coded = { Prim.hlevel (codes, t.the_row.coded) };

    ghost view = { λ s. tags_in s.tags.items };

    ghost invariant = { λ s. IsTagged s.tags.items s.latest };
}

impl<'a> Tags<'a> {
    pub fn new(alloc: Global) -> Tags<'a>
        ensures { result ≡ [] }
    {
        Tags {
            alloc,
            tags: Vec::new(alloc),
            latest: Latest::new(alloc),
        }
    }

    /// The members of a struct.
    #[tactic(auto, unfolding(cl_typing::specs::Scope::members_of))]
    pub fn find(&self, tag: &Name) -> Option<&Fields<'a>>
        ensures { option_map (λ f. f.now) result ≡ members_of self.now tag.now }
    {
        match self.latest.get(tag) {
            Some(place) => match self.tags.get(place) {
                Some(held) => Some(&held.fields),
                None => None,
            },
            None => None,
        }
    }

    /// A struct becomes known.
    pub fn bind(&mut self, name: &'a Name, members: &'a [Declaration]) -> Result<(), NoMemory>
        ensures ok { OnOk result (self.new ≡ binding name.now (structure (fields_of (declarators members.now))) ∷
            self.old) }
        ensures err { OnErr result (self.new ≡ self.old) }
    {
        let place = self.tags.as_slice().len();
        let fields = Fields::of(self.alloc, members)?;
        self.tags.push(Tag { name, fields })?;
        match self.latest.set(self.alloc, name, place) {
            Ok(()) => Ok(()),
            Err(_) => {
                self.tags.pop();
                Err(NoMemory)
            }
        }
    }
}
