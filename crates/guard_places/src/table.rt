//! The members of a struct, or of a payload, by their names.

ghost use Rattle.std.specs.Prelude.{◌≡◌, ◌++◌, ◌≤◌, [], List, length, take, true, IfOk, OnOk, IfSome, IsTrue, MatchOption, None, Some};
ghost use Rattle.std.specs.BTreeMap.{get_by_text};
ghost use Rattle.std.specs.List.{flat_map};
ghost use Rattle.std.specs.Map.{update};
ghost use Rattle.std.specs.Str.{bytes_eq};
ghost use Rattle.cl_mean.specs.Shape.{members_of, shape_of, structs_of};
ghost use Rattle.cl_tree.specs.declared.tree.Item.{Item as ItemValue};
ghost use Rattle.cl_tree.specs.Words.{Word};
ghost use Rattle.rpc_codec.specs.Leaves.{behind, leads_to, leaves, member_leaves};
ghost use Rattle.rpc_codec.specs.Signature.{array_leaves, if_array, signature_leaves};
ghost use Rattle.rpc_codec.specs.declared.leaves.Leaf.{Leaf as LeafValue};
ghost use Rattle.guard_places.specs.Tables.{IsInner, IsTable};

use crate::inside::{Inner, inside};
use cl_base::name::{Name, NoMemory};
use cl_tree::tree::{CType, Declaration, Declarator, Item};
use rpc_codec::leaves::Leaf;
use rpc_codec::signature::signature_leaves;
use std::alloc::Global;
use std::collections::BTreeMap;

/// A member: where its integers begin, counted from those of the whole, which they are, and the struct in it.
#[derive(Drop)]
pub(crate) struct Member {
    pub(crate) at: usize,
    pub(crate) leaves: Vec<Leaf>,
    pub(crate) inner: Option<Inner>,
}

/// Members by their names, and how many integers they have.
#[derive(Drop)]
pub(crate) struct Table {
    members: BTreeMap<String, Member>,
    pub(crate) count: usize,
}

/// The integers of a type.
fn all_of(alloc: Global, items: &[Item], ctype: &CType) -> Result<Vec<Leaf>, NoMemory>
    ensures { IfOk result (λ v. v.items ≡ leaves (shape_of (structs_of items.now) ctype.now) true []) }
{
    signature_leaves(alloc, items, ctype, &[], true, &[])
}

/// The struct in a type of which these are the integers; what has none is not looked into.
fn inner_of(
    items: &[Item],
    known: usize,
    ctype: &CType,
    all: &[Leaf],
) -> Result<Option<Inner>, NoMemory>
    requires known { known ≤ length items.now }
    requires all { all.now ≡ leaves (shape_of (structs_of (take known items.now)) ctype.now) true [] }
    ensures { IfOk result (λ inner. IsInner items.now inner (shape_of (structs_of (take known items.now)) ctype.now)) }
{
    if all.is_empty() {
        return Ok(None);
    }
    inside(items, known, ctype)
}

impl Table {
    pub(crate) fn new(alloc: Global) -> Table
        ensures { (items : List ItemValue) → IsTable items result (λ path. []) }
    {
        Table {
            members: BTreeMap::new(alloc),
            count: 0,
        }
    }

    /// The member of a name.
    pub(crate) fn get(&self, name: &Name) -> Option<&Member>
        ensures { MatchOption result (get_by_text self.now.members name.now ≡ None) (λ m. get_by_text self.now.members name.now ≡ Some m.now) }
    {
        self.members.get(name.text())
    }

    #[tactic(auto, using(std::proofs::lemmas::Map::Text::text_keys))]
    fn put(&mut self, alloc: Global, name: &str, member: Member) -> Result<(), NoMemory>
        ensures each { OnOk result ((q : Word) → get_by_text self.new.members q ≡ update bytes_eq (get_by_text self.old.members) name.now (Some member) q) }
        ensures count { self.new.count ≡ self.old.count }
    {
        let key = String::from_str(alloc, name)?;
        self.members.insert(key, member)?;
        Ok(())
    }

    /// Adds a member, unless there is one of its name.
    fn add(
        &mut self,
        alloc: Global,
        items: &[Item],
        known: usize,
        name: &str,
        ctype: &CType,
    ) -> Result<bool, NoMemory>
        requires { known ≤ length items.now }
        ensures { IfOk result (λ added. IsTrue added → (front : List Word → List LeafValue) → IsTable items.now self.old front
            → IsTable items.now self.new (λ path. front path ++ leaves (shape_of (structs_of (take known items.now)) ctype.now) (leads_to true path name.now) (behind path))) }
    {
        if self.members.contains_key(name) {
            return Ok(false);
        }
        let leaves = all_of(alloc, &items[..known], ctype)?;
        let Some(count) = self.count.checked_add(leaves.len()) else {
            return Err(NoMemory);
        };
        let inner = inner_of(items, known, ctype, &leaves)?;
        let at = self.count;
        self.put(alloc, name, Member { at, leaves, inner })?;
        self.count = count;
        Ok(true)
    }

    /// Adds members, unless two have one name.
    pub(crate) fn add_all(
        &mut self,
        alloc: Global,
        items: &[Item],
        known: usize,
        names: &[Declarator],
    ) -> Result<bool, NoMemory>
        requires { known ≤ length items.now }
        ensures { IfOk result (λ added. IsTrue added → (front : List Word → List LeafValue) → IsTable items.now self.old front
            → IsTable items.now self.new (λ path. front path ++ member_leaves (members_of (structs_of (take known items.now)) names.now) true path)) }
    {
        for name in names {
            if !self.add(alloc, items, known, name.name.text(), &name.ctype)? {
                return Ok(false);
            }
        }
        Ok(true)
    }

    /// Adds the members of a struct, unless two have one name.
    pub(crate) fn add_declarations(
        &mut self,
        alloc: Global,
        items: &[Item],
        known: usize,
        declarations: &[Declaration],
    ) -> Result<bool, NoMemory>
        requires { known ≤ length items.now }
        ensures { IfOk result (λ added. IsTrue added → (front : List Word → List LeafValue) → IsTable items.now self.old front
            → IsTable items.now self.new (λ path. front path ++ member_leaves (members_of (structs_of (take known items.now)) (flat_map (λ d. d.names) declarations.now)) true path)) }
    {
        for declaration in declarations {
            if !self.add_all(alloc, items, known, declaration.names.as_slice())? {
                return Ok(false);
            }
        }
        Ok(true)
    }

    /// Adds a parameter if it is an array.
    fn add_if_array(
        &mut self,
        alloc: Global,
        items: &[Item],
        param: &Declarator,
    ) -> Result<bool, NoMemory>
        ensures { IfOk result (λ added. IsTrue added → (front : List Word → List LeafValue) → IsTable items.now self.old front
            → IsTable items.now self.new (λ path. front path ++ if_array (shape_of (structs_of items.now) param.now.ctype) (leads_to true path param.now.name) (behind path))) }
    {
        match &param.ctype {
            CType::Array(..) => {
                let added = self.add(alloc, items, items.len(), param.name.text(), &param.ctype)?;
                Ok(added)
            }
            _ => Ok(true),
        }
    }

    /// Adds the parameters that are arrays, unless two have one name.
    fn add_arrays(
        &mut self,
        alloc: Global,
        items: &[Item],
        params: &[Declarator],
    ) -> Result<bool, NoMemory>
        ensures { IfOk result (λ added. IsTrue added → (front : List Word → List LeafValue) → IsTable items.now self.old front
            → IsTable items.now self.new (λ path. front path ++ array_leaves (structs_of items.now) params.now path)) }
    {
        for param in params {
            if !self.add_if_array(alloc, items, param)? {
                return Ok(false);
            }
        }
        Ok(true)
    }

    /// Adds what a request has, or a reply, unless two have one name.
    pub(crate) fn add_signature(
        &mut self,
        alloc: Global,
        items: &[Item],
        returns: &CType,
        params: &[Declarator],
        reply: bool,
    ) -> Result<bool, NoMemory>
        ensures { IfOk result (λ added. IsTrue added → (front : List Word → List LeafValue) → IsTable items.now self.old front
            → IsTable items.now self.new (λ path. front path ++ signature_leaves (structs_of items.now) reply (Some (record { result = returns.now; params = params.now })) path)) }
    {
        if !reply {
            let added = self.add_all(alloc, items, items.len(), params)?;
            return Ok(added);
        }
        if !self.add(alloc, items, items.len(), "return", returns)? {
            return Ok(false);
        }
        let added = self.add_arrays(alloc, items, params)?;
        Ok(added)
    }
}
