//! Tables that are made as paths ask for them, and the places under paths.

ghost use Rattle.std.specs.Prelude.{◌≡◌, ◌++◌, true, IfOk, IfSome, IsTrue, Some};
ghost use Rattle.cl_mean.specs.Source.{function_at, source_of};
ghost use Rattle.rpc_codec.specs.Leaves.{leaves, payload_by};
ghost use Rattle.guard_places.specs.declared.tables.Owner.TheVariants as owner;
ghost use Rattle.guard_places.specs.Places.{chosen_places};
ghost use Rattle.guard_places.specs.Tables.{inner_places, IsKept, IsTable, owner_leaves};

use crate::inside::Inner;
use crate::places::{Place, push_places};
use crate::signature::signature_of;
use crate::table::Table;
use cl_base::name::{Name, NoMemory};
use cl_mean::checked::Checked;
use cl_tree::tree::Item;
use rpc_codec::signature::leaves_of;
use std::alloc::Global;
use std::marker::Model;

/// What has members: the struct that an item is, or the request or the reply of a function.
#[derive(Clone, Copy)]
pub(crate) enum Owner {
    Item(usize),
    Sent { function: u32, reply: bool },
}

/// A table, and what it is of.
#[derive(Drop)]
pub(crate) struct Kept {
    owner: Owner,
    table: Table,
}

fn same_owner(some: Owner, other: Owner) -> bool
    ensures { IsTrue result → some ≡ other }
{
    match (some, other) {
        (Owner::Item(k), Owner::Item(n)) => k == n,
        (
            Owner::Sent {
                function: f,
                reply: r,
            },
            Owner::Sent {
                function: g,
                reply: s,
            },
        ) => f == g && r == s,
        _ => false,
    }
}

/// The tables of a source, each made when a path first asks for it. Contracts see the source.
#[derive(Drop)]
pub struct Tables<'a> {
    checked: &'a Checked,
    slots: Vec<Option<Kept>>,
}

impl<'a> Model for Tables<'a> {
    ghost use Rattle.std.specs.Prelude.{All};
    ghost use Rattle.cl_mean.specs.declared.checked.Checked.{Checked};
    ghost use Rattle.guard_places.specs.Tables.{IsKept};
    ghost use Rattle.std.specs.Coded.{codes};
    ghost use Rattle.cl_tree.specs.contracts.tree.CType as t;
    ghost use Rattle.cl_tree.specs.contracts.tree.Expr as e;
    ghost use Rattle.cl_tree.specs.contracts.tree.Init as i;
    ghost use Rattle.cl_tree.specs.contracts.tree.Stmt as s;

    ghost Value = { Checked };

    ghost coded = { Prim.hlevel (codes, t.the_row.coded, e.the_row.coded, i.the_row.coded, s.the_row.coded) };

    ghost view = { λ p. p.checked.now };

    ghost invariant = { λ p. All (IsKept p.checked.now) p.slots.items };
}

/// The table of the struct that an item is, unless two members have one name.
fn item_table(alloc: Global, checked: &Checked, item: usize) -> Result<Option<Table>, NoMemory>
    ensures { IfOk result (λ o. IfSome o (λ t. IsTable checked.now.typed.program.items t (owner_leaves checked.now (owner.Item item)))) }
{
    let items = checked.typed.program.items.as_slice();
    let Some(found) = checked.typed.program.items.get(item) else {
        return Ok(None);
    };
    let Item::Struct { members, .. } = found else {
        return Ok(None);
    };
    let mut table = Table::new(alloc);
    if table.add_declarations(alloc, items, item, members.as_slice())? {
        return Ok(Some(table));
    }
    Ok(None)
}

/// The table of a payload, unless two of its members have one name.
fn sent_table(
    alloc: Global,
    checked: &Checked,
    function: u32,
    reply: bool,
) -> Result<Option<Table>, NoMemory>
    ensures { IfOk result (λ o. IfSome o (λ t. IsTable checked.now.typed.program.items t (owner_leaves checked.now (owner.Sent function reply)))) }
{
    let items = checked.typed.program.items.as_slice();
    let Some(signature) = signature_of(checked, function) else {
        return Ok(None);
    };
    let mut table = Table::new(alloc);
    if table.add_signature(alloc, items, signature.result, signature.params, reply)? {
        return Ok(Some(table));
    }
    Ok(None)
}

/// The integers under a path of a payload, by a walk over the payload.
fn walked(
    alloc: Global,
    checked: &Checked,
    function: u32,
    reply: bool,
    path: &[Name],
) -> Result<Vec<Place>, NoMemory>
    ensures { IfOk result (λ v. v.items ≡ chosen_places 0 (leaves (payload_by (function_at (source_of checked.now).functions function) reply) true path.now)) }
{
    let leaves = leaves_of(alloc, checked, function, reply, path)?;
    let mut places = Vec::new(alloc);
    push_places(&leaves, 0, &mut places)?;
    Ok(places)
}

impl<'a> Tables<'a> {
    /// No tables yet.
    pub fn new(alloc: Global, checked: &'a Checked) -> Result<Tables<'a>, NoMemory>
        ensures { IfOk result (λ p. p ≡ checked.now) }
    {
        let functions = checked.typed.functions.as_slice().len();
        let count = functions
            .saturating_mul(2)
            .saturating_add(checked.typed.program.items.as_slice().len());
        let mut slots = Vec::new(alloc);
        for _turn in 0..count {
            slots.push(None)?;
        }
        Ok(Tables { checked, slots })
    }

    /// The source.
    pub fn checked(&self) -> &'a Checked
        ensures { result.now ≡ self.now }
    {
        self.checked
    }

    /// Where the table of an owner is kept.
    fn slot(&self, owner: Owner) -> usize {
        match owner {
            Owner::Item(item) => item,
            Owner::Sent { function, reply } => {
                let items = self.checked.typed.program.items.as_slice().len();
                let sent = (function as usize)
                    .saturating_mul(2)
                    .saturating_add(usize::from(reply));
                items.saturating_add(sent)
            }
        }
    }

    /// The table of an owner, if it is there.
    fn get(&self, owner: Owner) -> Option<&Table>
        ensures { IfSome result (λ t. IsTable self.now.typed.program.items t.now (owner_leaves self.now owner)) }
    {
        match self.slots.get(self.slot(owner)) {
            Some(Some(kept)) => if same_owner(kept.owner, owner) {
                Some(&kept.table)
            } else {
                None
            },
            _ => None,
        }
    }

    /// Keeps a table.
    fn keep(&mut self, kept: Kept)
        requires { IsKept self.old (Some kept) }
        ensures { self.new ≡ self.old }
    {
        let slot = self.slot(kept.owner);
        if slot < self.slots.len() {
            self.slots[slot] = Some(kept);
        }
    }

    /// Makes the table of an owner, unless it is there.
    fn make(&mut self, alloc: Global, owner: Owner) -> Result<(), NoMemory>
        ensures { self.new ≡ self.old }
    {
        if self.get(owner).is_some() {
            return Ok(());
        }
        let made = match owner {
            Owner::Item(item) => item_table(alloc, self.checked, item)?,
            Owner::Sent { function, reply } => sent_table(alloc, self.checked, function, reply)?,
        };
        if let Some(table) = made {
            self.keep(Kept { owner, table });
        }
        Ok(())
    }

    /// Adds the integers under a path of what stands at a place; false where that can't be said by tables.
    #[cycle(push)]
    fn push(
        &mut self,
        alloc: Global,
        owner: Owner,
        at: usize,
        path: &[Name],
        out: &mut Vec<Place>,
    ) -> Result<bool, NoMemory>
        ensures kept { self.new ≡ self.old }
        ensures added { IfOk result (λ done. IsTrue done → out.new.items ≡ out.old.items ++ chosen_places at (owner_leaves self.old owner path.now)) }
    {
        let [name, rest @ ..] = path else {
            return Ok(false);
        };
        self.make(alloc, owner)?;
        let Some(table) = self.get(owner) else {
            return Ok(false);
        };
        let Some(member) = table.get(name) else {
            return Ok(true);
        };
        let Some(start) = at.checked_add(member.at) else {
            return Err(NoMemory);
        };
        if rest.is_empty() {
            push_places(&member.leaves, start, out)?;
            return Ok(true);
        }
        match member.inner {
            Some(inner) => self.push_each(alloc, inner, start, rest, out),
            None => Ok(true),
        }
    }

    /// The same for each of so many structs that stand there one behind the other.
    #[cycle(push)]
    fn push_each(
        &mut self,
        alloc: Global,
        inner: Inner,
        at: usize,
        path: &[Name],
        out: &mut Vec<Place>,
    ) -> Result<bool, NoMemory>
        ensures kept { self.new ≡ self.old }
        ensures added { IfOk result (λ done. IsTrue done → out.new.items ≡ out.old.items ++ inner_places self.old.typed.program.items (Some inner) path.now at) }
    {
        let owner = Owner::Item(inner.item);
        self.make(alloc, owner)?;
        let Some(table) = self.get(owner) else {
            return Ok(false);
        };
        let stride = table.count;
        let mut next = at;
        for _turn in 0..inner.elements {
            if !self.push(alloc, owner, next, path, out)? {
                return Ok(false);
            }
            next = match next.checked_add(stride) {
                Some(next) => next,
                None => return Err(NoMemory),
            };
        }
        Ok(true)
    }

    /// The integers under a path of the request of a function, or of its reply.
    pub fn places_under(
        &mut self,
        alloc: Global,
        function: u32,
        reply: bool,
        path: &[Name],
    ) -> Result<Vec<Place>, NoMemory>
        ensures kept { self.new ≡ self.old }
        ensures found { IfOk result (λ v. v.items ≡ chosen_places 0 (leaves (payload_by (function_at (source_of self.old).functions function) reply) true path.now)) }
    {
        let mut places = Vec::new(alloc);
        if self.push(alloc, Owner::Sent { function, reply }, 0, path, &mut places)? {
            return Ok(places);
        }
        walked(alloc, self.checked, function, reply, path)
    }
}
