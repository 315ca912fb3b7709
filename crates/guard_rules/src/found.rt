//! The places under paths of payloads, kept from one field of a policy to the next.

ghost use Rattle.std.specs.Prelude.{◌≡◌, IsTrue, IfOk, IfSome, Some};
ghost use Rattle.guard_rules.specs.Places.{places_of, IsRight};
ghost use Rattle.guard_rules.specs.Policy.{payload};

use cl_base::name::{Name, NoMemory};
use cl_mean::checked::Checked;
use guard_places::places::Place;
use guard_places::tables::Tables;
use std::alloc::Global;
use std::marker::Model;

/// The request of a function, or its reply; a rule for all functions has no payload.
#[derive(Clone, Copy)]
pub(crate) struct Sent {
    pub(crate) function: Option<u32>,
    pub(crate) reply: bool,
}

/// What lies under a path of a payload.
#[derive(Drop)]
pub(crate) struct Found<'a> {
    pub(crate) sent: Sent,
    pub(crate) path: &'a [Name],
    pub(crate) places: Vec<Place>,
}

fn same_sent(some: Sent, other: Sent) -> bool
    ensures { IsTrue result → (some.function ≡ other.function) × (some.reply ≡ other.reply) }
{
    match (some.function, other.function) {
        (Some(f), Some(g)) => f == g && some.reply == other.reply,
        (None, None) => some.reply == other.reply,
        _ => false,
    }
}

fn same_path(some: &[Name], other: &[Name]) -> bool
    ensures { IsTrue result → some.now ≡ other.now }
{
    some == other
}

/// Whether this is what was found under that path.
fn is_of(found: &Found<'_>, sent: Sent, path: &[Name]) -> bool
    ensures { IsTrue result → (found.now.sent.function ≡ sent.function) × (found.now.sent.reply ≡ sent.reply) × (found.now.path.now ≡ path.now) }
{
    same_sent(found.sent, sent) && same_path(found.path, path)
}

/// A number that most names change in ways of their own.
fn mixed(start: u64, name: &Name) -> u64 {
    let mut mix = start;
    for byte in name.as_bytes() {
        mix = (mix ^ u64::from(*byte)).wrapping_mul(0x100_0000_01b3);
    }
    (mix ^ 0x2e).wrapping_mul(0x100_0000_01b3)
}

/// Where a path is kept among so many: any place would do, and a place that few others have makes it quick.
fn slot_of(count: usize, sent: Sent, path: &[Name]) -> usize {
    let mut mix = u64::from(sent.function.unwrap_or(0)) * 2 + u64::from(sent.reply);
    for name in path {
        mix = mixed(mix, name);
    }
    if count == 0 {
        return 0;
    }
    (mix ^ (mix >> 32)) as usize % count
}

/// Paths of a source's payloads with what lies under them, at most one at each slot, so that a path which many fields have is not
/// looked for again. Contracts see the source.
#[derive(Drop)]
pub(crate) struct Paths<'a> {
    tables: Tables<'a>,
    slots: Vec<Option<Found<'a>>>,
}

impl<'a> Model for Paths<'a> {
    ghost use Rattle.std.specs.Prelude.{All};
    ghost use Rattle.cl_mean.specs.declared.checked.Checked.{Checked};
    ghost use Rattle.guard_rules.specs.Places.{IsRight};
    ghost use Rattle.std.specs.Coded.{codes};
    ghost use Rattle.cl_tree.specs.contracts.tree.CType as t;
    ghost use Rattle.cl_tree.specs.contracts.tree.Expr as e;
    ghost use Rattle.cl_tree.specs.contracts.tree.Init as i;
    ghost use Rattle.cl_tree.specs.contracts.tree.Stmt as s;

    ghost Value = { Checked };

    ghost coded = { Prim.hlevel (codes, t.the_row.coded, e.the_row.coded, i.the_row.coded, s.the_row.coded) };

    ghost view = { λ p. p.tables };

    ghost invariant = { λ p. All (IsRight p.tables) p.slots.items };
}

impl<'a> Paths<'a> {
    /// Room for so many paths.
    pub(crate) fn new(
        alloc: Global,
        checked: &'a Checked,
        count: usize,
    ) -> Result<Paths<'a>, NoMemory>
        ensures { IfOk result (λ p. p ≡ checked.now) }
    {
        let mut slots = Vec::new(alloc);
        for _turn in 0..count {
            slots.push(None)?;
        }
        let tables = Tables::new(alloc, checked)?;
        Ok(Paths { tables, slots })
    }

    /// The source.
    pub(crate) fn checked(&self) -> &'a Checked
        ensures { result.now ≡ self.now }
    {
        self.tables.checked()
    }

    /// The integers under a path.
    pub(crate) fn find(
        &mut self,
        alloc: Global,
        sent: Sent,
        path: &[Name],
    ) -> Result<Vec<Place>, NoMemory>
        ensures kept { self.new ≡ self.old }
        ensures found { IfOk result (λ v. v.items ≡ places_of (payload self.old sent.function sent.reply) path.now) }
    {
        let Some(function) = sent.function else {
            return Ok(Vec::new(alloc));
        };
        let places = self.tables.places_under(alloc, function, sent.reply, path)?;
        Ok(places)
    }

    /// What is kept of a path.
    pub(crate) fn get(&self, sent: Sent, path: &[Name]) -> Option<&[Place]>
        ensures { IfSome result (λ v. v.now ≡ places_of (payload self.now sent.function sent.reply) path.now) }
    {
        match self.slots.get(slot_of(self.slots.len(), sent, path)) {
            Some(Some(found)) => if is_of(found, sent, path) {
                Some(found.places.as_slice())
            } else {
                None
            },
            _ => None,
        }
    }

    /// Keeps what lies under a path, in the place of another that had its slot.
    pub(crate) fn keep(&mut self, found: Found<'a>)
        requires { IsRight self.old (Some found) }
        ensures { self.new ≡ self.old }
    {
        let slot = slot_of(self.slots.len(), found.sent, found.path);
        if slot < self.slots.len() {
            self.slots[slot] = Some(found);
        }
    }
}
