//! What lies ahead of the parts of a file or of a block: which regions are ended, and whether an item
//! follows.

ghost use Rattle.std.specs.Prelude.{◌≡◌, ◌<◌, ◌-◌, ◌^◌, ◌∷◌, [], List, length, map, reverse, OnOk, IfOk};
ghost use Rattle.cl_labelling.specs.Regions as regions;
ghost use Rattle.cl_labelling.specs.Regions.{Part, stmt_part, item_part};
ghost use Rattle.cl_regions.specs.Roles.{role_of};
ghost use Rattle.cl_regions.specs.Ahead.{all_ahead, is_regular_ahead};
ghost use Rattle.cl_regions.specs.Walks.{IsAhead};

use crate::bag::Bag;
use crate::roles::{Role, item_role, stmt_role};
use cl_base::name::{Name, NoMemory};
use cl_tree::token::Pragma;
use cl_tree::tree::{Item, Stmt};
use std::alloc::Global;

/// What is known of some parts, from the last one on: the ends that have no `begin` among them, whether
/// an item is the first that counts, and, for each part, the last one first, whether it is regular in
/// view of those behind it.
#[derive(Drop)]
struct Ahead<'a> {
    ends: Bag<'a>,
    has_next: bool,
    regular: Vec<bool>,
}

/// Whether an item follows before a part.
fn next_before(role: Role<'_>, has_next: bool) -> bool
    ensures { result ≡ regions.next_by (role_of role.entry) has_next }
{
    match role {
        Role::Item(_) => true,
        Role::Bars => false,
        Role::Says(_) | Role::PassedOver => has_next,
    }
}

impl<'a> Ahead<'a> {
    fn new(alloc: Global) -> Ahead<'a>
        ensures { IsAhead result [] }
    {
        Ahead {
            ends: Bag::new(alloc),
            has_next: false,
            regular: Vec::new(alloc),
        }
    }

    /// Whether a region that begins before these parts is ended in them.
    fn is_ended(&self, name: &Name) -> bool
        ensures { (ps : List Part) → IsAhead self.now ps → result ≡ regions.is_ended name.now 0 ps }
    {
        self.ends.has(name)
    }

    /// Whether a part before these is regular in view of them.
    fn is_regular(&self, role: Role<'a>) -> bool
        ensures { (ps : List Part) → IsAhead self.now ps → result ≡ is_regular_ahead ps (role_of role.entry) }
    {
        match role {
            Role::Says(Pragma::Begin(name)) => self.is_ended(name),
            Role::Says(Pragma::Next(_)) => self.has_next,
            Role::Says(Pragma::End(_) | Pragma::Def(_, _))
            | Role::Item(_)
            | Role::PassedOver
            | Role::Bars => true,
        }
    }

    /// Goes back over a part.
    fn note(&mut self, role: Role<'a>) -> Result<(), NoMemory>
        ensures { (p : Part) (ps : List Part) → IsAhead self.old ps → p.role ≡ role_of role.entry
            → length ps < 2 ^ 64 - 1 → OnOk result (IsAhead self.new (p ∷ ps)) }
    {
        let regular = self.is_regular(role);
        self.regular.push(regular)?;
        self.ends.pass_back(role)?;
        self.has_next = next_before(role, self.has_next);
        Ok(())
    }
}

/// Whether the statements of a block are regular in view of those behind them, the last one first.
pub fn stmts_ahead(alloc: Global, ss: &[Stmt]) -> Result<Vec<bool>, NoMemory>
    ensures { IfOk result (λ all. all.items ≡ reverse (all_ahead (map stmt_part ss.now))) }
{
    let mut ahead = Ahead::new(alloc);
    for i in 0..ss.len() {
        let s = &ss[ss.len() - 1 - i];
        ahead.note(stmt_role(s))?;
    }
    Ok(ahead.regular)
}

/// Whether the items of a file are regular in view of those behind them, the last one first.
pub fn items_ahead(alloc: Global, items: &[Item]) -> Result<Vec<bool>, NoMemory>
    ensures { IfOk result (λ all. all.items ≡ reverse (all_ahead (map item_part items.now))) }
{
    let mut ahead = Ahead::new(alloc);
    for i in 0..items.len() {
        let item = &items[items.len() - 1 - i];
        ahead.note(item_role(item))?;
    }
    Ok(ahead.regular)
}
