//! The places where a region is bad.

ghost use Rattle.std.specs.Prelude.{◌≡◌, ◌<◌, ◌-◌, ◌^◌, ◌++◌, ◌∷◌, [], List, length, map, option_map, reverse, OnOk, None, Some};
ghost use Rattle.cl_tree.specs.Words.{Word};
ghost use Rattle.cl_typing.specs.Rules as rules;
ghost use Rattle.cl_labelling.specs.Regions as regions;
ghost use Rattle.cl_labelling.specs.Regions.{Part, stmt_part, item_part, open_after, bad_regions};
ghost use Rattle.cl_scope.specs.Finds.{Finds};
ghost use Rattle.cl_regions.specs.Roles.{role_of};
ghost use Rattle.cl_regions.specs.Ahead.{all_ahead, is_regular_ahead};
ghost use Rattle.cl_regions.specs.Bag.{Holds};
ghost use Rattle.cl_regions.specs.Walks.{IsAt};

use crate::ahead::{items_ahead, stmts_ahead};
use crate::bag::Bag;
use crate::roles::{Role, item_line, item_role, stmt_role};
use cl_scope::search::unless;
use cl_scope::stop::Stop;
use cl_tree::token::Pragma;
use cl_tree::tree::{Act, Item, Program, Stmt};
use sqlite_items::{Boxed, Items};
use std::alloc::Global;

/// A walk over the parts of a file or of a block: the regions that are open, and whether the parts that
/// are left are regular in view of those behind them, the last one first.
#[derive(Drop)]
struct Walk<'a> {
    regions: Bag<'a>,
    ahead: Vec<bool>,
}

/// Whether a part is regular, where it is known whether it is so in view of those behind it.
fn regular_here(begun: &Bag<'_>, role: Role<'_>, ahead: bool) -> bool
    ensures { (names : List Word) (ps : List Part) → Holds begun.now names
        → ahead ≡ is_regular_ahead ps (role_of role.entry)
        → result ≡ regions.is_regular names ps (role_of role.entry) }
{
    match role {
        Role::Says(Pragma::End(name)) => begun.has(name),
        Role::Says(Pragma::Begin(_) | Pragma::Next(_) | Pragma::Def(_, _))
        | Role::Item(_)
        | Role::PassedOver
        | Role::Bars => ahead,
    }
}

impl<'a> Walk<'a> {
    /// Whether the next part is regular.
    fn is_regular(&mut self, role: Role<'a>) -> bool
        ensures value { (begun : List Word) (p : Part) (ps : List Part) → IsAt self.old begun (p ∷ ps)
            → p.role ≡ role_of role.entry → result ≡ regions.is_regular begun ps p.role }
        ensures here { (begun : List Word) (p : Part) (ps : List Part) → IsAt self.old begun (p ∷ ps)
            → IsAt self.new begun ps }
    {
        let ahead = self.ahead.pop().unwrap_or(false);
        regular_here(&self.regions, role, ahead)
    }

    /// Goes over the next part.
    fn step(&mut self, role: Role<'a>, line: u32) -> Result<(), Stop>
        ensures places { (begun : List Word) (p : Part) (ps : List Part) → IsAt self.old begun (p ∷ ps)
            → p.role ≡ role_of role.entry → Finds result (rules.unless (regions.is_regular begun ps p.role) line) }
        ensures here { (begun : List Word) (p : Part) (ps : List Part) → IsAt self.old begun (p ∷ ps)
            → p.role ≡ role_of role.entry → length begun < 2 ^ 64 - 1
            → OnOk result (IsAt self.new (open_after begun p.role) ps) }
    {
        let regular = self.is_regular(role);
        unless(regular, line)?;
        self.regions.pass(role)?;
        Ok(())
    }
}

/// The first bad place within a statement.
#[cycle(stmt)]
#[tactic(auto, unfolding(cl_labelling::specs::Regions::stmt_part), using(cl_scope::proofs::Searches::searches))]
fn look_stmt(alloc: Global, s: &Stmt) -> Result<(), Stop>
    ensures { Finds result (stmt_part s.now).flaws }
{
    match &s.node {
        Act::Block(ss) => look_all(alloc, ss.as_slice()),
        Act::If(_, body, other) => {
            look_stmt(alloc, body.get())?;
            look_optional(alloc, other)
        }
        Act::While(_, body) => look_stmt(alloc, body.get()),
        Act::DoWhile(body, _) => look_stmt(alloc, body.get()),
        Act::For {
            first: _,
            test: _,
            next: _,
            body,
        } => look_stmt(alloc, body.get()),
        Act::Declare(_)
        | Act::Empty
        | Act::Set {
            op: _,
            place: _,
            value: _,
        }
        | Act::Bump {
            up: _,
            prefix: _,
            place: _,
        }
        | Act::Call(_)
        | Act::Return(_)
        | Act::Break
        | Act::Continue
        | Act::Cle(_) => Ok(()),
    }
}

#[cycle(stmt)]
fn look_optional(alloc: Global, s: &Option<Boxed<Stmt>>) -> Result<(), Stop>
    ensures { Finds result (regions.maybe_flaws (option_map stmt_part s.now)) }
{
    match s {
        Some(s) => look_stmt(alloc, s.get()),
        None => Ok(()),
    }
}

/// The first bad place among the statements of a block.
#[cycle(stmt)]
fn look_all(alloc: Global, all: &[Stmt]) -> Result<(), Stop>
    ensures { Finds result (bad_regions [] (map stmt_part all.now)) }
{
    let ahead = stmts_ahead(alloc, all)?;
    let mut walk = Walk {
        regions: Bag::new(alloc),
        ahead,
    };
    for s in all {
        walk.step(stmt_role(s), s.line)?;
        look_stmt(alloc, s)?;
    }
    Ok(())
}

#[tactic(auto, unfolding(cl_labelling::specs::Regions::body_flaws))]
fn look_body(alloc: Global, body: &Option<Items<Stmt>>) -> Result<(), Stop>
    ensures { Finds result (regions.body_flaws body.now) }
{
    match body {
        Some(ss) => look_all(alloc, ss.as_slice()),
        None => Ok(()),
    }
}

/// The first bad place within an item.
#[tactic(auto, unfolding(cl_labelling::specs::Regions::item_part))]
fn look_item(alloc: Global, item: &Item) -> Result<(), Stop>
    ensures { Finds result (item_part item.now).flaws }
{
    match item {
        Item::Function {
            is_static: _,
            result: _,
            name: _,
            void_word: _,
            params: _,
            body,
            line: _,
            second: _,
        } => look_body(alloc, body),
        _ => Ok(()),
    }
}

fn look_items(alloc: Global, items: &[Item]) -> Result<(), Stop>
    ensures { Finds result (bad_regions [] (map item_part items.now)) }
{
    let ahead = items_ahead(alloc, items)?;
    let mut walk = Walk {
        regions: Bag::new(alloc),
        ahead,
    };
    for item in items {
        walk.step(item_role(item), item_line(item))?;
        look_item(alloc, item)?;
    }
    Ok(())
}

/// The first place where a region is bad: an `end` without its `begin`, a `begin` that isn't ended in its
/// block or file, or a pragma for the next item with none following.
#[tactic(auto, unfolding(cl_labelling::specs::Regions::bad_region))]
pub fn bad_region(alloc: Global, program: &Program) -> Result<(), Stop>
    ensures { Finds result (regions.bad_region program.now) }
{
    look_items(alloc, program.items.as_slice())
}
