//! The items of a program with their labels.

ghost use Rattle.std.specs.Prelude.{◌≡◌, ◌<◌, ◌-◌, ◌^◌, ◌++◌, ◌∷◌, [], List, length, map, option_map, OnOk, IfOk};
ghost use Rattle.cl_tree.specs.Words.{Word};
ghost use Rattle.cl_labelling.specs.Regions as regions;
ghost use Rattle.cl_labelling.specs.Regions.{stmt_part, item_part, open_after, waiting_after, itself, marked_in};
ghost use Rattle.cl_regions.specs.Few.{few};
ghost use Rattle.cl_regions.specs.Few as few;
ghost use Rattle.cl_regions.specs.Roles.{role_of};
ghost use Rattle.cl_regions.specs.Marks.{all_kept, kept_all, IsAround};

use crate::bag::Bag;
use crate::labels::{Labels, both};
use crate::roles::{Role, Subject, item_line, item_role, stmt_role};
use cl_base::name::NoMemory;
use cl_tree::token::Pragma;
use cl_tree::tree::{Act, Item, Program, Stmt};
use sqlite_items::{Boxed, Items};
use std::alloc::Global;

/// An item, with the line of its first token and its labels.
#[derive(Clone, Copy, Drop)]
pub struct Marked<'a> {
    pub subject: Subject<'a>,
    pub line: u32,
    pub labels: Labels<'a>,
}

/// The regions that are open at a place, and the pragmas that wait there for the next item.
#[derive(Drop)]
struct Around<'a> {
    regions: Bag<'a>,
    waiting: Labels<'a>,
}

/// The pragmas that wait for the next item behind a part.
fn waiting_behind<'a>(waiting: Labels<'a>, role: Role<'a>) -> Labels<'a>
    ensures { (ws : List Word) → few.few_of waiting.entry ≡ few ws
        → few.few_of result ≡ few (waiting_after ws (role_of role.entry)) }
{
    match role {
        Role::Says(Pragma::Next(name)) => both(Labels::One(name), waiting),
        Role::Says(Pragma::Begin(_) | Pragma::End(_) | Pragma::Def(_, _)) | Role::PassedOver => {
            waiting
        }
        Role::Item(_) | Role::Bars => Labels::Nothing,
    }
}

impl<'a> Around<'a> {
    fn new(alloc: Global) -> Around<'a>
        ensures { IsAround result [] [] }
    {
        Around {
            regions: Bag::new(alloc),
            waiting: Labels::Nothing,
        }
    }

    /// The labels of an item that stands here.
    fn labels(&self) -> Labels<'a>
        ensures { (begun waiting : List Word) → IsAround self.now begun waiting
            → few.few_of result ≡ few (waiting ++ begun) }
    {
        both(self.waiting, self.regions.labels())
    }

    /// Goes over a part.
    fn pass(&mut self, role: Role<'a>) -> Result<(), NoMemory>
        ensures { (begun waiting : List Word) → IsAround self.old begun waiting → length begun < 2 ^ 64 - 1
            → OnOk result (IsAround self.new (open_after begun (role_of role.entry))
            (waiting_after waiting (role_of role.entry))) }
    {
        self.regions.pass(role)?;
        self.waiting = waiting_behind(self.waiting, role);
        Ok(())
    }
}

/// Adds a part, if it is an item, with its labels.
#[tactic(auto, using(crate::proofs::Marking::marking))]
fn mark_itself<'a>(
    marks: &mut Vec<Marked<'a>>,
    role: Role<'a>,
    line: u32,
    labels: Labels<'a>,
) -> Result<(), NoMemory>
    ensures { (ws : List Word) → few.few_of labels.entry ≡ few ws
        → OnOk result (kept_all marks.new.items ≡ kept_all marks.old.items ++ all_kept (itself (role_of role.entry) line ws)) }
{
    match role {
        Role::Item(subject) => marks.push(Marked {
            subject,
            line,
            labels,
        })?,
        Role::Says(_) | Role::PassedOver | Role::Bars => {}
    }
    Ok(())
}

/// A statement that is one of no block: no pragma reaches it.
#[cycle(stmt)]
#[tactic(auto, using(crate::proofs::Marking::marking))]
fn mark_alone<'a>(alloc: Global, marks: &mut Vec<Marked<'a>>, s: &'a Stmt) -> Result<(), NoMemory>
    ensures { OnOk result (kept_all marks.new.items
        ≡ kept_all marks.old.items ++ all_kept (regions.alone (stmt_part s.now))) }
{
    mark_itself(marks, stmt_role(s), s.line, Labels::Nothing)?;
    mark_within(alloc, marks, s)
}

#[cycle(stmt)]
#[tactic(auto, using(crate::proofs::Marking::marking))]
fn mark_optional<'a>(
    alloc: Global,
    marks: &mut Vec<Marked<'a>>,
    s: &'a Option<Boxed<Stmt>>,
) -> Result<(), NoMemory>
    ensures { OnOk result (kept_all marks.new.items
        ≡ kept_all marks.old.items ++ all_kept (regions.maybe_alone (option_map stmt_part s.now))) }
{
    match s {
        Some(s) => mark_alone(alloc, marks, s.get()),
        None => Ok(()),
    }
}

/// The items within a statement.
#[cycle(stmt)]
#[tactic(auto, unfolding(cl_labelling::specs::Regions::stmt_part), using(crate::proofs::Marking::marking))]
fn mark_within<'a>(alloc: Global, marks: &mut Vec<Marked<'a>>, s: &'a Stmt) -> Result<(), NoMemory>
    ensures { OnOk result (kept_all marks.new.items ≡ kept_all marks.old.items ++ all_kept (stmt_part s.now).inner) }
{
    match &s.node {
        Act::Block(ss) => mark_all(alloc, marks, ss.as_slice()),
        Act::If(_, body, other) => {
            mark_alone(alloc, marks, body.get())?;
            mark_optional(alloc, marks, other)
        }
        Act::While(_, body) => mark_alone(alloc, marks, body.get()),
        Act::DoWhile(body, _) => mark_alone(alloc, marks, body.get()),
        Act::For {
            first: _,
            test: _,
            next: _,
            body,
        } => mark_alone(alloc, marks, body.get()),
        Act::Declare(_)
        | Act::Empty
        | Act::Set {
            op: _,
            place: _,
            value: _,
        }
        | Act::Bump {
            up: _,
            prefix: _,
            place: _,
        }
        | Act::Call(_)
        | Act::Return(_)
        | Act::Break
        | Act::Continue
        | Act::Cle(_) => Ok(()),
    }
}

/// The items of a block, and of the blocks within it.
#[cycle(stmt)]
fn mark_all<'a>(alloc: Global, marks: &mut Vec<Marked<'a>>, all: &'a [Stmt]) -> Result<(), NoMemory>
    ensures { OnOk result (kept_all marks.new.items
        ≡ kept_all marks.old.items ++ all_kept (marked_in [] [] (map stmt_part all.now))) }
{
    let mut around = Around::new(alloc);
    for s in all {
        let role = stmt_role(s);
        mark_itself(marks, role, s.line, around.labels())?;
        mark_within(alloc, marks, s)?;
        around.pass(role)?;
    }
    Ok(())
}

#[tactic(auto, unfolding(cl_labelling::specs::Regions::body_marked), using(crate::proofs::Marking::marking))]
fn mark_body<'a>(
    alloc: Global,
    marks: &mut Vec<Marked<'a>>,
    body: &'a Option<Items<Stmt>>,
) -> Result<(), NoMemory>
    ensures { OnOk result (kept_all marks.new.items
        ≡ kept_all marks.old.items ++ all_kept (regions.body_marked body.now)) }
{
    match body {
        Some(ss) => mark_all(alloc, marks, ss.as_slice()),
        None => Ok(()),
    }
}

/// The items within an item at file level.
#[tactic(auto, unfolding(cl_labelling::specs::Regions::item_part), using(crate::proofs::Marking::marking))]
fn mark_inner<'a>(
    alloc: Global,
    marks: &mut Vec<Marked<'a>>,
    item: &'a Item,
) -> Result<(), NoMemory>
    ensures { OnOk result (kept_all marks.new.items ≡ kept_all marks.old.items ++ all_kept (item_part item.now).inner) }
{
    match item {
        Item::Function {
            is_static: _,
            result: _,
            name: _,
            void_word: _,
            params: _,
            body,
            line: _,
            second: _,
        } => mark_body(alloc, marks, body),
        _ => Ok(()),
    }
}

fn mark_items<'a>(
    alloc: Global,
    marks: &mut Vec<Marked<'a>>,
    items: &'a [Item],
) -> Result<(), NoMemory>
    ensures { OnOk result (kept_all marks.new.items
        ≡ kept_all marks.old.items ++ all_kept (marked_in [] [] (map item_part items.now))) }
{
    let mut around = Around::new(alloc);
    for item in items {
        let role = item_role(item);
        mark_itself(marks, role, item_line(item), around.labels())?;
        mark_inner(alloc, marks, item)?;
        around.pass(role)?;
    }
    Ok(())
}

/// The items of a program in the order of the source, each with its labels.
#[tactic(auto, unfolding(cl_labelling::specs::Regions::marked_of))]
pub fn marks<'a>(alloc: Global, program: &'a Program) -> Result<Vec<Marked<'a>>, NoMemory>
    ensures { IfOk result (λ marks. kept_all marks.items ≡ all_kept (regions.marked_of program.now)) }
{
    let mut marks = Vec::new(alloc);
    mark_items(alloc, &mut marks, program.items.as_slice())?;
    Ok(marks)
}
