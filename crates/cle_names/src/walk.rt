//! The pragmas of a program in the order of the source, each read once.

ghost use Rattle.std.specs.Prelude.{◌≡◌, ◌++◌, ◌∷◌, [], map, option_map, IfOk, OnOk};
ghost use Rattle.std.specs.List.{flat_map};
ghost use Rattle.cl_labelling.specs.Pragmas as listed;
ghost use Rattle.cl_labelling.specs.Pragmas.{placed, maybe_all};

use crate::seen::Seen;
use cl_base::name::NoMemory;
use cl_tree::token::Pragma;
use cl_tree::tree::{Act, Item, Program, Stmt};
use sqlite_items::{Boxed, Items};
use std::alloc::Global;

fn add<'a>(
    alloc: Global,
    all: &mut Vec<Seen<'a>>,
    pragma: &'a Pragma,
    line: u32,
) -> Result<(), NoMemory>
    ensures { OnOk result (all.new.items ≡ all.old.items ++ placed pragma.now line ∷ []) }
{
    let seen = Seen::of(alloc, pragma, line)?;
    all.push(seen)?;
    Ok(())
}

#[cycle(stmt)]
#[tactic(auto, unfolding(cl_labelling::specs::Pragmas::stmt_pragmas), using(crate::proofs::Lists::joins))]
fn add_stmt<'a>(alloc: Global, all: &mut Vec<Seen<'a>>, s: &'a Stmt) -> Result<(), NoMemory>
    ensures { OnOk result (all.new.items ≡ all.old.items ++ listed.stmt_pragmas s.now) }
{
    match &s.node {
        Act::Block(ss) => add_all(alloc, all, ss.as_slice()),
        Act::If(_, body, other) => {
            add_stmt(alloc, all, body.get())?;
            add_optional(alloc, all, other)
        }
        Act::While(_, body) => add_stmt(alloc, all, body.get()),
        Act::DoWhile(body, _) => add_stmt(alloc, all, body.get()),
        Act::For {
            first: _,
            test: _,
            next: _,
            body,
        } => add_stmt(alloc, all, body.get()),
        Act::Cle(pragma) => add(alloc, all, pragma, s.line),
        Act::Declare(_)
        | Act::Empty
        | Act::Set {
            op: _,
            place: _,
            value: _,
        }
        | Act::Bump {
            up: _,
            prefix: _,
            place: _,
        }
        | Act::Call(_)
        | Act::Return(_)
        | Act::Break
        | Act::Continue => Ok(()),
    }
}

#[cycle(stmt)]
#[tactic(auto, using(crate::proofs::Lists::joins))]
fn add_optional<'a>(
    alloc: Global,
    all: &mut Vec<Seen<'a>>,
    s: &'a Option<Boxed<Stmt>>,
) -> Result<(), NoMemory>
    ensures { OnOk result (all.new.items ≡ all.old.items ++ maybe_all (option_map listed.stmt_pragmas s.now)) }
{
    match s {
        Some(s) => add_stmt(alloc, all, s.get()),
        None => Ok(()),
    }
}

#[cycle(stmt)]
#[tactic(auto, using(crate::proofs::Lists::joins))]
fn add_all<'a>(alloc: Global, all: &mut Vec<Seen<'a>>, ss: &'a [Stmt]) -> Result<(), NoMemory>
    ensures { OnOk result (all.new.items ≡ all.old.items ++ flat_map (λ ps. ps) (map listed.stmt_pragmas ss.now)) }
{
    for s in ss {
        add_stmt(alloc, all, s)?;
    }
    Ok(())
}

#[tactic(auto, unfolding(cl_labelling::specs::Pragmas::item_pragmas), using(crate::proofs::Lists::joins))]
fn add_item<'a>(alloc: Global, all: &mut Vec<Seen<'a>>, item: &'a Item) -> Result<(), NoMemory>
    ensures { OnOk result (all.new.items ≡ all.old.items ++ listed.item_pragmas item.now) }
{
    match item {
        Item::Function {
            is_static: _,
            result: _,
            name: _,
            void_word: _,
            params: _,
            body: Some(ss),
            line: _,
            second: _,
        } => add_all(alloc, all, ss.as_slice()),
        Item::Cle(pragma, line) => add(alloc, all, pragma, *line),
        _ => Ok(()),
    }
}

#[tactic(auto, using(crate::proofs::Lists::joins))]
fn add_items<'a>(alloc: Global, all: &mut Vec<Seen<'a>>, items: &'a [Item]) -> Result<(), NoMemory>
    ensures { OnOk result (all.new.items ≡ all.old.items ++ flat_map listed.item_pragmas items.now) }
{
    for item in items {
        add_item(alloc, all, item)?;
    }
    Ok(())
}

/// The pragmas of a program, each with the reading of its text.
#[tactic(auto, unfolding(cl_labelling::specs::Pragmas::pragmas_of))]
pub fn pragmas_of(alloc: Global, program: &Program) -> Result<Vec<Seen<'_>>, NoMemory>
    ensures { IfOk result (λ all. all.items ≡ listed.pragmas_of program.now) }
{
    let mut all = Vec::new(alloc);
    add_items(alloc, &mut all, program.items.as_slice())?;
    Ok(all)
}
