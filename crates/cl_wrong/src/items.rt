//! Types in items.

ghost use Rattle.std.specs.Prelude.{◌≡◌, [], option_map, OnOk};
ghost use Rattle.cl_typing.specs.Scope.{env_after, tags_after, types_of};
ghost use Rattle.cl_typing.specs.Wrong as wrong;
ghost use Rattle.cl_scope.specs.Finds.{Finds};
ghost use Rattle.cl_scope.specs.Table.{entry_of};
ghost use Rattle.cl_wrong.specs.Inside.{inside_of};

use crate::inits::{look_members, look_names, look_types};
use crate::stmts::{Inside, look_block};
use cl_members::tags::Tags;
use cl_scope::items::bind_all;
use cl_scope::scopes::{Meaning, Scopes};
use cl_scope::search::unless;
use cl_scope::stop::Stop;
use cl_tree::tree::{CType, Declarator, Item, Program, Stmt};
use cl_types::types::{is_result_type, same_type};
use sqlite_items::Items;
use std::alloc::Global;

/// Whether parameters have the same types.
#[tactic(auto, unfolding(cl_typing::specs::Wrong::same_types))]
fn same_types(ds: &[Declarator], es: &[Declarator]) -> bool
    ensures { result ≡ wrong.same_types (types_of ds.now) (types_of es.now) }
{
    for (i, d) in ds.iter().enumerate() {
        let Some(e) = es.get(i) else {
            return false;
        };
        if !same_type(&d.ctype, &e.ctype) {
            return false;
        }
    }
    ds.len() == es.len()
}

/// Whether a declaration of a function agrees with the one before.
#[tactic(auto, unfolding(cl_typing::specs::Wrong::agrees))]
fn agrees(found: Option<Meaning<'_>>, gives: &CType, params: &[Declarator]) -> bool
    ensures { result ≡ wrong.agrees (option_map entry_of found.entry) gives.now (types_of params.now) }
{
    match found {
        Some(Meaning::Function(gave, took)) => same_type(gave, gives)
            && same_types(took.as_slice(), params),
        Some(Meaning::Variable(_) | Meaning::Structure(_)) => true,
        None => true,
    }
}

#[tactic(auto, unfolding(cl_typing::specs::Wrong::body_wrong), using(cl_scope::proofs::Behind::left))]
fn look_body<'a>(
    inside: &Inside<'_, 'a>,
    names: &mut Scopes<'a>,
    params: &'a [Declarator],
    body: &'a Option<Items<Stmt>>,
) -> Result<(), Stop>
    ensures places { Finds result (wrong.body_wrong (inside_of inside.now) names.old params.now body.now) }
    ensures names { OnOk result (names.new ≡ names.old) }
{
    match body {
        Some(ss) => {
            let start = names.len();
            bind_all(names, params)?;
            look_block(inside, names, false, ss.as_slice())?;
            names.leave(start);
            Ok(())
        }
        None => Ok(()),
    }
}

/// An item. What it declares is known behind it.
#[tactic(auto, unfolding(cl_typing::specs::Wrong::item_wrong, cl_typing::specs::Scope::env_after), using(cl_scope::proofs::Searches::searches))]
fn look_item<'a>(tags: &Tags<'a>, names: &mut Scopes<'a>, item: &'a Item) -> Result<(), Stop>
    ensures places { Finds result (wrong.item_wrong tags.now names.old item.now) }
    ensures names { OnOk result (names.new ≡ env_after item.now names.old) }
{
    match item {
        Item::Struct {
            name: _,
            members,
            line: _,
        } => look_members(members.as_slice()),
        Item::Variables(d) => look_names(tags, names, true, d.names.as_slice()),
        Item::Function {
            is_static: _,
            result,
            name,
            void_word: _,
            params,
            body,
            line,
            second: _,
        } => {
            let right = is_result_type(result)
                && agrees(names.find(name), result, params.as_slice());
            unless(right, *line)?;
            look_types(params.as_slice())?;
            names.bind(name, Meaning::Function(result, params))?;
            look_body(&Inside { tags, result }, names, params.as_slice(), body)
        }
        Item::Cle(_, _) => Ok(()),
    }
}

/// The struct that an item declares becomes known.
#[tactic(auto, unfolding(cl_typing::specs::Scope::tags_after))]
fn bind_struct<'a>(tags: &mut Tags<'a>, item: &'a Item) -> Result<(), Stop>
    ensures none { Finds result [] }
    ensures tags { OnOk result (tags.new ≡ tags_after item.now tags.old) }
{
    match item {
        Item::Struct {
            name,
            members,
            line: _,
        } => {
            tags.bind(name, members.as_slice())?;
            Ok(())
        }
        _ => Ok(()),
    }
}

#[tactic(auto, unfolding(cl_typing::specs::Wrong::items_wrong), using(cl_scope::proofs::Searches::searches))]
fn look_items<'a>(
    tags: &mut Tags<'a>,
    names: &mut Scopes<'a>,
    items: &'a [Item],
) -> Result<(), Stop>
    ensures { Finds result (wrong.items_wrong tags.old names.old items.now) }
{
    for item in items {
        look_item(tags, names, item)?;
        bind_struct(tags, item)?;
    }
    Ok(())
}

/// The first statement or item that breaks a rule of types.
#[tactic(auto, unfolding(cl_typing::specs::Wrong::wrong))]
pub fn look_program(alloc: Global, program: &Program) -> Result<(), Stop>
    ensures { Finds result (wrong.wrong program.now) }
{
    let mut tags = Tags::new(alloc);
    let mut names = Scopes::new(alloc);
    look_items(&mut tags, &mut names, program.items.as_slice())
}
