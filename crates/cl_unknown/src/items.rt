//! Names and tags in items.

ghost use Rattle.std.specs.Prelude.{◌≡◌, OnOk};
ghost use Rattle.cl_typing.specs.Scope.{env_after};
ghost use Rattle.cl_typing.specs.Unknown as unknown;
ghost use Rattle.cl_scope.specs.Finds.{Finds};
ghost use Rattle.cl_unknown.specs.Known.{known_of};

use crate::exprs::{Known, has_tag};
use crate::stmts::{look_block, look_names};
use cl_scope::items::{bind_all, bind_all_defined, bind_tag};
use cl_scope::scopes::{Meaning, Scopes};
use cl_scope::search::unless;
use cl_scope::stop::Stop;
use cl_tree::tree::{Declaration, Declarator, Item, Program, Stmt};
use sqlite_items::Items;
use std::alloc::Global;

/// The tags in the types of members or parameters.
#[tactic(auto, unfolding(cl_typing::specs::Unknown::types_unknown), using(cl_scope::proofs::Searches::searches))]
fn look_types(tags: &Scopes<'_>, ds: &[Declarator]) -> Result<(), Stop>
    ensures { Finds result (unknown.types_unknown tags.now ds.now) }
{
    for d in ds {
        unless(has_tag(tags, &d.ctype), d.line)?;
    }
    Ok(())
}

#[tactic(auto, unfolding(cl_typing::specs::Unknown::members_unknown), using(cl_scope::proofs::Searches::searches))]
fn look_members(tags: &Scopes<'_>, members: &[Declaration]) -> Result<(), Stop>
    ensures { Finds result (unknown.members_unknown tags.now members.now) }
{
    for d in members {
        look_types(tags, d.names.as_slice())?;
    }
    Ok(())
}

#[tactic(auto, unfolding(cl_typing::specs::Unknown::body_unknown), using(cl_scope::proofs::Searches::searches, cl_scope::proofs::Behind::left))]
fn look_body<'a>(
    known: &Known<'a>,
    names: &mut Scopes<'a>,
    params: &'a [Declarator],
    body: &'a Option<Items<Stmt>>,
) -> Result<(), Stop>
    ensures places { Finds result (unknown.body_unknown (known_of known.now) names.old params.now body.now) }
    ensures names { OnOk result (names.new ≡ names.old) }
{
    match body {
        Some(ss) => {
            let len = names.len();
            bind_all(names, params)?;
            look_block(known, names, ss.as_slice())?;
            names.leave(len);
            Ok(())
        }
        None => Ok(()),
    }
}

/// An item. What it declares is known behind it.
#[tactic(auto, unfolding(cl_typing::specs::Unknown::item_unknown, cl_typing::specs::Scope::env_after), using(cl_scope::proofs::Searches::searches))]
fn look_item<'a>(known: &Known<'a>, names: &mut Scopes<'a>, item: &'a Item) -> Result<(), Stop>
    ensures places { Finds result (unknown.item_unknown (known_of known.now) names.old item.now) }
    ensures names { OnOk result (names.new ≡ env_after item.now names.old) }
{
    match item {
        Item::Struct {
            name: _,
            members,
            line: _,
        } => look_members(&known.tags, members.as_slice()),
        Item::Variables(d) => look_names(known, names, d.names.as_slice()),
        Item::Function {
            is_static: _,
            result,
            name,
            void_word: _,
            params,
            body,
            line: _,
            second,
        } => {
            unless(has_tag(&known.tags, result), *second)?;
            look_types(&known.tags, params.as_slice())?;
            names.bind(name, Meaning::Function(result, params))?;
            look_body(known, names, params.as_slice(), body)
        }
        Item::Cle(_, _) => Ok(()),
    }
}

#[tactic(auto, unfolding(cl_typing::specs::Unknown::items_unknown), using(cl_scope::proofs::Searches::searches))]
fn look_items<'a>(
    known: &mut Known<'a>,
    names: &mut Scopes<'a>,
    items: &'a [Item],
) -> Result<(), Stop>
    ensures { Finds result (unknown.items_unknown (known_of known.old) names.old items.now) }
{
    for item in items {
        look_item(known, names, item)?;
        bind_tag(&mut known.tags, item)?;
    }
    Ok(())
}

/// The first use of a name or tag that isn't declared there, or call of a function that is never defined.
#[tactic(auto, unfolding(cl_typing::specs::Unknown::unknown))]
pub fn look_program(alloc: Global, program: &Program) -> Result<(), Stop>
    ensures { Finds result (unknown.unknown program.now) }
{
    let mut defined = Scopes::new(alloc);
    bind_all_defined(&mut defined, program.items.as_slice())?;
    let mut known = Known {
        tags: Scopes::new(alloc),
        defined,
    };
    let mut names = Scopes::new(alloc);
    look_items(&mut known, &mut names, program.items.as_slice())
}
