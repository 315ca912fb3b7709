//! Names, tags and functions that items declare a second time.

ghost use Rattle.std.specs.Prelude.{◌≡◌, ◌≤◌, ◌∷◌, [], length, OnOk};
ghost use Rattle.cl_typing.specs.Scope.{with_names, bound, env_after, tags_after};
ghost use Rattle.cl_typing.specs.Twice as twice;
ghost use Rattle.cl_scope.specs.Table.{since};
ghost use Rattle.cl_scope.specs.Finds.{Finds};
ghost use Rattle.cl_twice.specs.SoFar.{declared_of};

use crate::stmts::{look_all, look_names};
use cl_base::name::Name;
use cl_scope::items::{bind_all, bind_defined};
use cl_scope::library::is_library;
use cl_scope::scopes::{Meaning, Scopes};
use cl_scope::search::unless;
use cl_scope::stop::Stop;
use cl_tree::tree::{Declaration, Declarator, Item, Program, Stmt};
use sqlite_items::Items;
use std::alloc::Global;

/// What the items so far declare: names, tags, and the functions that are defined.
#[derive(Drop)]
struct Declared<'a> {
    names: Scopes<'a>,
    tags: Scopes<'a>,
    defined: Scopes<'a>,
}

/// The parameters of a declaration of a function, which are a scope of their own.
#[tactic(auto, using(cl_scope::proofs::Behind::left, cl_scope::proofs::Behind::since_self))]
fn look_params<'a>(names: &mut Scopes<'a>, params: &'a [Declarator]) -> Result<(), Stop>
    ensures places { Finds result (twice.names_twice [] params.now) }
    ensures names { OnOk result (names.new ≡ names.old) }
{
    let start = names.len();
    look_names(names, start, params)?;
    names.leave(start);
    Ok(())
}

/// A body, of which the outermost block is one scope with the parameters.
#[tactic(auto, unfolding(cl_typing::specs::Twice::body_twice), using(crate::proofs::Steps::behind_params, crate::proofs::Steps::params_longer, crate::proofs::Steps::body_left))]
fn look_body<'a>(
    names: &mut Scopes<'a>,
    params: &'a [Declarator],
    body: &'a Option<Items<Stmt>>,
) -> Result<(), Stop>
    ensures places { Finds result (twice.body_twice params.now body.now) }
    ensures names { OnOk result (names.new ≡ names.old) }
{
    match body {
        Some(ss) => {
            let start = names.len();
            bind_all(names, params)?;
            look_all(names, start, ss.as_slice())?;
            names.leave(start);
            Ok(())
        }
        None => Ok(()),
    }
}

fn look_field<'a>(fields: &mut Scopes<'a>, start: usize, d: &'a Declarator) -> Result<(), Stop>
    requires { start ≤ length fields.old }
    ensures places { Finds result (twice.field_twice (since start fields.old) d.now) }
    ensures fields { OnOk result (fields.new ≡ bound d.now ∷ fields.old) }
{
    unless(!fields.is_bound_since(start, &d.name), d.line)?;
    fields.bind(&d.name, Meaning::Variable(&d.ctype))?;
    Ok(())
}

#[tactic(auto, unfolding(cl_typing::specs::Twice::fields_twice, cl_typing::specs::Scope::with_names), using(crate::proofs::Steps::steps))]
fn look_fields<'a>(fields: &mut Scopes<'a>, start: usize, ds: &'a [Declarator]) -> Result<(), Stop>
    requires { start ≤ length fields.old }
    ensures places { Finds result (twice.fields_twice (since start fields.old) ds.now) }
    ensures fields { OnOk result (fields.new ≡ with_names ds.now fields.old) }
{
    for d in ds {
        look_field(fields, start, d)?;
    }
    Ok(())
}

/// The members of a struct.
#[tactic(auto, unfolding(cl_typing::specs::Twice::members_twice), using(cl_scope::proofs::Searches::searches, cl_scope::proofs::Behind::since_all))]
fn look_members<'a>(alloc: Global, members: &'a [Declaration]) -> Result<(), Stop>
    ensures { Finds result (twice.members_twice [] members.now) }
{
    let mut fields = Scopes::new(alloc);
    for m in members {
        look_fields(&mut fields, 0, m.names.as_slice())?;
    }
    Ok(())
}

/// A function isn't defined again.
fn not_again(so: &Declared<'_>, name: &Name, body: &Option<Items<Stmt>>) -> bool
    ensures { result ≡ twice.not_again (declared_of so.now) name.now body.now }
{
    match body {
        Some(_) => !so.defined.is_bound(name),
        None => true,
    }
}

/// Whether a function may be declared: not as something else, and not defined again.
fn function_fits(so: &Declared<'_>, name: &Name, body: &Option<Items<Stmt>>) -> bool
    ensures { result ≡ twice.function_fits (declared_of so.now) name.now body.now }
{
    if is_library(name) {
        return false;
    }
    match so.names.find(name) {
        Some(Meaning::Variable(_)) => false,
        Some(Meaning::Function(_, _) | Meaning::Structure(_)) => not_again(so, name, body),
        None => not_again(so, name, body),
    }
}

/// An item. What it declares is known behind it.
#[tactic(auto, unfolding(cl_typing::specs::Twice::item_twice, cl_typing::specs::Scope::env_after, cl_typing::specs::Scope::tags_after), using(cl_scope::proofs::Searches::searches, cl_scope::proofs::Behind::since_all))]
fn look_item<'a>(alloc: Global, so: &mut Declared<'a>, item: &'a Item) -> Result<(), Stop>
    ensures places { Finds result (twice.item_twice (declared_of so.old) item.now) }
    ensures names { OnOk result (so.new.names ≡ env_after item.now so.old.names) }
    ensures tags { OnOk result (so.new.tags ≡ tags_after item.now so.old.tags) }
    ensures defined { OnOk result (so.new.defined ≡ so.old.defined) }
{
    match item {
        Item::Struct {
            name,
            members,
            line,
        } => {
            unless(!so.tags.is_bound(name), *line)?;
            look_members(alloc, members.as_slice())?;
            so.tags.bind(name, Meaning::Structure(members))?;
            Ok(())
        }
        Item::Variables(d) => look_names(&mut so.names, 0, d.names.as_slice()),
        Item::Function {
            is_static: _,
            result,
            name,
            void_word: _,
            params,
            body,
            line: _,
            second,
        } => {
            unless(function_fits(so, name, body), *second)?;
            look_params(&mut so.names, params.as_slice())?;
            look_body(&mut so.names, params.as_slice(), body)?;
            so.names.bind(name, Meaning::Function(result, params))?;
            Ok(())
        }
        Item::Cle(_, _) => Ok(()),
    }
}

#[tactic(auto, unfolding(cl_typing::specs::Twice::items_twice), using(cl_scope::proofs::Searches::searches))]
fn look_items<'a>(alloc: Global, so: &mut Declared<'a>, items: &'a [Item]) -> Result<(), Stop>
    ensures { Finds result (twice.items_twice (declared_of so.old) items.now) }
{
    for item in items {
        look_item(alloc, so, item)?;
        bind_defined(&mut so.defined, item)?;
    }
    Ok(())
}

/// The first declaration of a name that its scope has already.
#[tactic(auto, unfolding(cl_typing::specs::Twice::twice))]
pub fn look_program(alloc: Global, program: &Program) -> Result<(), Stop>
    ensures { Finds result (twice.twice program.now) }
{
    let mut so = Declared {
        names: Scopes::new(alloc),
        tags: Scopes::new(alloc),
        defined: Scopes::new(alloc),
    };
    look_items(alloc, &mut so, program.items.as_slice())
}
