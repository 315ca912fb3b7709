//! What items declare.

ghost use Rattle.std.specs.Prelude.{◌≡◌, OnOk};
ghost use Rattle.cl_typing.specs.Scope.{with_names, tags_after, defined_after, defined_in};

use crate::scopes::{Meaning, Scopes};
use cl_base::name::NoMemory;
use cl_tree::tree::{Declarator, Item};

/// The names of declarators become known.
#[tactic(auto, unfolding(cl_typing::specs::Scope::with_names))]
pub fn bind_all<'a>(names: &mut Scopes<'a>, ds: &'a [Declarator]) -> Result<(), NoMemory>
    ensures { OnOk result (names.new ≡ with_names ds.now names.old) }
{
    for d in ds {
        names.bind(&d.name, Meaning::Variable(&d.ctype))?;
    }
    Ok(())
}

/// The tag that an item declares becomes known.
#[tactic(auto, unfolding(cl_typing::specs::Scope::tags_after))]
pub fn bind_tag<'a>(tags: &mut Scopes<'a>, item: &'a Item) -> Result<(), NoMemory>
    ensures { OnOk result (tags.new ≡ tags_after item.now tags.old) }
{
    match item {
        Item::Struct {
            name,
            members,
            line: _,
        } => tags.bind(name, Meaning::Structure(members)),
        _ => Ok(()),
    }
}

/// The function that an item defines becomes known.
#[tactic(auto, unfolding(cl_typing::specs::Scope::defined_after))]
pub fn bind_defined<'a>(defined: &mut Scopes<'a>, item: &'a Item) -> Result<(), NoMemory>
    ensures { OnOk result (defined.new ≡ defined_after item.now defined.old) }
{
    match item {
        Item::Function {
            is_static: _,
            result,
            name,
            void_word: _,
            params,
            body: Some(_),
            line: _,
            second: _,
        } => { defined.bind(name, Meaning::Function(result, params)) }
        _ => Ok(()),
    }
}

/// The functions that items define become known.
#[tactic(auto, unfolding(cl_typing::specs::Scope::defined_in))]
pub fn bind_all_defined<'a>(defined: &mut Scopes<'a>, items: &'a [Item]) -> Result<(), NoMemory>
    ensures { OnOk result (defined.new ≡ defined_in items.now defined.old) }
{
    for item in items {
        bind_defined(defined, item)?;
    }
    Ok(())
}
