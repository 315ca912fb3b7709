//! The three taint lists of an entry.

ghost use Rattle.std.specs.Prelude.{◌≡◌, map, length, IfOk, Some, is_some, option_map, option_and_then};
ghost use Rattle.std.specs.List.{list_all};
ghost use Rattle.serde_json.specs.View.{view};
ghost use Rattle.serde_json.specs.Data.{Data};
ghost use Rattle.cl_labelling.specs.Json.{each};
ghost use Rattle.cl_labelling.specs.Text as text;

use crate::parts::{parts_of, texts};
use cl_base::name::{Name, NoMemory};
use cl_labelling::draft::{Names, TaintsDraft};
use serde_json::Value;
use sqlite_items::Items;
use std::alloc::Global;

fn names_in(alloc: Global, value: &Value) -> Result<Option<Names>, NoMemory>
    ensures { IfOk result (λ o. o ≡ text.names_in (view value.now)) }
{
    match texts(alloc, value)? {
        Some(all) => Ok(Some(Names { all })),
        None => Ok(None),
    }
}

fn each_list(alloc: Global, parts: &[Value]) -> Result<Option<Items<Names>>, NoMemory>
    ensures { IfOk result (λ o. o ≡ each text.names_in (map view parts.now)) }
{
    let mut found = Items::new(alloc);
    for part in parts {
        let given = names_in(alloc, part)?;
        match given {
            Some(names) => found.push(names)?,
            None => return Ok(None),
        }
    }
    Ok(Some(found))
}

#[tactic(auto, unfolding(cl_labelling::specs::Text::lists_of_names))]
fn lists(alloc: Global, value: &Value) -> Result<Option<Items<Names>>, NoMemory>
    ensures { IfOk result (λ o. o ≡ text.lists_of_names (view value.now)) }
{
    match parts_of(value) {
        Some(parts) => each_list(alloc, parts),
        None => Ok(None),
    }
}

/// The taints of the three lists, if they have the shapes that are wanted.
#[tactic(auto, unfolding(cl_labelling::specs::Text::by_presence))]
fn of_lists(
    alloc: Global,
    args: &Value,
    code: &Value,
    given: &Value,
) -> Result<Option<TaintsDraft>, NoMemory>
    ensures { IfOk result (λ o. option_map (λ t. Some t) o ≡ text.by_presence (Some (view args.now)) (Some (view code.now)) (Some (view given.now))) }
{
    let Some(args) = lists(alloc, args)? else {
        return Ok(None);
    };
    let Some(code) = texts(alloc, code)? else {
        return Ok(None);
    };
    let Some(names) = texts(alloc, given)? else {
        return Ok(None);
    };
    if names.len() > 1 {
        return Ok(None);
    }
    Ok(Some(TaintsDraft {
        args,
        code,
        result: names,
    }))
}

/// The taints of an entry: all three lists, or none of them. None where they are of another shape.
#[tactic(auto, unfolding(cl_labelling::specs::Text::taints_in, cl_labelling::specs::Text::by_presence))]
pub fn taints_in(alloc: Global, entry: &Value) -> Result<Option<Option<TaintsDraft>>, NoMemory>
    ensures { IfOk result (λ o. o ≡ text.taints_in (view entry.now)) }
{
    match (
        entry.get("argtaints"),
        entry.get("codtaints"),
        entry.get("rettaints"),
    ) {
        (None, None, None) => Ok(Some(None)),
        (Some(args), Some(code), Some(given)) => match of_lists(alloc, args, code, given)? {
            Some(taints) => Ok(Some(Some(taints))),
            None => Ok(None),
        },
        _ => Ok(None),
    }
}

#[tactic(auto, unfolding(cl_labelling::specs::Text::same_words))]
fn same_words(some: &[Name], others: &[Name]) -> bool
    ensures { result ≡ text.same_words some.now others.now }
{
    some == others
}

#[tactic(auto, unfolding(cl_labelling::specs::Text::same_lists))]
fn same_lists(some: &[Names], others: &[Names]) -> bool
    ensures { result ≡ text.same_lists some.now others.now }
{
    for (at, names) in some.iter().enumerate() {
        let Some(other) = others.get(at) else {
            return false;
        };
        if !same_words(names.all.as_slice(), other.all.as_slice()) {
            return false;
        }
    }
    some.len() == others.len()
}

#[tactic(auto, unfolding(cl_labelling::specs::Text::same_taints))]
fn same_taints(some: &Option<TaintsDraft>, others: &Option<TaintsDraft>) -> bool
    ensures { result ≡ text.same_taints some.now others.now }
{
    match (some, others) {
        (None, None) => true,
        (Some(a), Some(b)) => {
            same_lists(a.args.as_slice(), b.args.as_slice())
                && same_words(a.code.as_slice(), b.code.as_slice())
                && same_words(a.result.as_slice(), b.result.as_slice())
        }
        _ => false,
    }
}

/// The taints of each entry of a list.
fn each_taints(
    alloc: Global,
    entries: &[Value],
) -> Result<Option<Vec<Option<TaintsDraft>>>, NoMemory>
    ensures { IfOk result (λ o. option_map (λ v. v.items) o ≡ each text.taints_in (map view entries.now)) }
{
    let mut found = Vec::new(alloc);
    for entry in entries {
        let given = taints_in(alloc, entry)?;
        match given {
            Some(taints) => found.push(taints)?,
            None => return Ok(None),
        }
    }
    Ok(Some(found))
}

fn same_as(first: &Option<TaintsDraft>, others: &[Option<TaintsDraft>]) -> bool
    ensures { result ≡ list_all (text.same_taints first.now) others.now }
{
    for other in others {
        if !same_taints(first, other) {
            return false;
        }
    }
    true
}

#[tactic(auto, unfolding(cl_labelling::specs::Text::common))]
fn all_same(all: &[Option<TaintsDraft>]) -> bool
    ensures { result ≡ is_some (text.common all.now) }
{
    match all.split_first() {
        Some((first, others)) => same_as(first, others),
        None => true,
    }
}

/// The taints that all have, if all have the same.
#[tactic(auto, unfolding(cl_labelling::specs::Text::common))]
fn common(all: Vec<Option<TaintsDraft>>) -> Option<Option<TaintsDraft>>
    ensures { result ≡ text.common all.items }
{
    if !all_same(all.as_slice()) {
        return None;
    }
    match all.into_iter().next() {
        Some(first) => Some(first),
        None => Some(None),
    }
}

/// The taints of the entries of a label: None where an entry's have another shape or differ from the others'.
pub fn common_taints(
    alloc: Global,
    entries: &[Value],
) -> Result<Option<Option<TaintsDraft>>, NoMemory>
    ensures { IfOk result (λ o. o ≡ option_and_then text.common (each text.taints_in (map view entries.now))) }
{
    match each_taints(alloc, entries)? {
        Some(all) => Ok(common(all)),
        None => Ok(None),
    }
}
