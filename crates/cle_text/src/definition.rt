//! The text of a definition.

ghost use Rattle.std.specs.Prelude.{◌≡◌, map, codes, option_map, option_and_then, length, IfOk, IfErr, Some, None, not, bytes_eq};
ghost use Rattle.std.specs.List.{list_all};
ghost use Rattle.std.specs.Char.{is_ascii_alphanumeric};
ghost use Rattle.serde_json.specs.View.{view};
ghost use Rattle.serde_json.specs.Find.{get};
ghost use Rattle.cl_labelling.specs.Json.{each, json_of};
ghost use Rattle.cl_labelling.specs.Text as text;
ghost use Rattle.cl_labelling.specs.Text.{draft_in};
ghost use Rattle.cle_text.specs.Answer.{Stops, JsonIs, ShapeStops};

use crate::entry::entry_of;
use crate::parts::{parts_of, text_under};
use crate::taints::common_taints;
use cl_base::name::{Name, NoMemory};
use cl_labelling::draft::{Draft, EntryDraft, TaintsDraft};
use serde_json::Value;
use sqlite_items::Items;
use std::alloc::Global;

/// What keeps a text from being a definition.
#[derive(Drop)]
pub enum TextStop {
    /// It has no reading as JSON.
    NotJson,
    /// It has, and the value isn't of a definition's shape.
    Misshapen,
    NoMemory,
}

fn all_alphanumeric(bytes: &[u8]) -> bool
    ensures { result ≡ list_all is_ascii_alphanumeric bytes.now }
{
    for byte in bytes {
        if !byte.is_ascii_alphanumeric() {
            return false;
        }
    }
    true
}

#[tactic(auto, unfolding(cl_labelling::specs::Text::is_level_name))]
fn is_level_name(name: &[u8]) -> bool
    ensures { result ≡ text.is_level_name name.now }
{
    let Some((first, rest)) = name.split_first() else {
        return false;
    };
    if !first.is_ascii_alphabetic() {
        return false;
    }
    if !all_alphanumeric(rest) {
        return false;
    }
    rest.len() < 32
}

/// Whether no other entry is for the level of an entry.
fn is_apart(entry: &EntryDraft, others: &[EntryDraft]) -> bool
    ensures { result ≡ list_all (λ v. not (bytes_eq entry.now.remote v)) (map (λ e. e.remote) others.now) }
{
    for other in others {
        if entry.remote.text() == other.remote.text() {
            return false;
        }
    }
    true
}

/// Whether no two entries, of which there are at most 32, are for the same level.
#[tactic(auto, unfolding(cl_labelling::specs::Text::are_distinct), using(crate::proofs::Same::distinct_first))]
fn are_distinct(entries: &[EntryDraft]) -> bool
    ensures { result ≡ text.are_distinct (map (λ e. e.remote) entries.now) }
{
    let Some((first, others)) = entries.split_first() else {
        return true;
    };
    if !is_apart(first, others) {
        return false;
    }
    are_distinct(others)
}

fn each_entry(
    alloc: Global,
    on_function: bool,
    parts: &[Value],
) -> Result<Option<Items<EntryDraft>>, NoMemory>
    ensures { IfOk result (λ o. o ≡ each (text.entry_of on_function) (map view parts.now)) }
{
    let mut found = Items::new(alloc);
    for part in parts {
        let given = entry_of(alloc, on_function, part)?;
        match given {
            Some(entry) => found.push(entry)?,
            None => return Ok(None),
        }
    }
    Ok(Some(found))
}

/// A label of a level, with the entries whose taints are known.
fn with_taints(
    alloc: Global,
    level: &str,
    parts: &[Value],
    taints: Option<TaintsDraft>,
) -> Result<Option<Draft>, NoMemory>
    ensures { IfOk result (λ o. o ≡ text.with_taints level.now (map view parts.now) taints) }
{
    let Some(entries) = each_entry(alloc, taints.is_some(), parts)? else {
        return Ok(None);
    };
    if !are_distinct(entries.as_slice()) {
        return Ok(None);
    }
    let level = Name::of(alloc, level)?;
    Ok(Some(Draft {
        level,
        entries,
        taints,
    }))
}

/// The parts of a list of at most 32.
fn few_parts(list: &Value) -> Option<&[Value]>
    ensures { option_map (λ s. map view s.now) result ≡ text.entries_under (Some (view list.now)) }
{
    let entries = parts_of(list)?;
    if entries.len() > 32 {
        return None;
    }
    Some(entries)
}

/// The entries of a definition: none where it has no list of them.
fn entries_in(value: &Value) -> Option<&[Value]>
    ensures { option_map (λ s. map view s.now) result ≡ text.entries_under (get (codes "cdf") (view value.now)) }
{
    match value.get("cdf") {
        Some(list) => few_parts(list),
        None => Some(&[]),
    }
}

/// What a JSON value says of a label, where it has a definition's shape.
#[tactic(auto, unfolding(cl_labelling::specs::Text::draft_of))]
fn draft_of(alloc: Global, value: &Value) -> Result<Option<Draft>, NoMemory>
    ensures { IfOk result (λ o. o ≡ text.draft_of (view value.now)) }
{
    let Some(level) = text_under(value, "level") else {
        return Ok(None);
    };
    if !is_level_name(level.as_bytes()) {
        return Ok(None);
    }
    let Some(entries) = entries_in(value) else {
        return Ok(None);
    };
    match common_taints(alloc, entries)? {
        Some(taints) => with_taints(alloc, level, entries, taints),
        None => Ok(None),
    }
}

fn json_in(alloc: Global, bytes: &[u8]) -> Result<Value, TextStop>
    ensures { JsonIs result (json_of bytes.now) }
{
    match Value::from_slice(alloc, bytes) {
        Ok(value) => Ok(value),
        Err(error) => {
            if error.is_memory() {
                return Err(TextStop::NoMemory);
            }
            Err(TextStop::NotJson)
        }
    }
}

/// What a JSON value says of a label. `Misshapen` where it isn't of a definition's shape.
fn shaped(alloc: Global, value: &Value) -> Result<Draft, TextStop>
    ensures found { IfOk result (λ draft. text.draft_of (view value.now) ≡ Some draft) }
    ensures fails { IfErr result (λ stop. ShapeStops stop (text.draft_of (view value.now))) }
{
    match draft_of(alloc, value) {
        Ok(Some(draft)) => Ok(draft),
        Ok(None) => Err(TextStop::Misshapen),
        Err(_) => Err(TextStop::NoMemory),
    }
}

/// What the text of a definition says of its label. `NotJson` where the text has no reading as JSON, `Misshapen` where
/// it has, and the value isn't of a definition's shape.
pub fn definition_of(alloc: Global, bytes: &[u8]) -> Result<Draft, TextStop>
    ensures found { IfOk result (λ draft. draft_in bytes.now ≡ Some draft) }
    ensures fails { IfErr result (λ stop. Stops stop bytes.now) }
{
    match json_in(alloc, bytes) {
        Ok(value) => shaped(alloc, &value),
        Err(stop) => Err(stop),
    }
}
