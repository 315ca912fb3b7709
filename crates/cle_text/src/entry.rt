//! An entry of a definition: what it says about another level.

ghost use Rattle.std.specs.Prelude.{◌≡◌, map, codes, option_map, option_and_then, IfOk};
ghost use Rattle.serde_json.specs.View.{view};
ghost use Rattle.serde_json.specs.Find.{get};
ghost use Rattle.cl_labelling.specs.Json.{each, text_under as text_at};
ghost use Rattle.cl_labelling.specs.Text as text;

use crate::parts::{integer_under, parts_of, path_of, text_under};
use cl_base::name::{Name, NoMemory};
use cl_labelling::draft::EntryDraft;
use cl_mean::labels::{Direction, Operation, RedactField};
use serde_json::Value;
use sqlite_items::Items;
use std::alloc::Global;

#[tactic(auto, unfolding(cl_labelling::specs::Text::direction_named))]
fn direction_named(name: &str) -> Option<Direction>
    ensures { result ≡ text.direction_named name.now }
{
    if name == "egress" {
        return Some(Direction::Egress);
    }
    if name == "ingress" {
        return Some(Direction::Ingress);
    }
    if name == "bidirectional" {
        return Some(Direction::Bidirectional);
    }
    None
}

#[tactic(auto, unfolding(cl_labelling::specs::Text::operation_named))]
fn operation_named(name: &str) -> Option<Operation>
    ensures { result ≡ text.operation_named name.now }
{
    if name == "allow" {
        return Some(Operation::Allow);
    }
    if name == "block" {
        return Some(Operation::Block);
    }
    if name == "redact" {
        return Some(Operation::Redact);
    }
    None
}

/// Whether a field is one of a reply.
#[tactic(auto, unfolding(cl_labelling::specs::Text::reply_named))]
fn reply_named(name: &str) -> Option<bool>
    ensures { result ≡ text.reply_named name.now }
{
    if name == "request" {
        return Some(false);
    }
    if name == "reply" {
        return Some(true);
    }
    None
}

#[tactic(auto, unfolding(cl_labelling::specs::Text::redact_field))]
fn redact_field(alloc: Global, value: &Value) -> Result<Option<RedactField>, NoMemory>
    ensures { IfOk result (λ o. o ≡ text.redact_field (view value.now)) }
{
    let Some(on) = text_under(value, "on") else {
        return Ok(None);
    };
    let Some(reply) = reply_named(on) else {
        return Ok(None);
    };
    let Some(field) = text_under(value, "field") else {
        return Ok(None);
    };
    let Some(with) = integer_under(value, "with") else {
        return Ok(None);
    };
    let path = path_of(alloc, field)?;
    Ok(Some(RedactField { reply, path, with }))
}

fn each_field(alloc: Global, parts: &[Value]) -> Result<Option<Items<RedactField>>, NoMemory>
    ensures { IfOk result (λ o. o ≡ each text.redact_field (map view parts.now)) }
{
    let mut found = Items::new(alloc);
    for part in parts {
        let given = redact_field(alloc, part)?;
        match given {
            Some(field) => found.push(field)?,
            None => return Ok(None),
        }
    }
    Ok(Some(found))
}

fn fields_in(alloc: Global, value: &Value) -> Result<Option<Items<RedactField>>, NoMemory>
    ensures { IfOk result (λ o. o ≡ text.redact_fields (view value.now)) }
{
    match parts_of(value) {
        Some(parts) => each_field(alloc, parts),
        None => Ok(None),
    }
}

fn redact_fields(alloc: Global, directive: &Value) -> Result<Option<Items<RedactField>>, NoMemory>
    ensures { IfOk result (λ o. o ≡ option_and_then text.redact_fields (get (codes "redact") (view directive.now))) }
{
    match directive.get("redact") {
        Some(value) => fields_in(alloc, value),
        None => Ok(None),
    }
}

/// The fields of a directive, which a function's label alone may have.
#[tactic(auto, unfolding(cl_labelling::specs::Text::fields_of))]
fn fields_of(
    alloc: Global,
    on_function: bool,
    operation: Operation,
    directive: &Value,
) -> Result<Option<Items<RedactField>>, NoMemory>
    ensures { IfOk result (λ o. o ≡ text.fields_of on_function operation (view directive.now)) }
{
    match operation {
        Operation::Redact => {
            if on_function {
                return redact_fields(alloc, directive);
            }
            Ok(None)
        }
        _ => Ok(Some(Items::new(alloc))),
    }
}

/// Whether a call of the directive goes both ways: `oneway` is absent or `false`.
fn goes_both_ways(directive: &Value) -> bool
    ensures { result ≡ text.is_false (get (codes "oneway") (view directive.now)) }
{
    match directive.get("oneway") {
        Some(value) => value.as_bool() == Some(false),
        None => true,
    }
}

fn direction_in(entry: &Value) -> Option<Direction>
    ensures { result ≡ option_and_then text.direction_named (text_at (codes "direction") (view entry.now)) }
{
    direction_named(text_under(entry, "direction")?)
}

fn operation_in(directive: &Value) -> Option<Operation>
    ensures { result ≡ option_and_then text.operation_named (text_at (codes "operation") (view directive.now)) }
{
    operation_named(text_under(directive, "operation")?)
}

/// An entry of a label that is a function's, or isn't.
#[tactic(auto, unfolding(cl_labelling::specs::Text::entry_of))]
pub fn entry_of(
    alloc: Global,
    on_function: bool,
    value: &Value,
) -> Result<Option<EntryDraft>, NoMemory>
    ensures { IfOk result (λ o. o ≡ text.entry_of on_function (view value.now)) }
{
    let Some(directive) = value.get("guarddirective") else {
        return Ok(None);
    };
    let Some(remote) = text_under(value, "remotelevel") else {
        return Ok(None);
    };
    let Some(direction) = direction_in(value) else {
        return Ok(None);
    };
    let Some(operation) = operation_in(directive) else {
        return Ok(None);
    };
    if !goes_both_ways(directive) {
        return Ok(None);
    }
    let Some(redact) = fields_of(alloc, on_function, operation, directive)? else {
        return Ok(None);
    };
    let remote = Name::of(alloc, remote)?;
    Ok(Some(EntryDraft {
        remote,
        direction,
        operation,
        redact,
    }))
}
