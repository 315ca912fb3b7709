//! The shape of a policy.

ghost use Rattle.std.specs.Prelude.{◌≡◌, map, codes, option_map, option_and_then, IfOk};
ghost use Rattle.serde_json.specs.View.{view};
ghost use Rattle.cl_labelling.specs.Json.{each};
ghost use Rattle.cl_labelling.specs.Text.{reply_named as way_named};
ghost use Rattle.guard_rules.specs.Text as text;

use crate::draft::{ActDraft, Field, RuleDraft};
use crate::json::{integer_under, natural_under, parts_under, path_of, text_under};
use cl_base::name::{Name, NoMemory};
use serde_json::Value;
use sqlite_items::Items;
use std::alloc::Global;

#[tactic(auto, unfolding(crate::specs::Text::field_in))]
fn field_in(alloc: Global, value: &Value) -> Result<Option<Field>, NoMemory>
    ensures { IfOk result (λ o. o ≡ text.field_in (view value.now)) }
{
    let Some(field) = text_under(value, "field") else {
        return Ok(None);
    };
    let Some(with) = integer_under(value, "with") else {
        return Ok(None);
    };
    let path = path_of(alloc, field)?;
    Ok(Some(Field { path, with }))
}

fn each_field(alloc: Global, parts: &[Value]) -> Result<Option<Items<Field>>, NoMemory>
    ensures { IfOk result (λ o. o ≡ each text.field_in (map view parts.now)) }
{
    let mut found = Items::new(alloc);
    for part in parts {
        match field_in(alloc, part)? {
            Some(field) => found.push(field)?,
            None => return Ok(None),
        }
    }
    Ok(Some(found))
}

/// The fields that a rule redacts, if it has a list of them.
#[tactic(auto, unfolding(crate::specs::Text::fields_under))]
fn fields_under(alloc: Global, value: &Value) -> Result<Option<Items<Field>>, NoMemory>
    ensures { IfOk result (λ o. o ≡ text.fields_under (view value.now)) }
{
    match parts_under(value, "fields") {
        Some(parts) => each_field(alloc, parts),
        None => Ok(None),
    }
}

/// An act that redacts, which one function's rule alone may have.
fn redact_in(alloc: Global, for_all: bool, value: &Value) -> Result<Option<ActDraft>, NoMemory>
    ensures { IfOk result (λ o. o ≡ text.redact_in for_all (view value.now)) }
{
    if for_all {
        return Ok(None);
    }
    match fields_under(alloc, value)? {
        Some(fields) => Ok(Some(ActDraft::Redact(fields))),
        None => Ok(None),
    }
}

fn quota_in(value: &Value) -> Option<ActDraft>
    ensures { result ≡ text.quota_in (view value.now) }
{
    let left = natural_under(value, "left")?;
    Some(ActDraft::Quota(left))
}

/// The act of this name.
#[tactic(auto, unfolding(crate::specs::Text::act_named))]
fn act_named(
    alloc: Global,
    for_all: bool,
    value: &Value,
    name: &str,
) -> Result<Option<ActDraft>, NoMemory>
    ensures { IfOk result (λ o. o ≡ text.act_named for_all (view value.now) name.now) }
{
    if name == "allow" {
        return Ok(Some(ActDraft::Allow));
    }
    if name == "block" {
        return Ok(Some(ActDraft::Block));
    }
    if name == "quota" {
        return Ok(quota_in(value));
    }
    if name == "redact" {
        return redact_in(alloc, for_all, value);
    }
    Ok(None)
}

fn act_under(alloc: Global, for_all: bool, value: &Value) -> Result<Option<ActDraft>, NoMemory>
    ensures { IfOk result (λ o. o ≡ text.act_under for_all (view value.now)) }
{
    match text_under(value, "do") {
        Some(name) => act_named(alloc, for_all, value, name),
        None => Ok(None),
    }
}

/// Whether a rule is for replies.
#[tactic(auto, unfolding(cl_labelling::specs::Text::reply_named))]
fn reply_named(name: &str) -> Option<bool>
    ensures { result ≡ way_named name.now }
{
    if name == "request" {
        return Some(false);
    }
    if name == "reply" {
        return Some(true);
    }
    None
}

/// The name of a function; `*` stands for all.
fn function_named(alloc: Global, name: &str) -> Result<Option<Name>, NoMemory>
    ensures { IfOk result (λ o. o ≡ text.function_named name.now) }
{
    if name == "*" {
        return Ok(None);
    }
    let name = Name::of(alloc, name)?;
    Ok(Some(name))
}

/// The texts of a rule that name what it is for.
#[derive(Clone, Copy)]
struct Texts<'a> {
    from: &'a str,
    to: &'a str,
    function: &'a str,
    reply: bool,
}

fn texts_in(value: &Value) -> Option<Texts>
    ensures { option_map (λ t. text.texts t.from.now t.to.now t.function.now t.reply) result ≡ text.texts_in (view value.now) }
{
    let from = text_under(value, "from")?;
    let to = text_under(value, "to")?;
    let function = text_under(value, "function")?;
    let reply = reply_named(text_under(value, "on")?)?;
    Some(Texts {
        from,
        to,
        function,
        reply,
    })
}

/// What a value says as a rule, where it has the shape of one.
#[tactic(auto, unfolding(crate::specs::Text::rule_in))]
pub(crate) fn rule_in(alloc: Global, value: &Value) -> Result<Option<RuleDraft>, NoMemory>
    ensures { IfOk result (λ o. o ≡ text.rule_in (view value.now)) }
{
    let Some(texts) = texts_in(value) else {
        return Ok(None);
    };
    let Some(act) = act_under(alloc, texts.function == "*", value)? else {
        return Ok(None);
    };
    let from = Name::of(alloc, texts.from)?;
    let to = Name::of(alloc, texts.to)?;
    let function = function_named(alloc, texts.function)?;
    let reply = texts.reply;
    Ok(Some(RuleDraft {
        from,
        to,
        function,
        reply,
        act,
    }))
}

/// The rules of a policy, each as its value, where it is an object of format 1 that has a list of them.
#[tactic(auto, unfolding(crate::specs::Text::rules_under))]
pub(crate) fn rules_under(value: &Value) -> Option<&[Value]>
    ensures { option_map (λ s. map view s.now) result ≡ text.rules_under (view value.now) }
{
    if integer_under(value, "format") != Some(1) {
        return None;
    }
    parts_under(value, "rules")
}
