//! The parts of a JSON value, where it has them in the kinds that are asked for.

ghost use Rattle.std.specs.Prelude.{◌≡◌, map, option_map, option_and_then, IfOk};
ghost use Rattle.serde_json.specs.Find.{as_array, as_integer, get};
ghost use Rattle.serde_json.specs.View.{view, number_view};
ghost use Rattle.cl_labelling.specs.Json.{listed, text_under as text_at, integer_under as integer_at};
ghost use Rattle.cl_labelling.specs.Text.{path_of as path_in};
ghost use Rattle.guard_rules.specs.Text.{natural_under as natural_at};

use cl_base::name::{Name, NoMemory};
use serde_json::{Number, Value};
use sqlite_items::Items;
use std::alloc::{AllocError, Global};

/// The text under a key.
#[tactic(auto, unfolding(cl_labelling::specs::Json::text_under))]
pub(crate) fn text_under<'a>(value: &'a Value, key: &str) -> Option<&'a str>
    ensures { option_map (λ s. s.now) result ≡ text_at key.now (view value.now) }
{
    value.get(key)?.as_str()
}

fn integer_of(number: &Number) -> Option<i128>
    ensures { result ≡ as_integer (number_view number.now) }
{
    if let Some(unsigned) = number.as_u64() {
        return Some(i128::from(unsigned));
    }
    match number.as_i64() {
        Some(signed) => Some(i128::from(signed)),
        None => None,
    }
}

/// The parts of a list.
#[tactic(auto, using(crate::proofs::Arrays::listed_view))]
fn parts_of(value: &Value) -> Option<&[Value]>
    ensures { option_map (λ s. map view s.now) result ≡ option_map listed (as_array (view value.now)) }
{
    match value.as_array() {
        Some(parts) => Some(parts.as_slice()),
        None => None,
    }
}

/// The parts of a list under a key.
pub(crate) fn parts_under<'a>(value: &'a Value, key: &str) -> Option<&'a [Value]>
    ensures { option_map (λ s. map view s.now) result ≡ option_map listed (option_and_then as_array (get key.now (view value.now))) }
{
    match value.get(key) {
        Some(list) => parts_of(list),
        None => None,
    }
}

/// The whole number under a key.
#[tactic(auto, unfolding(cl_labelling::specs::Json::integer_under))]
pub(crate) fn integer_under(value: &Value, key: &str) -> Option<i128>
    ensures { result ≡ integer_at key.now (view value.now) }
{
    integer_of(value.get(key)?.as_number()?)
}

/// The whole number of at least 0 under a key.
#[tactic(auto, unfolding(crate::specs::Text::natural_under))]
pub(crate) fn natural_under(value: &Value, key: &str) -> Option<u64>
    ensures { result ≡ natural_at key.now (view value.now) }
{
    value.get(key)?.as_u64()
}

#[tactic(auto, unfolding(cl_labelling::specs::Text::path_of))]
fn pieces(alloc: Global, text: &str) -> Result<Vec<&str>, AllocError>
    ensures { IfOk result (λ v. map (λ x. x.now) v.items ≡ path_in text.now) }
{
    text.split('.').collect(alloc)
}

/// The names of a path: a text that is cut at each `.`.
pub(crate) fn path_of(alloc: Global, text: &str) -> Result<Items<Name>, NoMemory>
    ensures { IfOk result (λ p. p ≡ path_in text.now) }
{
    let pieces = pieces(alloc, text)?;
    let mut path = Items::new(alloc);
    for piece in pieces.as_slice() {
        path.push(Name::of(alloc, piece)?)?;
    }
    Ok(path)
}
