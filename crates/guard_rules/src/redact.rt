//! The integers under the paths of a rule.

ghost use Rattle.std.specs.Prelude.{◌≡◌, ◌++◌, ◌&&◌, true, false, map, IfOk, OnOk};
ghost use Rattle.std.specs.List.{list_all};
ghost use Rattle.cl_tree.specs.Arithmetic.{fits};
ghost use Rattle.cl_mean.specs.Judging.{patch_with};
ghost use Rattle.guard_rules.specs.Answer.{FieldAnswer, FieldsAnswer, PlacesAnswer};
ghost use Rattle.guard_rules.specs.Policy.{payload};

use crate::draft::Field;
use crate::found::{Found, Paths, Sent};
use cl_base::name::NoMemory;
use cl_mean::law::Patch;
use cl_tree::arithmetic::fits;
use guard_places::places::Place;
use sqlite_items::Items;
use std::alloc::Global;

/// Whether the number is in the type of each of these integers.
fn all_fit(places: &[Place], with: i128) -> bool
    ensures { result ≡ list_all (λ p. fits p.kind with) places.now }
{
    places.iter().all(|place| fits(place.kind, with))
}

/// Adds a patch for each of these integers.
fn push_patches(places: &[Place], with: i128, patches: &mut Items<Patch>) -> Result<(), NoMemory>
    ensures { OnOk result (patches.new ≡ patches.old ++ map (λ p. patch_with with p.at) places.now) }
{
    for place in places {
        let at = place.at;
        patches.push(Patch { at, with })?;
    }
    Ok(())
}

/// Adds the patches of a field with these integers under its path, and says whether its number is in their types; None where
/// there is none.
fn push_found(
    places: &[Place],
    with: i128,
    patches: &mut Items<Patch>,
) -> Result<Option<bool>, NoMemory>
    ensures { IfOk result (PlacesAnswer places.now with patches.old patches.new) }
{
    if places.is_empty() {
        return Ok(None);
    }
    push_patches(places, with, patches)?;
    Ok(Some(all_fit(places, with)))
}

/// Adds the patches of a field, and says whether its number is in the type of each integer under its path; None where there is none.
fn push_field<'a>(
    alloc: Global,
    paths: &mut Paths<'a>,
    sent: Sent,
    field: &'a Field,
    patches: &mut Items<Patch>,
) -> Result<Option<bool>, NoMemory>
    ensures kept { paths.new ≡ paths.old }
    ensures answer { IfOk result (FieldAnswer (payload paths.old sent.function sent.reply) field.now patches.old patches.new) }
{
    let path = field.path.as_slice();
    if let Some(places) = paths.get(sent, path) {
        let answer = push_found(places, field.with, patches)?;
        return Ok(answer);
    }
    let places = paths.find(alloc, sent, path)?;
    let answer = push_found(places.as_slice(), field.with, patches)?;
    paths.keep(Found { sent, path, places });
    Ok(answer)
}

/// The patches of a rule that redacts, and whether its numbers are in the types of the integers under their paths.
#[derive(Drop)]
pub(crate) struct Redacted {
    pub(crate) patches: Items<Patch>,
    pub(crate) fits: bool,
}

/// What fields replace; None where the path of one names no integer.
pub(crate) fn redact_all<'a>(
    alloc: Global,
    paths: &mut Paths<'a>,
    sent: Sent,
    fields: &'a [Field],
) -> Result<Option<Redacted>, NoMemory>
    ensures kept { paths.new ≡ paths.old }
    ensures answer { IfOk result (FieldsAnswer (payload paths.old sent.function sent.reply) fields.now) }
{
    let mut patches = Items::new(alloc);
    let mut fits = true;
    for field in fields {
        let Some(fit) = push_field(alloc, paths, sent, field, &mut patches)? else {
            return Ok(None);
        };
        fits = fits && fit;
    }
    Ok(Some(Redacted { patches, fits }))
}
