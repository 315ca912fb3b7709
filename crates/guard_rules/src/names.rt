//! The levels and the function that a rule of a policy names.

ghost use Rattle.std.specs.Prelude.{◌≡◌, ◌<◌, length, option_map, IfOk, IfSome, MatchOption, Some, None, bytes_eq};
ghost use Rattle.std.specs.List.{find, position};
ghost use Rattle.guard_rules.specs.Policy.{function_of, is_row, level_named, row_named, target_of};

use crate::draft::RuleDraft;
use cl_base::name::{Name, NoMemory};
use cl_mean::checked::{Checked, GedlRow};

/// Two levels and a function by their numbers; without a function it is all of them.
#[derive(Clone, Copy)]
pub struct Target {
    pub(crate) from: u32,
    pub(crate) to: u32,
    pub(crate) function: Option<u32>,
}

fn place_of(levels: &[Name], name: &Name) -> Option<usize>
    ensures { result ≡ position (λ level. bytes_eq level name.now) levels.now }
{
    levels
        .iter()
        .position(|level| level.as_bytes() == name.as_bytes())
}

fn level_named(checked: &Checked, name: &Name) -> Result<Option<u32>, NoMemory>
    ensures { IfOk result (λ o. o ≡ level_named checked.now name.now) }
{
    let Some(place) = place_of(checked.labels.levels.as_slice(), name) else {
        return Ok(None);
    };
    match u32::try_from(place) {
        Ok(level) => Ok(Some(level)),
        Err(_) => Err(NoMemory),
    }
}

/// Whether a row is that of a function which one level calls at another.
fn is_row(row: &GedlRow, from: u32, to: u32, name: &Name) -> bool
    ensures { result ≡ is_row from to name.now row.now }
{
    row.from == from && row.to == to && row.name.as_bytes() == name.as_bytes()
}

fn row_named<'a>(checked: &'a Checked, from: u32, to: u32, name: &Name) -> Option<&'a GedlRow>
    ensures { option_map (λ r. r.now) result ≡ row_named checked.now from to name.now }
{
    let rows = checked.gedl.rows.as_slice();
    rows.iter().find(|row| is_row(row, from, to, name))
}

/// The number of a rule's function, if it has one.
fn function_of(checked: &Checked, from: u32, to: u32, name: Option<&Name>) -> Option<Option<u32>>
    ensures { result ≡ function_of checked.now from to (option_map (λ n. n.now) name.entry) }
{
    match name {
        Some(name) => Some(Some(row_named(checked, from, to, name)?.function)),
        None => Some(None),
    }
}

/// What a rule is for, if it names two levels, and a row unless it is for all functions.
#[tactic(auto, unfolding(crate::specs::Policy::target_of))]
pub(crate) fn target_of(checked: &Checked, draft: &RuleDraft) -> Result<Option<Target>, NoMemory>
    ensures { IfOk result (λ o. o ≡ target_of checked.now draft.now) }
{
    let Some(from) = level_named(checked, &draft.from)? else {
        return Ok(None);
    };
    let Some(to) = level_named(checked, &draft.to)? else {
        return Ok(None);
    };
    match function_of(checked, from, to, draft.function.as_ref()) {
        Some(function) => Ok(Some(Target { from, to, function })),
        None => Ok(None),
    }
}
