//! E26 and E27: the entry by which a function is called across levels.

ghost use Rattle.std.specs.Prelude.{◌≡◌, MatchOption, Some, None, is_some};
ghost use Rattle.cl_mean.specs.Judging.{entry_for};
ghost use Rattle.cl_levels.specs.Crossings as crossing;
ghost use Rattle.cl_scope.specs.Finds.{Finds};
ghost use Rattle.cl_calls.specs.Calls.{both_ways, entry_of, label_for, no_entry_in, wrong_direction_in};

use crate::calls::level_at;
use cl_groups::own::own_at;
use cl_levels::uses::Call;
use cl_mean::checked::Levels;
use cl_mean::labels::{Direction, Entry, LabelFact, LabelTable};
use cl_scope::search::unless;
use cl_scope::stop::Stop;
use cle_share::shareable::label_at;

/// The label of a function.
pub fn label_for(labels: &LabelTable, f: usize) -> Option<&LabelFact>
    ensures { MatchOption result (label_for labels.now f ≡ None) (λ l. label_for labels.now f ≡ Some l.now) }
{
    match own_at(labels.on_functions.as_slice(), f) {
        Some(k) => label_at(labels.labels.as_slice(), k),
        None => None,
    }
}

/// The first entry for a level.
#[tactic(auto, unfolding(cl_mean::specs::Judging::entry_for))]
pub fn entry_for(entries: &[Entry], level: u32) -> Option<&Entry>
    ensures { MatchOption result (entry_for entries.now level ≡ None) (λ e. entry_for entries.now level ≡ Some e.now) }
{
    for entry in entries {
        if entry.remote == level {
            return Some(entry);
        }
    }
    None
}

/// The entry of the callee's label for the caller's level.
#[tactic(auto, unfolding(cl_mean::specs::Judging::entry_for))]
pub fn entry_of<'a>(labels: &'a LabelTable, levels: &Levels, call: Call) -> Option<&'a Entry>
    ensures { MatchOption result (entry_of labels.now levels.now call ≡ None) (λ e. entry_of labels.now levels.now call ≡ Some e.now) }
{
    match label_for(labels, call.callee) {
        Some(label) => entry_for(label.entries.as_slice(), level_at(levels, call.caller)),
        None => None,
    }
}

fn is_bidirectional(direction: Direction) -> bool
    ensures { result ≡ both_ways direction }
{
    match direction {
        Direction::Bidirectional => true,
        Direction::Egress | Direction::Ingress => false,
    }
}

/// Whether a call has an entry that opens both ways.
#[tactic(auto, using(crate::proofs::Filtered::one_way))]
fn goes_both_ways(labels: &LabelTable, levels: &Levels, call: Call) -> bool
    ensures { result ≡ crossing.goes_both_ways (entry_of labels.now levels.now call) }
{
    match entry_of(labels, levels, call) {
        Some(entry) => is_bidirectional(entry.direction),
        None => false,
    }
}

/// Whether a call has an entry.
fn has_entry(labels: &LabelTable, levels: &Levels, call: Call) -> bool
    ensures { result ≡ is_some (entry_of labels.now levels.now call) }
{
    entry_of(labels, levels, call).is_some()
}

/// E26: the first call across levels for which its callee's label has no entry.
#[tactic(auto, unfolding(crate::specs::Calls::no_entry_in))]
pub fn no_entry(labels: &LabelTable, levels: &Levels, crossings: &[Call]) -> Result<(), Stop>
    ensures { Finds result (no_entry_in labels.now levels.now crossings.now) }
{
    for call in crossings {
        unless(has_entry(labels, levels, *call), call.line)?;
    }
    Ok(())
}

/// E27: the first call across levels whose entry doesn't open both ways.
#[tactic(auto, unfolding(crate::specs::Calls::wrong_direction_in))]
pub fn wrong_direction(labels: &LabelTable, levels: &Levels, crossings: &[Call]) -> Result<(), Stop>
    ensures { Finds result (wrong_direction_in labels.now levels.now crossings.now) }
{
    for call in crossings {
        unless(goes_both_ways(labels, levels, *call), call.line)?;
    }
    Ok(())
}
