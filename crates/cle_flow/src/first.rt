//! The first line where a rule fails.

ghost use Rattle.std.specs.Prelude.{◌≡◌, [], ◌∷◌};
ghost use Rattle.std.specs.List.{flat_map};
ghost use Rattle.cl_groups.specs.Marks.{IsLeast};
ghost use Rattle.cl_levels.specs.Placed.{placed};
ghost use Rattle.cle_ways.specs.Flow.{exceeded};
ghost use Rattle.cle_ways.specs.Ways.{notes_of};
ghost use Rattle.cle_table.specs.Exact.{noted};
ghost use Rattle.cle_flow.specs.Judged.{Knows, Broken};
ghost use Rattle.cle_flow.specs.Answer.{RulesAnswer};

use crate::bounds::{Judge, exceeds};
use crate::stop::FlowStop;
use cl_groups::conflicts::lesser;
use cle_walk::program::Notes;
use cle_ways::ways::{Body, Note};

/// The line of a bound of the rule that is exceeded.
fn broken_line(judge: &Judge<'_>, rule: u8, note: &Note) -> Option<u32>
    requires { Knows judge.now }
    ensures { IsLeast (Broken judge.now.program rule (note.now ∷ [])) result }
{
    if let Note::Bounds(bound) = note {
        if bound.rule == rule && exceeds(judge, bound) {
            return Some(bound.line);
        }
    }
    None
}

/// The least line where a rule fails, among notes.
fn least_line(judge: &Judge<'_>, rule: u8, notes: &[Note]) -> Option<u32>
    requires { Knows judge.now }
    ensures { IsLeast (Broken judge.now.program rule notes.now) result }
{
    let mut least = None;
    for note in notes {
        least = lesser(least, broken_line(judge, rule, note));
    }
    least
}

/// The least line where a rule fails in functions.
fn least_in_bodies(judge: &Judge<'_>, rule: u8, functions: &[Body]) -> Option<u32>
    requires { Knows judge.now }
    ensures { IsLeast (Broken judge.now.program rule (flat_map (λ b. b.notes) functions.now)) result }
{
    let mut least = None;
    for function in functions {
        least = lesser(least, least_line(judge, rule, function.notes.as_slice()));
    }
    least
}

/// The least line where a rule fails.
fn first_line(judge: &Judge<'_>, rule: u8, notes: &Notes) -> Option<u32>
    requires { Knows judge.now }
    ensures { IsLeast (Broken judge.now.program rule (noted notes.now)) result }
{
    lesser(
        least_line(judge, rule, notes.objects.as_slice()),
        least_in_bodies(judge, rule, notes.functions.as_slice()),
    )
}

/// Looks at one rule.
pub fn look(judge: &Judge<'_>, rule: u8, notes: &Notes) -> Result<(), FlowStop>
    requires knows { Knows judge.now }
    requires notes { noted notes.now ≡ notes_of judge.now.program }
    ensures { RulesAnswer (placed rule (exceeded rule judge.now.program) ∷ []) result }
{
    match first_line(judge, rule, notes) {
        Some(line) => Err(FlowStop::Rule { rule, line }),
        None => Ok(()),
    }
}
