//! The rows of a program's calls across levels.

ghost use Rattle.std.specs.Prelude.{◌≡◌, ◌⊎◌, ℕ, IfOk, IfErr, MatchResult};
ghost use Rattle.cl_mean.specs.declared.checked.GedlRows.{GedlRows as GedlRowsValue};
ghost use Rattle.cl_typing.specs.Typing.{IsTyped};
ghost use Rattle.cl_labelling.specs.Labelling.{IsLabelled};
ghost use Rattle.cl_levels.specs.Crossings.{crossing_rules};
ghost use Rattle.cl_split.specs.Answer.{annotated, levelled, IsFailure, HasLevels, HasRows, RowsAnswer, CrossingsFail};

use crate::crossed::Crossed;
use crate::stop::SplitStop;
use cl_mean::checked::{GedlRows, Levels, Typed};
use cl_mean::labels::LabelTable;
use std::alloc::Global;

fn cross_program(
    alloc: Global,
    typed: &Typed,
    labels: &LabelTable,
    levels: &Levels,
) -> Result<GedlRows, SplitStop>
    requires typed { IsTyped typed.now.program typed.now }
    requires labels { IsLabelled typed.now labels.now }
    requires levels { HasLevels (annotated typed.now labels.now) levels.now }
    ensures { RowsAnswer (levelled typed.now labels.now levels.now) result }
{
    let crossed = Crossed::of(alloc, typed, labels, levels)?;
    crossed.look_entries()?;
    crossed.look_directions()?;
    crossed.look_levels(alloc)?;
    crossed.look_loans(alloc)?;
    crossed.look_payloads(alloc)?;
    let rows = crossed.rows(alloc)?;
    Ok(rows)
}

/// Looks at the rules E26 to E30 in this order, and gives the rows of a program's calls across levels, sorted
/// by the numbers of the caller's level, the callee's level and the function.
///
/// # Errors
///
/// The first rule that fails, with the line of its first place; or want of memory.
pub fn crossings(
    alloc: Global,
    typed: &Typed,
    labels: &LabelTable,
    levels: &Levels,
) -> Result<GedlRows, SplitStop>
    requires typed { IsTyped typed.now.program typed.now }
    requires labels { IsLabelled typed.now labels.now }
    requires levels { HasLevels (annotated typed.now labels.now) levels.now }
    // What is answered are the program's rows, and no rule fails.
    ensures found { IfOk result (λ r. HasRows (levelled typed.now labels.now levels.now) r) }
    // What has rows is answered with them, unless memory runs out.
    ensures only { (r : GedlRowsValue) → HasRows (levelled typed.now labels.now levels.now) r → MatchResult result (λ x. x ≡ r)
        (λ e. e ≡ SplitStop.NoMemory) }
    // A refusal names the first rule that fails, and its first place.
    ensures fails { IfErr result (λ e. IsFailure (crossing_rules (levelled typed.now labels.now levels.now)) e) }
    // Where a rule fails, the refusal names the first one and its first place.
    ensures rule { (rule line : ℕ) → CrossingsFail (levelled typed.now labels.now levels.now) rule line
        → MatchResult result (λ _. ⊥) (λ e. (e ≡ SplitStop.Rule rule line) ⊎ (e ≡ SplitStop.NoMemory)) }
{
    cross_program(alloc, typed, labels, levels)
}
