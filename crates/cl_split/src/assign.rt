//! The levels of a program.

ghost use Rattle.std.specs.Prelude.{◌≡◌, ◌⊎◌, ℕ, codes, IfOk, IfErr, MatchResult};
ghost use Rattle.cl_mean.specs.declared.checked.Levels.{Levels as LevelsValue};
ghost use Rattle.cl_typing.specs.Typing.{IsTyped};
ghost use Rattle.cl_labelling.specs.Labelling.{IsLabelled};
ghost use Rattle.cl_levels.specs.Crossings.{level_rules};
ghost use Rattle.cl_levels.specs.Placed.{FirstPlacedFails};
ghost use Rattle.cl_split.specs.Answer.{annotated, IsFailure, HasLevels, LevelsAnswer};

use crate::grounds::Grounds;
use crate::stop::SplitStop;
use cl_mean::checked::{Levels, Typed};
use cl_mean::labels::LabelTable;
use std::alloc::Global;

fn level_program(alloc: Global, typed: &Typed, labels: &LabelTable) -> Result<Levels, SplitStop>
    requires typed { IsTyped typed.now.program typed.now }
    requires labels { IsLabelled typed.now labels.now }
    ensures { LevelsAnswer (annotated typed.now labels.now) result }
{
    let found = Grounds::of(alloc, typed, labels)?;
    found.look_groups(alloc)?;
    found.look_names()?;
    let levels = found.levels(alloc)?;
    Ok(levels)
}

/// Looks at the rules E24 and E25 in this order, and gives the level of each function and of each object
/// of a program that is typed and has these labels.
///
/// # Errors
///
/// The first rule that fails, with the line of its first place; or want of memory.
pub fn assign(alloc: Global, typed: &Typed, labels: &LabelTable) -> Result<Levels, SplitStop>
    requires typed { IsTyped typed.now.program typed.now }
    requires labels { IsLabelled typed.now labels.now }
    // What is answered are the program's levels, and no rule fails.
    ensures found { IfOk result (λ l. HasLevels (annotated typed.now labels.now) l) }
    // What has levels is answered with them, unless memory runs out.
    ensures only { (l : LevelsValue) → HasLevels (annotated typed.now labels.now) l → MatchResult result (λ x. x ≡ l)
        (λ e. e ≡ SplitStop.NoMemory) }
    // A refusal names the first rule that fails, and its first place.
    ensures fails { IfErr result (λ e. IsFailure (level_rules (annotated typed.now labels.now)) e) }
    // Where a rule fails, the refusal names the first one and its first place.
    ensures rule { (rule line : ℕ) → FirstPlacedFails (level_rules (annotated typed.now labels.now)) rule line
        → MatchResult result (λ _. ⊥) (λ e. (e ≡ SplitStop.Rule rule line) ⊎ (e ≡ SplitStop.NoMemory)) }
{
    level_program(alloc, typed, labels)
}
