//! Sources of one level.

ghost use Rattle.std.specs.Prelude.{◌≡◌, IfOk, Some};
ghost use Rattle.cl_form.specs.Form.{alone_checked};
ghost use Rattle.cl_form.specs.Reading.{Gives, is_main, alone_of, read_alone};

use crate::checked::{alone_gedl, alone_levels, alone_typed, levels_of, no_flow, unlabelled};
use crate::head::{alone_head, is_headed};
use crate::names::Alone;
use crate::part::{function_of, level_def};
use crate::shape::is_main;
use crate::stop::FormStop;
use cl_base::name::NoMemory;
use cl_mean::checked::Checked;
use cl_tree::tree::{Item, Program};
use std::alloc::Global;

/// The names of a program of one level: a label, and `main`.
#[tactic(auto, unfolding(crate::specs::Reading::alone_of))]
fn alone_of(alloc: Global, items: &[Item]) -> Result<Alone, FormStop>
    ensures { Gives (λ a. a) result (alone_of items.now) }
{
    let [label, main] = items else {
        return Err(FormStop::NoReading);
    };
    let (label, level) = level_def(alloc, 1, label)?;
    let Some((name, line, body)) = function_of(main) else {
        return Err(FormStop::NoReading);
    };
    if is_main(None, name, body) {
        Ok(Alone { label, level, line })
    } else {
        Err(FormStop::NoReading)
    }
}

/// The checked program of one level.
fn alone_checked(alloc: Global, program: Program, found: &Alone) -> Result<Checked, NoMemory>
    ensures { IfOk result (λ c. c ≡ alone_checked program found.now.level found.now.line) }
{
    Ok(Checked {
        typed: alone_typed(alloc, program, found.line)?,
        labels: unlabelled(alloc, levels_of(alloc, &found.level)?),
        levels: alone_levels(alloc)?,
        flow: no_flow(alloc),
        gedl: alone_gedl(alloc, &found.level)?,
    })
}

/// Reads the program of a source as one of one level.
#[tactic(auto, unfolding(crate::specs::Reading::read_alone))]
pub fn read_alone(alloc: Global, source: &[u8], program: Program) -> Result<Checked, FormStop>
    ensures { Gives (λ c. c) result (read_alone source.now program) }
{
    let found = alone_of(alloc, program.items.as_slice())?;
    let head = alone_head(alloc, &found)?;
    if is_headed(head.as_slice(), source) {
        Ok(alone_checked(alloc, program, &found)?)
    } else {
        Err(FormStop::NoReading)
    }
}
