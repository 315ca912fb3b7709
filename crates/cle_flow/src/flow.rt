//! The labels that a program's data carries.

ghost use Rattle.std.specs.Prelude.{◌≡◌, ◌⊎◌, ℕ, IfOk, IfErr, MatchResult};
ghost use Rattle.cl_mean.specs.declared.checked.Flow.{Flow as FlowValue};
ghost use Rattle.cle_ways.specs.Programs.{levelled};
ghost use Rattle.cle_ways.specs.Flow.{flow_rules};
ghost use Rattle.cle_ways.specs.Ways.{notes_of};
ghost use Rattle.cle_table.specs.Exact.{noted};
ghost use Rattle.cle_flow.specs.Judged.{Knows};
ghost use Rattle.cle_flow.specs.Answer.{IsFailure, HasFlow, RulesAnswer, FlowAnswer, FlowFails};

use crate::admitted::admitted;
use crate::bounds::Judge;
use crate::first::look;
use crate::stop::FlowStop;
use cl_mean::checked::{Flow, Levels, Typed};
use cl_mean::labels::LabelTable;
use cle_table::table::Table;
use cle_walk::program::{Notes, note_program};
use cle_ways::facts::Program;
use std::alloc::Global;

/// Looks at the rules in turn.
fn look_rules(judge: &Judge<'_>, notes: &Notes) -> Result<(), FlowStop>
    requires knows { Knows judge.now }
    requires notes { noted notes.now ≡ notes_of judge.now.program }
    ensures { RulesAnswer (flow_rules judge.now.program) result }
{
    look(judge, 31, notes)?;
    look(judge, 32, notes)?;
    look(judge, 33, notes)?;
    look(judge, 34, notes)?;
    Ok(())
}

fn flow_program(
    alloc: Global,
    typed: &Typed,
    labels: &LabelTable,
    levels: &Levels,
) -> Result<Flow, FlowStop>
    ensures { FlowAnswer (levelled typed.now labels.now levels.now) result }
{
    let notes = note_program(alloc, typed, labels, levels)?;
    let program = Program::of(alloc, typed, labels, levels)?;
    let admitted = admitted(alloc, &program, labels.on_functions.as_slice())?;
    let carried = Table::of(alloc, &notes)?;
    let judge = Judge {
        program,
        carried,
        admitted,
    };
    look_rules(&judge, &notes)?;
    let flow = judge
        .carried
        .flow(alloc, typed.objects.len(), notes.functions.as_slice())?;
    Ok(flow)
}

/// Looks at the rules E31 to E34 in this order, and gives the labels that each variable and each function's
/// result carries, sorted: labels by their numbers, and the labels of levels behind them.
///
/// # Errors
///
/// The first rule that fails, with the line of its first place; or want of memory.
pub fn flow(
    alloc: Global,
    typed: &Typed,
    labels: &LabelTable,
    levels: &Levels,
) -> Result<Flow, FlowStop>
    // What is answered is just what is carried, and no rule fails.
    ensures found { IfOk result (λ f. HasFlow (levelled typed.now labels.now levels.now) f) }
    // What is carried, where no rule fails, is answered, unless memory runs out.
    ensures only { (f : FlowValue) → HasFlow (levelled typed.now labels.now levels.now) f → MatchResult result (λ x. x ≡ f)
        (λ e. e ≡ FlowStop.NoMemory) }
    // A refusal names the first rule that fails, and its first place.
    ensures fails { IfErr result (λ e. IsFailure (flow_rules (levelled typed.now labels.now levels.now)) e) }
    // Where a rule fails, the refusal names the first one and its first place.
    ensures rule { (rule line : ℕ) → FlowFails (levelled typed.now labels.now levels.now) rule line
        → MatchResult result (λ _. ⊥) (λ e. (e ≡ FlowStop.Rule rule line) ⊎ (e ≡ FlowStop.NoMemory)) }
{
    flow_program(alloc, typed, labels, levels)
}
