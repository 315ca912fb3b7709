//! The report of a run.

ghost use Rattle.std.specs.Prelude.{◌≡◌, ◌++◌, OnOk, IsErrOf, IsErr, map, codes};
ghost use Rattle.cl_base.specs.Outside.{Counts};
ghost use Rattle.cl_job.specs.RunAnswer.{level_text, levels_text};
ghost use Rattle.cl_job.specs.Sinks.{Grew};
ghost use Rattle.cl_job.specs.Texts.{last_text};

use crate::texts;
use cl_base::name::Name;
use cl_base::outside::{Failed, Sink};
use cl_run::run::Finished;
use cl_run::state::LevelState;
use sqlite_items::Items;
use std::alloc::{AllocError, Global};

/// Why a report was not written whole.
#[derive(Clone, Copy, Debug, PartialEq, Eq)]
pub enum ReportStop {
    /// A put failed.
    WriteFault,
    NoMemory,
}

impl From<AllocError> for ReportStop {
    ghost use Rattle.std.specs.Prelude.{◌≡◌};
    ghost use Rattle.cl_job.specs.declared.report.ReportStop.TheVariants.{NoMemory};

    ghost from_gives = { λ _ stop. stop ≡ NoMemory };

    fn from(_: AllocError) -> ReportStop {
        ReportStop::NoMemory
    }
}

impl From<Failed> for ReportStop {
    ghost use Rattle.std.specs.Prelude.{◌≡◌};
    ghost use Rattle.cl_job.specs.declared.report.ReportStop.TheVariants.{WriteFault};

    ghost from_gives = { λ _ stop. stop ≡ WriteFault };

    fn from(_: Failed) -> ReportStop {
        ReportStop::WriteFault
    }
}

/// Puts one piece.
pub(crate) fn put<O: Sink>(out: &mut O, piece: &[u8]) -> Result<(), Failed>
    ensures counts { Counts (IsErr result) (O.fault_count out.old) (O.fault_count out.new) }
    ensures wrote { OnOk result (Grew piece.now (O.written out.old) (O.written out.new)) }
{
    out.put(piece)
}

/// Puts what one level wrote: a line before it, and its bytes with a newline behind them.
#[tactic(auto, using(crate::proofs::Growth::growth), unfolding(crate::specs::RunAnswer::level_text))]
fn put_level<O: Sink>(
    alloc: Global,
    out: &mut O,
    name: &Name,
    output: &[u8],
) -> Result<(), ReportStop>
    ensures counts { Counts (IsErrOf result ReportStop.WriteFault) (O.fault_count out.old) (O.fault_count out.new) }
    ensures wrote { OnOk result (Grew (level_text name.now output.now) (O.written out.old) (O.written out.new)) }
{
    let head = texts::level_head(alloc, name.text(), output.len())?;
    let mut bytes = Vec::from_slice(alloc, output)?;
    bytes.extend_from_slice(b"\n")?;
    put(out, head.as_bytes())?;
    put(out, bytes.as_slice())?;
    Ok(())
}

/// Puts what each level wrote, in order.
#[tactic(auto, using(crate::proofs::Growth::growth))]
fn put_levels<O: Sink>(
    alloc: Global,
    out: &mut O,
    names: &[Name],
    levels: &[LevelState],
) -> Result<(), ReportStop>
    ensures counts { Counts (IsErrOf result ReportStop.WriteFault) (O.fault_count out.old) (O.fault_count out.new) }
    ensures wrote { OnOk result (Grew (levels_text names.now (map (λ l. l.output) levels.now)) (O.written out.old) (O.written out.new)) }
{
    let [name, names @ ..] = names else {
        return Ok(());
    };
    let [level, levels @ ..] = levels else {
        return Ok(());
    };
    put_level(alloc, out, name, level.output.as_slice())?;
    put_levels(alloc, out, names, levels)
}

/// Puts the report of a run: its levels, the number of frames, and its end.
#[tactic(auto, using(crate::proofs::Growth::growth))]
pub fn put_report<O: Sink>(
    alloc: Global,
    out: &mut O,
    names: &[Name],
    finished: &Finished,
) -> Result<(), ReportStop>
    ensures counts { Counts (IsErrOf result ReportStop.WriteFault) (O.fault_count out.old) (O.fault_count out.new) }
    ensures wrote { OnOk result (Grew (levels_text names.now (map (λ l. l.output) finished.now.state.levels) ++ last_text names.now finished.now.hal.frames finished.now.end) (O.written out.old) (O.written out.new)) }
{
    let last = texts::last_text(alloc, names, finished.hal.frames(), finished.end)?;
    put_levels(alloc, out, names, finished.state.levels.as_slice())?;
    put(out, last.as_bytes())?;
    Ok(())
}
