//! Where a machine stands.

ghost use Rattle.std.specs.Prelude.{◌≡◌};
ghost use Rattle.en_machine.specs.Phases.{phase_after};

use crate::stopped::Stopped;

/// At rest, within a run, or waiting for the reply of a row.
#[derive(Clone, Copy, Debug, PartialEq, Eq)]
pub enum Phase {
    Rests,
    Runs,
    Awaits(u32),
}

impl Phase {
    /// Where a machine stands that gave this answer.
    pub fn after(stopped: Stopped) -> Phase
        ensures { result ≡ phase_after stopped }
    {
        match stopped {
            Stopped::Spent => Phase::Runs,
            Stopped::Asks(row) => Phase::Awaits(row),
            Stopped::Ended | Stopped::Trapped(_) => Phase::Rests,
        }
    }
}
