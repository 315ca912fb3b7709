//! What instructions answer.

ghost use Rattle.std.specs.Prelude.{◌≡◌, Some, length};
ghost use Rattle.en_machine.specs.declared.stopped.Stopped.TheVariants.{Trapped};
ghost use Rattle.en_machine.specs.Steps.{answer_of, all_fit};

use crate::memory::Stop;
use crate::stopped::Stopped;
use cl_mean::outcome::Trap;
use cl_tree::arithmetic::fits;
use cl_tree::kinds::{IntKind, TrapCause};

/// What an instruction on cells means for the machine.
pub fn answer(done: Result<(), Stop>, line: u32) -> Option<Stopped>
    ensures { result ≡ answer_of done line }
{
    match done {
        Ok(()) => Some(Stopped::Spent),
        Err(Stop::Trap(cause)) => Some(Stopped::Trapped(Trap { cause, line })),
        Err(Stop::Stuck) => None,
    }
}

/// A trap.
pub fn trap(cause: TrapCause, line: u32) -> Option<Stopped>
    ensures { result ≡ Some (Trapped (record { cause = cause; line = line })) }
{
    Some(Stopped::Trapped(Trap { cause, line }))
}

/// Each value is one of its kind.
pub fn all_fit(kinds: &[IntKind], values: &[i128]) -> bool
    requires { length kinds.now ≡ length values.now }
    ensures { result ≡ all_fit kinds.now values.now }
{
    for (i, kind) in kinds.iter().enumerate() {
        if !fits(*kind, values[i]) {
            return false;
        }
    }
    true
}
