//! What a machine keeps of its calls, and why it stands.

ghost use Rattle.std.specs.Prelude.{◌≡◌, ◌+◌, ◌*◌, ◌<◌, ◌≤◌, ◌^◌, IfSome, IfNone};
ghost use Rattle.cl_base.specs.declared.limits.TheConstants.{ACTIVE_CALLS};

use crate::memory::Frame;
use cl_base::limits::ACTIVE_CALLS;
use cl_mean::outcome::Trap;

/// A call that waits for another: where it goes on, and its frame.
#[derive(Clone, Copy, Debug, PartialEq, Eq)]
pub struct Caller {
    pub back: usize,
    pub frame: Frame,
}

/// Why a machine stands: its instructions are spent, it asks with the request of a row, it came to its end, or
/// it trapped.
#[derive(Clone, Copy, Debug, PartialEq, Eq)]
pub enum Stopped {
    Spent,
    Asks(u32),
    Ended,
    Trapped(Trap),
}

/// How many static cells an image has, and how many cells its largest frame.
#[derive(Clone, Copy, Debug, PartialEq, Eq)]
pub struct Sizes {
    pub statics: usize,
    pub largest: usize,
}

impl Sizes {
    /// How many cells there are at most: the static ones, and a frame for each of the calls that may be active and
    /// one below them. There is none where that passes a `usize`.
    pub fn room(self) -> Option<usize>
        requires { self.largest < 2 ^ 32 }
        ensures value { IfSome result (λ room. room ≡ self.statics + (ACTIVE_CALLS + 1) * self.largest) }
        ensures past_all { IfNone result (2 ^ 64 ≤ self.statics + (ACTIVE_CALLS + 1) * self.largest) }
    {
        self.statics
            .checked_add((ACTIVE_CALLS as usize + 1) * self.largest)
    }
}
