//! Why a step of a run gives no result.

use cl_base::name::NoMemory;
use cl_mean::outcome::Trap;
use std::alloc::AllocError;

/// Why a step gives no result.
#[derive(Clone, Copy, Debug, PartialEq, Eq)]
pub enum Stop {
    /// A trap at a level.
    Trapped(u32, Trap),
    NoMemory,
}

impl From<AllocError> for Stop {
    ghost use Rattle.std.specs.Prelude.{◌≡◌};
    ghost use Rattle.cl_run.specs.declared.stop.Stop.TheVariants.{NoMemory};

    ghost from_gives = { λ _ stop. stop ≡ NoMemory };

    fn from(_: AllocError) -> Stop {
        Stop::NoMemory
    }
}

impl From<NoMemory> for Stop {
    ghost use Rattle.std.specs.Prelude.{◌≡◌};
    ghost use Rattle.cl_run.specs.declared.stop.Stop.TheVariants.{NoMemory as WantsMemory};

    ghost from_gives = { λ _ stop. stop ≡ WantsMemory };

    fn from(_: NoMemory) -> Stop {
        Stop::NoMemory
    }
}
