//! How reading ends without a tree.

ghost use Rattle.std.specs.Prelude.{◌≡◌};

use cl_base::name::NoMemory;
use std::alloc::AllocError;

#[derive(Clone, Copy, Debug, PartialEq, Eq)]
pub enum Stop {
    /// Memory ran out.
    Memory,
    /// The terminals don't read so.
    Unread,
}

impl From<AllocError> for Stop {
    ghost use Rattle.cl_parse_expr.specs.declared.stop.Stop.TheVariants.{Memory};

    ghost from_gives = { λ e s. s ≡ Memory };

    fn from(_error: AllocError) -> Stop {
        Stop::Memory
    }
}

impl From<NoMemory> for Stop {
    ghost use Rattle.cl_parse_expr.specs.declared.stop.Stop.TheVariants.{Memory};

    ghost from_gives = { λ e s. s ≡ Memory };

    fn from(_error: NoMemory) -> Stop {
        Stop::Memory
    }
}
