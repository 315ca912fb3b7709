//! How reading ends without a program.

ghost use Rattle.std.specs.Prelude.{◌≡◌};

use cl_base::name::NoMemory;
use std::alloc::AllocError;

#[derive(Clone, Copy, Debug, PartialEq, Eq)]
pub enum ParseStop {
    /// The tokens break a rule, E23 or E06, at this line.
    Rule { rule: u8, line: u32 },
    /// Memory ran out.
    NoMemory,
}

impl From<AllocError> for ParseStop {
    ghost use Rattle.cl_parse.specs.declared.stop.ParseStop.TheVariants.{NoMemory};

    ghost from_gives = { λ e s. s ≡ NoMemory };

    fn from(_error: AllocError) -> ParseStop {
        ParseStop::NoMemory
    }
}

impl From<NoMemory> for ParseStop {
    ghost use Rattle.cl_parse.specs.declared.stop.ParseStop.TheVariants.{NoMemory};

    ghost from_gives = { λ e s. s ≡ NoMemory };

    fn from(_error: NoMemory) -> ParseStop {
        ParseStop::NoMemory
    }
}
