//! How the rules end.

ghost use Rattle.std.specs.Prelude.{◌≡◌};

use cl_base::name::NoMemory;

/// Why a program isn't divided.
#[derive(Clone, Copy, PartialEq, Eq)]
pub enum SplitStop {
    /// The program breaks a rule, at this line.
    Rule { rule: u8, line: u32 },
    /// Memory ran out.
    NoMemory,
}

impl From<NoMemory> for SplitStop {
    ghost use Rattle.cl_split.specs.declared.stop.SplitStop.TheVariants.{NoMemory};

    ghost from_gives = { λ e s. s ≡ NoMemory };

    fn from(_error: NoMemory) -> SplitStop {
        SplitStop::NoMemory
    }
}
