//! How the rules end.

ghost use Rattle.std.specs.Prelude.{◌≡◌};

use cl_base::name::NoMemory;

/// Why a program isn't typed.
#[derive(Clone, Copy, PartialEq, Eq)]
pub enum SemaStop {
    /// The program breaks a rule, at this line.
    Rule { rule: u8, line: u32 },
    /// Memory ran out.
    NoMemory,
}

impl From<NoMemory> for SemaStop {
    ghost use Rattle.cl_sema.specs.declared.stop.SemaStop.TheVariants.{NoMemory};

    ghost from_gives = { λ e s. s ≡ NoMemory };

    fn from(_error: NoMemory) -> SemaStop {
        SemaStop::NoMemory
    }
}
