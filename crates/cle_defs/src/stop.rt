//! How the rules end.

ghost use Rattle.std.specs.Prelude.{◌≡◌};

use cl_base::name::NoMemory;

/// Why a program has no table of labels.
#[derive(Clone, Copy, PartialEq, Eq)]
pub enum CleStop {
    /// The program breaks a rule, at this line.
    Rule { rule: u8, line: u32 },
    /// Memory ran out.
    NoMemory,
}

impl From<NoMemory> for CleStop {
    ghost use Rattle.cle_defs.specs.declared.stop.CleStop.TheVariants.{NoMemory};

    ghost from_gives = { λ e s. s ≡ NoMemory };

    fn from(_error: NoMemory) -> CleStop {
        CleStop::NoMemory
    }
}
