//! How the rules on labels that data carries end.

ghost use Rattle.std.specs.Prelude.{◌≡◌};

use cl_base::name::NoMemory;

/// Why a program has no answer.
#[derive(Clone, Copy, PartialEq, Eq)]
pub enum FlowStop {
    /// The program breaks a rule, at this line.
    Rule { rule: u8, line: u32 },
    /// Memory ran out.
    NoMemory,
}

impl From<NoMemory> for FlowStop {
    ghost use Rattle.cle_flow.specs.declared.stop.FlowStop.TheVariants.{NoMemory};

    ghost from_gives = { λ e s. s ≡ NoMemory };

    fn from(_error: NoMemory) -> FlowStop {
        FlowStop::NoMemory
    }
}
