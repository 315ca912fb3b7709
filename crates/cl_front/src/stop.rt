//! How the front end ends without a checked source.

ghost use Rattle.std.specs.Prelude.{◌≡◌};

use cl_read::stop::ReadStop;
use cl_sema::stop::SemaStop;
use cl_split::stop::SplitStop;
use cle_defs::stop::CleStop;
use cle_flow::stop::FlowStop;

/// Why a source isn't accepted.
#[derive(Clone, Copy, PartialEq, Eq)]
pub enum FrontStop {
    /// The source breaks the rule of this number, at this line.
    Refused { rule: u8, line: u32 },
    /// Memory ran out.
    NoMemory,
}

impl From<ReadStop> for FrontStop {
    ghost use Rattle.cl_front.specs.Stops.{of_reading};

    ghost from_gives = { λ e s. s ≡ of_reading e };

    fn from(stop: ReadStop) -> FrontStop {
        match stop {
            ReadStop::Refused { rule, line } => FrontStop::Refused { rule, line },
            ReadStop::NoMemory => FrontStop::NoMemory,
        }
    }
}

impl From<SemaStop> for FrontStop {
    ghost use Rattle.cl_front.specs.Stops.{of_typing};

    ghost from_gives = { λ e s. s ≡ of_typing e };

    fn from(stop: SemaStop) -> FrontStop {
        match stop {
            SemaStop::Rule { rule, line } => FrontStop::Refused { rule, line },
            SemaStop::NoMemory => FrontStop::NoMemory,
        }
    }
}

impl From<CleStop> for FrontStop {
    ghost use Rattle.cl_front.specs.Stops.{of_labelling};

    ghost from_gives = { λ e s. s ≡ of_labelling e };

    fn from(stop: CleStop) -> FrontStop {
        match stop {
            CleStop::Rule { rule, line } => FrontStop::Refused { rule, line },
            CleStop::NoMemory => FrontStop::NoMemory,
        }
    }
}

impl From<SplitStop> for FrontStop {
    ghost use Rattle.cl_front.specs.Stops.{of_splitting};

    ghost from_gives = { λ e s. s ≡ of_splitting e };

    fn from(stop: SplitStop) -> FrontStop {
        match stop {
            SplitStop::Rule { rule, line } => FrontStop::Refused { rule, line },
            SplitStop::NoMemory => FrontStop::NoMemory,
        }
    }
}

impl From<FlowStop> for FrontStop {
    ghost use Rattle.cl_front.specs.Stops.{of_flowing};

    ghost from_gives = { λ e s. s ≡ of_flowing e };

    fn from(stop: FlowStop) -> FrontStop {
        match stop {
            FlowStop::Rule { rule, line } => FrontStop::Refused { rule, line },
            FlowStop::NoMemory => FrontStop::NoMemory,
        }
    }
}
