//! How a reading ends without a program.

ghost use Rattle.std.specs.Prelude.{◌≡◌};

use cl_base::name::NoMemory;
use cl_read::stop::ReadStop;
use std::alloc::AllocError;

/// Why no program comes of a source.
#[derive(Clone, Copy, Debug, PartialEq, Eq)]
pub enum FormStop {
    /// The source is not of the form.
    NoReading,
    /// Memory ran out.
    NoMemory,
}

impl From<AllocError> for FormStop {
    ghost use Rattle.cl_form.specs.declared.stop.FormStop.TheVariants.{NoMemory};

    ghost from_gives = { λ e s. s ≡ NoMemory };

    fn from(_: AllocError) -> FormStop {
        FormStop::NoMemory
    }
}

impl From<NoMemory> for FormStop {
    ghost use Rattle.cl_form.specs.declared.stop.FormStop.TheVariants.{NoMemory as Full};

    ghost from_gives = { λ e s. s ≡ Full };

    fn from(_: NoMemory) -> FormStop {
        FormStop::NoMemory
    }
}

impl From<ReadStop> for FormStop {
    ghost use Rattle.cl_form.specs.Stops.{of_front};

    ghost from_gives = { λ e s. s ≡ of_front e };

    fn from(stop: ReadStop) -> FormStop {
        match stop {
            ReadStop::Refused { .. } => FormStop::NoReading,
            ReadStop::NoMemory => FormStop::NoMemory,
        }
    }
}
