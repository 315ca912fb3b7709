//! How reading ends without a program.

ghost use Rattle.std.specs.Prelude.{◌≡◌};

use cl_base::name::NoMemory;
use cl_lex::lex::LexStop;
use cl_parse::stop::ParseStop;
use std::alloc::AllocError;

#[derive(Clone, Copy, Debug, PartialEq, Eq)]
pub enum ReadStop {
    /// The source breaks the rule of this number, at this line.
    Refused { rule: u8, line: u32 },
    /// Memory ran out.
    NoMemory,
}

impl From<AllocError> for ReadStop {
    ghost use Rattle.cl_read.specs.declared.stop.ReadStop.TheVariants.{NoMemory};

    ghost from_gives = { λ e s. s ≡ NoMemory };

    fn from(_error: AllocError) -> ReadStop {
        ReadStop::NoMemory
    }
}

impl From<NoMemory> for ReadStop {
    ghost use Rattle.cl_read.specs.declared.stop.ReadStop.TheVariants.{NoMemory};

    ghost from_gives = { λ e s. s ≡ NoMemory };

    fn from(_error: NoMemory) -> ReadStop {
        ReadStop::NoMemory
    }
}

impl From<LexStop> for ReadStop {
    ghost use Rattle.cl_read.specs.Stops.{of_lexer};

    ghost from_gives = { λ e s. s ≡ of_lexer e };

    fn from(stop: LexStop) -> ReadStop {
        match stop {
            LexStop::Rule { rule, line } => ReadStop::Refused { rule, line },
            LexStop::NoMemory => ReadStop::NoMemory,
        }
    }
}

impl From<ParseStop> for ReadStop {
    ghost use Rattle.cl_read.specs.Stops.{of_reader};

    ghost from_gives = { λ e s. s ≡ of_reader e };

    fn from(stop: ParseStop) -> ReadStop {
        match stop {
            ParseStop::Rule { rule, line } => ReadStop::Refused { rule, line },
            ParseStop::NoMemory => ReadStop::NoMemory,
        }
    }
}
