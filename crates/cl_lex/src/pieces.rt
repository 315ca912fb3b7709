//! What the lexer finds at one place.

use cl_base::name::NoMemory;
use cl_tree::pieces::{PieceMeaning, Rule};

/// A piece that breaks no rule: how long it is, whether a piece behind it stands first in its line, and what it is.
#[derive(Drop)]
pub struct Piece {
    pub len: usize,
    pub fresh: bool,
    pub found: PieceMeaning,
}

/// Why no such piece stands here: the rule, and at which byte from here.
#[derive(Drop)]
pub enum Halt {
    Memory,
    Fault(Rule, usize),
}

impl From<NoMemory> for Halt {
    ghost use Rattle.std.specs.Prelude.{◌≡◌};
    ghost use Rattle.cl_lex.specs.declared.pieces.Halt.TheVariants.{Memory};

    ghost from_gives = { λ e s. s ≡ Memory };

    fn from(_error: NoMemory) -> Halt {
        Halt::Memory
    }
}
