//! Instructions of statements.

use en_image::instr::Instr;

/// An instruction, or a jump behind the innermost loop, or to where it goes on.
#[derive(Clone, Copy, Debug, PartialEq, Eq)]
pub enum Mark {
    Set(Instr),
    Leave,
    Next,
}
