//! The machine's instructions.

use cl_tree::kinds::{BinOp, IntKind, TrapCause, UnOp};

/// How `printf` writes a number: `%d %u %x %c`, `%ld %lu %lx` and `%lld %llu %llx`.
#[derive(Clone, Copy, Debug, PartialEq, Eq)]
pub enum Form {
    D,
    U,
    X,
    C,
    Ld,
    Lu,
    Lx,
    Lld,
    Llu,
    Llx,
}

/// One instruction. Its operands are the last cells of the frame. A place is an index of the code, an address
/// is the index of a cell, and a line is that of the trap which the instruction may come to.
#[derive(Clone, Copy, Debug, PartialEq, Eq)]
pub enum Instr {
    /// Pushes a number.
    Push(i128),
    /// Drops so many cells.
    Drop(u32),
    /// Pushes the last cell again.
    Copy,
    /// Pushes the address of a static cell.
    Global(u32),
    /// Pushes the address of a cell of this frame.
    Local(u32),
    /// Pushes the address that a cell of this frame keeps.
    Borrowed(u32),
    /// Pops an index and an address, and pushes the address of the element; an index that is not below `count`
    /// is the trap `Index`.
    At { count: u32, size: u32, line: u32 },
    /// Adds to the address on top.
    Offset(u32),
    /// Pops an address, and pushes so many cells from there.
    Fetch(u32),
    /// Pops so many cells and an address, and writes the cells there.
    Store(u32),
    /// Zeroes cells of this frame.
    Clear { at: u32, count: u32 },
    /// Converts the number on top.
    Convert(IntKind),
    /// Pops two numbers, and pushes the operator's value or traps.
    Two { op: BinOp, kind: IntKind, line: u32 },
    /// Pops a number, and pushes the unary operator's value or traps.
    One { op: UnOp, kind: IntKind, line: u32 },
    /// Goes to a place.
    Jump(u32),
    /// Pops a number, and goes to a place if it is zero.
    Zero(u32),
    /// Counts a step, or traps.
    Step(u32),
    /// Enters a function whose arguments are the last cells: checks the depth, then counts a step.
    Call { function: u32, line: u32 },
    /// Leaves the function with so many cells.
    Return(u32),
    /// Charges the frame budget, pops the values of a request, and stops until the reply comes.
    Ask { row: u32, line: u32 },
    /// Writes a byte.
    Byte { value: u8, line: u32 },
    /// Pops a number and writes it.
    Show { form: Form, line: u32 },
    /// Pushes the next byte of the input, or -1 at its end.
    Get,
    /// Traps.
    Halt { cause: TrapCause, line: u32 },
}

impl Instr {
    ghost use Rattle.std.specs.Prelude.{◌≡◌};
    ghost use Rattle.en_image.specs.Lines.{line_of};

    /// The line that the trap of an instruction on cells names.
    #[tactic(auto, unfolding(crate::specs::Lines::line_of))]
    pub fn line(self) -> u32
        ensures { result ≡ line_of self }
    {
        match self {
            Instr::At { line, .. } | Instr::Two { line, .. } | Instr::One { line, .. } => line,
            _ => 0,
        }
    }
}
