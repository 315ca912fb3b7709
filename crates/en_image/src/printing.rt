//! How `printf` writes a number.

ghost use Rattle.std.specs.Prelude.{◌≡◌, ◌<◌, ◌≤◌, false, drop};
ghost use Rattle.std.specs.Fmt.{digits, digit_glyph};
ghost use Rattle.en_image.specs.Printing.{kind_of};

use crate::instr::Form;
use cl_tree::kinds::IntKind;

impl Form {
    /// The form's own type.
    #[tactic(auto, unfolding(crate::specs::Printing::kind_of))]
    pub fn kind(self) -> IntKind
        ensures { result ≡ kind_of self }
    {
        match self {
            Form::D => IntKind::I32,
            Form::U | Form::X => IntKind::U32,
            Form::C => IntKind::U8,
            Form::Ld => IntKind::Long,
            Form::Lu | Form::Lx => IntKind::ULong,
            Form::Lld => IntKind::LLong,
            Form::Llu | Form::Llx => IntKind::ULLong,
        }
    }
}

// A hexadecimal digit with a small letter.
fn glyph(digit: u64) -> u8
    requires { digit < 16 }
    ensures { result ≡ digit_glyph false digit }
{
    if digit < 10 {
        b'0' + digit as u8
    } else {
        b'a' + (digit as u8 - 10)
    }
}

/// Writes the hexadecimal digits of a number at the end of the buffer, and says where they begin.
pub fn hex(n: u64, buffer: &mut [u8; 64]) -> usize
    ensures within { result ≤ 64 }
    ensures digits { drop result buffer.new ≡ digits 16 false n }
{
    let mut at = 64;
    let mut rest = n;
    while at > 0 {
        at -= 1;
        buffer[at] = glyph(rest % 16);
        rest /= 16;
        if rest == 0 {
            break;
        }
    }
    at
}
