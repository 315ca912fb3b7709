//! The bytes of a source, and names (C11 5.2.1, 6.4.2.1).

ghost use Rattle.std.specs.Prelude.{◌≡◌};
ghost use Rattle.std.specs.List.{list_all};
ghost use Rattle.cl_tree.specs.Letters as spec;

/// Whether a byte is a space, a tab or a CR.
#[tactic(auto, unfolding(crate::specs::Letters::is_blank))]
pub fn is_blank(byte: u8) -> bool
    ensures { result ≡ spec.is_blank byte }
{
    byte == b' ' || byte == b'\t' || byte == b'\r'
}

/// Whether a byte is one of ASCII's printable characters, the space among them.
#[tactic(auto, unfolding(crate::specs::Letters::is_printable))]
pub fn is_printable(byte: u8) -> bool
    ensures { result ≡ spec.is_printable byte }
{
    (b' '..=b'~').contains(&byte)
}

/// Whether a byte may stand on a line.
#[tactic(auto, unfolding(crate::specs::Letters::is_on_line))]
pub fn is_on_line(byte: u8) -> bool
    ensures { result ≡ spec.is_on_line byte }
{
    is_blank(byte) || is_printable(byte)
}

/// Whether a byte ends a line.
#[tactic(auto, unfolding(crate::specs::Letters::is_newline))]
pub fn is_newline(byte: u8) -> bool
    ensures { result ≡ spec.is_newline byte }
{
    byte == b'\n'
}

/// Whether a byte may stand nowhere but in a comment.
#[tactic(auto, unfolding(crate::specs::Letters::is_bad))]
pub fn is_bad(byte: u8) -> bool
    ensures { result ≡ spec.is_bad byte }
{
    !(is_on_line(byte) || is_newline(byte))
}

/// Whether a name may begin with a byte.
#[tactic(auto, unfolding(crate::specs::Letters::is_letter))]
pub fn is_letter(byte: u8) -> bool
    ensures { result ≡ spec.is_letter byte }
{
    byte.is_ascii_alphabetic() || byte == b'_'
}

/// Whether a byte is a decimal digit.
#[tactic(auto, unfolding(crate::specs::Letters::is_digit))]
pub fn is_digit(byte: u8) -> bool
    ensures { result ≡ spec.is_digit byte }
{
    byte.is_ascii_digit()
}

/// Whether a name may go on with a byte.
#[tactic(auto, unfolding(crate::specs::Letters::is_word))]
pub fn is_word(byte: u8) -> bool
    ensures { result ≡ spec.is_word byte }
{
    is_letter(byte) || is_digit(byte)
}

fn are_word(bytes: &[u8]) -> bool
    ensures { result ≡ list_all spec.is_word bytes.now }
{
    bytes.iter().all(|byte| is_word(*byte))
}

/// Whether a text is a name, a keyword or a type word.
#[tactic(auto, unfolding(crate::specs::Letters::is_name))]
pub fn is_name(text: &[u8]) -> bool
    ensures { result ≡ spec.is_name text.now }
{
    match text {
        [first, rest @ ..] => is_letter(*first) && are_word(rest),
        [] => false,
    }
}
