//! Bytes and ends of a text, also past its end.

ghost use Rattle.std.specs.Prelude.{◌≡◌, ◌≤◌, length, drop, slice_index};

/// The byte at i, or 0 past the end.
pub fn byte_at(text: &[u8], i: usize) -> u8
    ensures { result ≡ slice_index text.now i }
{
    if i < text.len() { text[i] } else { 0 }
}

/// The text from a byte on, which is empty past its end.
pub(crate) fn from(text: &[u8], at: usize) -> &[u8]
    ensures value { result.now ≡ drop at text.now }
    ensures within { length result.now ≤ length text.now }
{
    if at < text.len() {
        &text[at..]
    } else {
        &text[text.len()..]
    }
}
