//! The bytes and words of a source.

ghost use Rattle.std.specs.Prelude.{◌≡◌, nat_le, length};
ghost use Rattle.std.specs.List.{list_all};
ghost use Rattle.cl_form.specs.Form.{is_blank, is_word_byte, is_mark, is_plain, has_needless_zero, is_plain_word, is_level_byte, words, is_plain_text, is_level};

use cl_tree::letters::{is_digit, is_letter};
use cl_tree::words::listed;

fn is_blank(b: u8) -> bool
    ensures { result ≡ is_blank b }
{
    b == b' ' || b == b'\t' || b == b'\n'
}

fn is_word_byte(b: u8) -> bool
    ensures { result ≡ is_word_byte b }
{
    is_letter(b) || is_digit(b)
}

fn is_mark(b: u8) -> bool
    ensures { result ≡ is_mark b }
{
    b"(){};=+-*".contains(&b)
}

#[tactic(auto, unfolding(crate::specs::Form::is_plain))]
fn is_plain(b: u8) -> bool
    ensures { result ≡ is_plain b }
{
    is_blank(b) || is_word_byte(b) || is_mark(b)
}

fn has_needless_zero(word: &[u8]) -> bool
    ensures { result ≡ has_needless_zero word.now }
{
    word.len() > 1 && word[0] == b'0'
}

/// The other spellings of `int` that are one word, or begin or end with one.
const OTHER_INTS: [&[u8]; 2] = [b"signed", b"int32_t"];

#[tactic(auto, unfolding(crate::specs::Form::is_plain_word))]
fn is_plain_word(word: &[u8]) -> bool
    ensures { result ≡ is_plain_word word.now }
{
    !has_needless_zero(word) && !listed(&OTHER_INTS, word)
}

fn all_plain(text: &[u8]) -> bool
    ensures { result ≡ list_all is_plain text.now }
{
    text.iter().all(|b| is_plain(*b))
}

fn has_plain_words(text: &[u8]) -> bool
    ensures { result ≡ list_all is_plain_word (words text.now) }
{
    text.split(|b| !is_word_byte(*b))
        .all(|word| is_plain_word(word))
}

/// Is the text of spaces, tabs, newlines, names, decimal literals and marks alone?
#[tactic(auto, unfolding(crate::specs::Form::is_plain_text))]
pub fn is_plain_text(text: &[u8]) -> bool
    ensures { result ≡ is_plain_text text.now }
{
    all_plain(text) && has_plain_words(text)
}

fn is_level_byte(b: u8) -> bool
    ensures { result ≡ is_level_byte b }
{
    is_word_byte(b) && b != b'_'
}

fn all_level_bytes(text: &[u8]) -> bool
    ensures { result ≡ list_all is_level_byte text.now }
{
    text.iter().all(|b| is_level_byte(*b))
}

fn is_short(text: &[u8]) -> bool
    ensures { result ≡ nat_le (length text.now) 32 }
{
    text.len() <= 32
}

/// Is this a level: 1 to 32 letters and digits, the first a letter?
#[tactic(auto, unfolding(crate::specs::Form::is_level))]
pub fn is_level(text: &[u8]) -> bool
    ensures { result ≡ is_level text.now }
{
    all_level_bytes(text) && !text.is_empty() && is_short(text) && !is_digit(text[0])
}
