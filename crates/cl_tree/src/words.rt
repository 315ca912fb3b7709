//! Keywords and type words.

ghost use Rattle.std.specs.Prelude.{◌≡◌, map, bytes_eq};
ghost use Rattle.cl_tree.specs.Words as spec;

use crate::grammar::{FIXED_WIDTHS, KEYWORDS, Keyword, TYPE_KEYWORDS};

/// Whether two words are the same.
pub fn same(a: &[u8], b: &[u8]) -> bool
    ensures { result ≡ bytes_eq a.now b.now }
{
    a == b
}

/// Whether a word stands in a list.
pub fn listed(mut table: &[&[u8]], word: &[u8]) -> bool
    ensures { result ≡ spec.listed (map (λ w. w.now) table.entry.now) word.now }
{
    while let [first, rest @ ..] = table {
        if same(first, word) {
            return true;
        }
        table = rest;
    }
    false
}

fn keyword_in(mut table: &[(&[u8], Keyword)], word: &[u8]) -> Option<Keyword>
    ensures { result ≡ spec.entry (map (λ row. (row.0.now, row.1)) table.entry.now) word.now }
{
    while let [first, rest @ ..] = table {
        if same(first.0, word) {
            return Some(first.1);
        }
        table = rest;
    }
    None
}

/// The keyword that a word is, type words aside.
#[tactic(auto, unfolding(crate::specs::Words::keyword))]
pub fn keyword(word: &[u8]) -> Option<Keyword>
    ensures { result ≡ spec.keyword word.now }
{
    keyword_in(&KEYWORDS, word)
}

#[tactic(auto, unfolding(crate::specs::Words::is_type_keyword))]
fn is_type_keyword(word: &[u8]) -> bool
    ensures { result ≡ spec.is_type_keyword word.now }
{
    listed(&TYPE_KEYWORDS, word)
}

#[tactic(auto, unfolding(crate::specs::Words::is_fixed_width))]
fn is_fixed_width(word: &[u8]) -> bool
    ensures { result ≡ spec.is_fixed_width word.now }
{
    listed(&FIXED_WIDTHS, word)
}

/// Whether a word is a type word: a keyword, or the name of a type of fixed width.
#[tactic(auto, unfolding(crate::specs::Words::is_type_word))]
pub fn is_type_word(word: &[u8]) -> bool
    ensures { result ≡ spec.is_type_word word.now }
{
    is_type_keyword(word) || is_fixed_width(word)
}

/// Whether a word is one of the keywords of C11 6.4.1.
#[tactic(auto, unfolding(crate::specs::Words::is_keyword))]
pub fn is_keyword(word: &[u8]) -> bool
    ensures { result ≡ spec.is_keyword word.now }
{
    keyword(word).is_some() || is_type_keyword(word)
}
