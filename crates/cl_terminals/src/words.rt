//! What words spell.

ghost use Rattle.std.specs.Prelude.{◌≡◌, map, IfOk};
ghost use Rattle.cl_tree.specs.Words as spec;

use cl_base::name::{Name, NoMemory};
use cl_tree::grammar::{KINDS, REALS, Sign};
use cl_tree::kinds::IntKind;
use cl_tree::words::{keyword, listed, same};
use std::alloc::Global;

fn kind_in(mut table: &[(&[u8], IntKind)], word: &[u8]) -> Option<IntKind>
    ensures { result ≡ spec.entry (map (λ row. (row.0.now, row.1)) table.entry.now) word.now }
{
    while let [first, rest @ ..] = table {
        if same(first.0, word) {
            return Some(first.1);
        }
        table = rest;
    }
    None
}

#[tactic(auto, unfolding(cl_tree::specs::Words::kind_of))]
fn kind_of(text: &[u8]) -> Option<IntKind>
    ensures { result ≡ spec.kind_of text.now }
{
    kind_in(&KINDS, text)
}

#[tactic(auto, unfolding(cl_tree::specs::Words::is_real))]
fn is_real(text: &[u8]) -> bool
    ensures { result ≡ spec.is_real text.now }
{
    listed(&REALS, text)
}

/// What a run of type words spells, given with one space between two words.
#[tactic(auto, unfolding(cl_tree::specs::Words::spelled_type))]
pub fn spelled_type(text: &[u8]) -> Sign
    ensures { result ≡ spec.spelled_type text.now }
{
    match kind_of(text) {
        Some(kind) => Sign::Kind(kind),
        None => {
            if is_real(text) {
                Sign::Real
            } else {
                Sign::NoType
            }
        }
    }
}

/// A word that is no type word.
#[tactic(auto, unfolding(cl_tree::specs::Words::spelled_word))]
pub fn spelled_word(alloc: Global, word: &Name) -> Result<Sign, NoMemory>
    ensures { IfOk result (λ s. s ≡ spec.spelled_word word.now) }
{
    match keyword(word.as_bytes()) {
        Some(key) => Ok(Sign::Key(key)),
        None => Ok(Sign::Name(word.copy(alloc)?)),
    }
}
