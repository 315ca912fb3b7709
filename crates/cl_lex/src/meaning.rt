//! What a piece means.

ghost use Rattle.std.specs.Prelude.{◌≡◌, ◌^◌, ◌<◌, ◌≤◌, true, length, IfOk};
ghost use Rattle.cl_tree.specs.Pieces.{mark, is_piece};
ghost use Rattle.cl_tree.specs.Tokens.{literal_meaning, number_meaning, string_meaning, mark_as, piece_meaning};
ghost use Rattle.cl_tree.specs.Tokens.{fresh_after};

use crate::scan::{mark, opening};
use cl_base::name::NoMemory;
use cl_literals::directives::{allowed, directive, name_of};
use cl_literals::literals::{inside, integer, is_floating, letter, unescape};
use cl_literals::slices::byte_at;
use cl_tree::bytes::Bytes;
use cl_tree::letters::is_newline;
use cl_tree::pieces::{Closed, Literal, LiteralValue, Opening, PieceMeaning, Rule, Run};
use cl_tree::token::Lexeme;
use std::alloc::Global;

fn literal_meaning(value: LiteralValue) -> PieceMeaning
    ensures { result ≡ literal_meaning value }
{
    match value {
        LiteralValue::Wrong | LiteralValue::Unfit => PieceMeaning::Bad(Rule::E07, 0),
        LiteralValue::Holds(Literal::Number { value, kind }) => {
            PieceMeaning::Is(Lexeme::Integer { value, kind })
        }
        LiteralValue::Holds(Literal::Byte(b)) => PieceMeaning::Is(Lexeme::Letter(b)),
    }
}

#[tactic(auto, unfolding(cl_tree::specs::Tokens::number_meaning))]
fn number_meaning(text: &[u8]) -> PieceMeaning
    ensures { result ≡ number_meaning text.now }
{
    if is_floating(text) {
        PieceMeaning::Is(Lexeme::Floating)
    } else {
        literal_meaning(integer(text))
    }
}

#[tactic(auto, unfolding(cl_tree::specs::Tokens::string_meaning))]
fn string_meaning(alloc: Global, text: &[u8]) -> Result<PieceMeaning, NoMemory>
    requires small { length text.now < 2 ^ 62 }
    requires quotes { 2 ≤ length text.now }
    ensures { IfOk result (λ r. r ≡ string_meaning text.now) }
{
    match unescape(alloc, inside(text))? {
        None => Ok(PieceMeaning::Bad(Rule::E07, 0)),
        Some(bytes) => Ok(PieceMeaning::Is(Lexeme::Text(Bytes::of(bytes)))),
    }
}

fn mark_meaning(text: &[u8]) -> PieceMeaning
    ensures { result ≡ mark_as (mark text.now) }
{
    match mark(text) {
        None => PieceMeaning::Blank,
        Some(mark) => PieceMeaning::Is(Lexeme::Mark(mark)),
    }
}

/// What a piece is.
#[tactic(auto, using(crate::proofs::Words::pieces), unfolding(cl_tree::specs::Tokens::piece_meaning))]
pub fn piece_meaning(alloc: Global, fresh: bool, text: &[u8]) -> Result<PieceMeaning, NoMemory>
    requires small { length text.now < 2 ^ 62 }
    requires piece { is_piece fresh text.now ≡ true }
    ensures { IfOk result (λ r. r ≡ piece_meaning fresh text.now) }
{
    match opening(fresh, text) {
        Opening::Runs(Run::Letters) => Ok(PieceMeaning::Is(Lexeme::Word(name_of(alloc, text)?))),
        Opening::Runs(Run::Digits) => Ok(number_meaning(text)),
        Opening::Runs(Run::Directive) => directive(alloc, text),
        Opening::Closes(Closed::Quoted) => Ok(allowed(text, string_meaning(alloc, text)?)),
        Opening::Closes(Closed::Letter) => Ok(allowed(text, literal_meaning(letter(text)))),
        Opening::Punct => Ok(mark_meaning(text)),
        Opening::Runs(Run::Line)
        | Opening::Closes(Closed::Comment)
        | Opening::Space
        | Opening::Other => Ok(PieceMeaning::Blank),
    }
}

/// Whether a piece stands first in its line behind this one.
#[tactic(auto, unfolding(cl_tree::specs::Tokens::fresh_after))]
pub fn fresh_after(fresh: bool, text: &[u8]) -> bool
    ensures { result ≡ fresh_after fresh text.now }
{
    match opening(fresh, text) {
        Opening::Space => {
            if is_newline(byte_at(text, 0)) {
                true
            } else {
                fresh
            }
        }
        Opening::Runs(_) | Opening::Closes(_) | Opening::Punct | Opening::Other => false,
    }
}
