//! The terminals of tokens.

ghost use Rattle.std.specs.Prelude.{◌≡◌, ◌++◌, IfOk};
ghost use Rattle.cl_tree.specs.Runs as spec;
ghost use Rattle.cl_tree.specs.Words.{spelled_type};

use crate::words::{spelled_type, spelled_word};
use cl_base::name::NoMemory;
use cl_tree::grammar::{Sign, Terminal};
use cl_tree::token::{Lexeme, Pragma, Token};
use cl_tree::words::is_type_word;
use sqlite_items::Items;
use std::alloc::Global;

fn is_type(what: &Lexeme) -> bool
    ensures { result ≡ spec.is_type what.now }
{
    match what {
        Lexeme::Word(word) => is_type_word(word.as_bytes()),
        _ => false,
    }
}

fn word_of(what: &Lexeme) -> &[u8]
    ensures { result.now ≡ spec.word_of what.now }
{
    match what {
        Lexeme::Word(word) => word.as_bytes(),
        _ => &[],
    }
}

/// The text of a run of type words, so far, and those that follow, each behind a space.
#[tactic(auto, unfolding(cl_tree::specs::Runs::more_words))]
fn more_words(begun: Vec<u8>, tokens: &[Token]) -> Result<Vec<u8>, NoMemory>
    ensures { IfOk result (λ text. text.items ≡ begun.items ++ spec.more_words tokens.now) }
{
    let mut text = begun;
    let mut rest = tokens;
    'words: while let [first, next @ ..] = rest {
        if !is_type(&first.what) {
            return Ok(text);
        }
        text.extend_from_slice(b" ")?;
        text.extend_from_slice(word_of(&first.what))?;
        rest = next;
    }
    Ok(text)
}

fn run(alloc: Global, first: &Lexeme, tokens: &[Token]) -> Result<Sign, NoMemory>
    ensures { IfOk result (λ s. s ≡ spelled_type (spec.word_of first.now ++ spec.more_words tokens.now)) }
{
    let begun = Vec::from_slice(alloc, word_of(first))?;
    let text = more_words(begun, tokens)?;
    Ok(spelled_type(text.as_slice()))
}

/// Another value of the same pragma.
pub fn copy_pragma(alloc: Global, pragma: &Pragma) -> Result<Pragma, NoMemory>
    ensures { IfOk result (λ copy. copy ≡ pragma.now) }
{
    match pragma {
        Pragma::Def(name, text) => {
            let name = name.copy(alloc)?;
            let text = text.copy(alloc)?;
            Ok(Pragma::Def(name, text))
        }
        Pragma::Begin(name) => Ok(Pragma::Begin(name.copy(alloc)?)),
        Pragma::End(name) => Ok(Pragma::End(name.copy(alloc)?)),
        Pragma::Next(name) => Ok(Pragma::Next(name.copy(alloc)?)),
    }
}

fn single(alloc: Global, what: &Lexeme) -> Result<Sign, NoMemory>
    ensures { IfOk result (λ s. s ≡ spec.single what.now) }
{
    match what {
        Lexeme::Word(word) => spelled_word(alloc, word),
        Lexeme::Integer { value, kind } => Ok(Sign::Integer {
            value: *value,
            kind: *kind,
        }),
        Lexeme::Floating => Ok(Sign::Floating),
        Lexeme::Letter(byte) => Ok(Sign::Letter(*byte)),
        Lexeme::Text(bytes) => Ok(Sign::Text(bytes.copy(alloc)?)),
        Lexeme::Mark(mark) => Ok(Sign::Mark(*mark)),
        Lexeme::Cle(pragma) => Ok(Sign::Cle(copy_pragma(alloc, pragma)?)),
    }
}

/// The terminals of tokens: each longest run of type words is one, and each other token is one.
#[tactic(auto, unfolding(cl_tree::specs::Runs::terminals, cl_tree::specs::Runs::terminals_from))]
pub fn terminals(alloc: Global, tokens: &[Token]) -> Result<Items<Terminal>, NoMemory>
    ensures { IfOk result (λ ps. ps ≡ spec.terminals tokens.now) }
{
    let mut done = Items::new(alloc);
    let mut within = false;
    let mut rest = tokens;
    'tokens: while let [first, next @ ..] = rest {
        if is_type(&first.what) {
            if !within {
                let what = run(alloc, &first.what, next)?;
                done.push(Terminal {
                    line: first.line,
                    what,
                })?;
            }
            within = true;
        } else {
            let what = single(alloc, &first.what)?;
            done.push(Terminal {
                line: first.line,
                what,
            })?;
            within = false;
        }
        rest = next;
    }
    Ok(done)
}
