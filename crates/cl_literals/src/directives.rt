//! What directive lines mean.

ghost use Rattle.std.specs.Prelude.{◌≡◌, ◌∷◌, ◌+◌, ◌-◌, ◌^◌, ◌<◌, ◌≤◌, [], length, option_map, true, codes, IfOk};
ghost use Rattle.std.specs.Prelude.{IfSome};
ghost use Rattle.std.specs.List.{list_all, position, prefix_len, suffix_len};
ghost use Rattle.cl_tree.specs.Letters.{is_bad, is_blank, is_word};
ghost use Rattle.cl_tree.specs.Directives.{part_after, is_code, is_open, shown, blanked, behind_blanks, trimmed};
ghost use Rattle.cl_tree.specs.Directives.{word_len, word, behind_word, has_word, begins_with, behind_words};
ghost use Rattle.cl_tree.specs.Directives.{allowed, header, defined_as, can_be_defined, name_and_literal, cle_if, cle};
ghost use Rattle.cl_tree.specs.Directives.{other_pragma, form, behind_hash, by_blanked, is_def, def_line, directive};
ghost use Rattle.cl_tree.specs.declared.pieces.Part.TheVariants.{Code};

use crate::literals::literal;
use crate::slices::{byte_at, from};
use cl_base::name::{Name, NoMemory};
use cl_tree::bytes::Bytes;
use cl_tree::letters::{is_bad, is_blank, is_letter, is_name, is_word};
use cl_tree::pieces::{LiteralValue, Part, PieceMeaning, Rule};
use cl_tree::token::{Lexeme, Pragma, is_cle_word};
use cl_tree::words::{is_keyword, same};
use std::alloc::{AllocError, Global};

/// A name of these bytes.
#[tactic(auto, using(crate::proofs::Words::words_utf8))]
pub fn name_of(alloc: Global, text: &[u8]) -> Result<Name, NoMemory>
    requires { list_all is_word text.now ≡ true }
    ensures { IfOk result (λ n. n ≡ text.now) }
{
    // Letters, digits and `_` are UTF-8.
    let text = str::from_utf8(text).unwrap_or("");
    Name::of(alloc, text)
}

#[tactic(auto, unfolding(cl_tree::specs::Directives::part_after))]
fn part_after(part: Part, b: u8, next: u8) -> Part
    ensures { result ≡ part_after part b next }
{
    match part {
        Part::Code => {
            if b == b'/' && next == b'*' {
                Part::Opened
            } else if b == b'/' && next == b'/' {
                Part::ToEnd
            } else {
                Part::Code
            }
        }
        Part::Opened => Part::Inside(false),
        Part::Inside(star) => {
            if star && b == b'/' {
                Part::Code
            } else {
                Part::Inside(b == b'*')
            }
        }
        Part::ToEnd => Part::ToEnd,
    }
}

fn is_code(part: Part) -> bool
    ensures { result ≡ is_code part }
{
    matches!(part, Part::Code)
}

fn is_open(part: Part) -> bool
    ensures { result ≡ is_open part }
{
    match part {
        Part::Opened | Part::Inside(_) => true,
        Part::Code | Part::ToEnd => false,
    }
}

#[tactic(auto, unfolding(cl_tree::specs::Directives::shown))]
fn shown(before: Part, after: Part, b: u8) -> u8
    ensures { result ≡ shown before after b }
{
    if is_code(before) && is_code(after) {
        b
    } else {
        b' '
    }
}

/// A line with its comments as spaces, None where one goes on behind its end.
fn blanked(alloc: Global, text: &[u8]) -> Result<Option<Vec<u8>>, AllocError>
    ensures value { IfOk result (λ r. option_map (λ v. v.items) r ≡ blanked Code [] text.now) }
    ensures same { IfOk result (λ r. IfSome r (λ v. length v.items ≡ length text.now)) }
{
    let mut done = Vec::new(alloc);
    let mut part = Part::Code;
    for (i, b) in text.iter().enumerate() {
        let after = part_after(part, *b, byte_at(text, i + 1));
        done.push(shown(part, after, *b))?;
        part = after;
    }
    if is_open(part) {
        Ok(None)
    } else {
        Ok(Some(done))
    }
}

fn blank_len(text: &[u8]) -> usize
    ensures value { result ≡ prefix_len is_blank text.now }
    ensures within { result ≤ length text.now }
{
    text.iter().take_while(|b| is_blank(**b)).count()
}

#[tactic(auto, unfolding(cl_tree::specs::Directives::behind_blanks))]
fn behind_blanks(text: &[u8]) -> &[u8]
    ensures value { result.now ≡ behind_blanks text.now }
    ensures within { length result.now ≤ length text.now }
{
    &text[blank_len(text)..]
}

fn blank_end_len(text: &[u8]) -> usize
    ensures value { result ≡ suffix_len is_blank text.now }
    ensures within { result ≤ length text.now }
{
    text.iter().rev().take_while(|b| is_blank(**b)).count()
}

#[tactic(auto, unfolding(cl_tree::specs::Directives::trimmed))]
fn trimmed(text: &[u8]) -> &[u8]
    ensures value { result.now ≡ trimmed text.now }
    ensures within { length result.now ≤ length text.now }
{
    &text[..text.len() - blank_end_len(text)]
}

fn letters_len(text: &[u8]) -> usize
    ensures value { result ≡ prefix_len is_word text.now }
    ensures within { result ≤ length text.now }
{
    text.iter().take_while(|b| is_word(**b)).count()
}

#[tactic(auto, unfolding(cl_tree::specs::Directives::word_len))]
fn word_len(text: &[u8]) -> usize
    ensures value { result ≡ word_len text.now }
    ensures within { result ≤ length text.now }
{
    if is_letter(byte_at(text, 0)) {
        letters_len(text)
    } else {
        0
    }
}

/// The name that a text begins with, empty where it begins with none.
#[tactic(auto, using(crate::proofs::Words::word_words), unfolding(cl_tree::specs::Directives::word))]
fn word(text: &[u8]) -> &[u8]
    ensures value { result.now ≡ word text.now }
    ensures letters { list_all is_word result.now ≡ true }
{
    &text[..word_len(text)]
}

/// What stands behind that name and the blanks there.
#[tactic(auto, unfolding(cl_tree::specs::Directives::behind_word))]
fn behind_word(text: &[u8]) -> &[u8]
    ensures value { result.now ≡ behind_word text.now }
    ensures within { length result.now ≤ length text.now }
{
    behind_blanks(&text[word_len(text)..])
}

#[tactic(auto, unfolding(cl_tree::specs::Directives::has_word))]
fn has_word(text: &[u8]) -> bool
    ensures { result ≡ has_word text.now }
{
    word_len(text) > 0
}

fn begins(text: &[u8], name: &str) -> bool
    ensures { result ≡ begins_with (name.now ∷ []) text.now }
{
    word(text) == name.as_bytes()
}

/// The first byte that no source may have outside a comment.
pub fn first_bad(text: &[u8]) -> Option<usize>
    ensures { result ≡ position is_bad text.now }
{
    text.iter().position(|b| is_bad(*b))
}

/// What a text means, unless one of its bytes is not allowed.
#[tactic(auto, unfolding(cl_tree::specs::Directives::allowed))]
pub fn allowed(text: &[u8], found: PieceMeaning) -> PieceMeaning
    ensures { result ≡ allowed text.now found }
{
    match first_bad(text) {
        None => found,
        Some(i) => PieceMeaning::Bad(Rule::E02, i),
    }
}

#[tactic(auto, unfolding(cl_tree::specs::Directives::header))]
fn header(text: &[u8]) -> PieceMeaning
    ensures { result ≡ header text.now }
{
    if same(b"<stdio.h>", text) || same(b"<stdint.h>", text) || same(b"<stdlib.h>", text) {
        PieceMeaning::Blank
    } else {
        PieceMeaning::Bad(Rule::E05, 0)
    }
}

fn defined_as(
    alloc: Global,
    name: &[u8],
    at: usize,
    value: LiteralValue,
) -> Result<PieceMeaning, NoMemory>
    requires { list_all is_word name.now ≡ true }
    ensures { IfOk result (λ r. r ≡ defined_as name.now at value) }
{
    let literal = match value {
        LiteralValue::Wrong => return Ok(PieceMeaning::Bad(Rule::E05, 0)),
        LiteralValue::Unfit => None,
        LiteralValue::Holds(literal) => Some(literal),
    };
    let name = name_of(alloc, name)?;
    Ok(PieceMeaning::Defines { name, literal, at })
}

#[tactic(auto, unfolding(cl_tree::specs::Directives::can_be_defined))]
fn can_be_defined(text: &[u8]) -> bool
    ensures { result ≡ can_be_defined text.now }
{
    has_word(text) && !is_keyword(word(text)) && is_blank(byte_at(text, word_len(text)))
}

/// What `#define` defines, in a line of n bytes.
#[tactic(auto, unfolding(cl_tree::specs::Directives::name_and_literal))]
fn name_and_literal(alloc: Global, n: usize, text: &[u8]) -> Result<PieceMeaning, NoMemory>
    requires small { n < 2 ^ 62 }
    requires within { length text.now ≤ n }
    ensures { IfOk result (λ r. r ≡ name_and_literal n text.now) }
{
    if can_be_defined(text) {
        let rest = behind_word(text);
        defined_as(alloc, word(text), n - rest.len(), literal(rest))
    } else {
        Ok(PieceMeaning::Bad(Rule::E05, 0))
    }
}

#[tactic(auto, unfolding(cl_tree::specs::Directives::cle_if))]
fn cle_if(good: bool, pragma: Pragma) -> PieceMeaning
    ensures { result ≡ cle_if good pragma }
{
    if good {
        PieceMeaning::Is(Lexeme::Cle(pragma))
    } else {
        PieceMeaning::Bad(Rule::E05, 0)
    }
}

/// A name of the word that a text begins with.
fn word_name(alloc: Global, text: &[u8]) -> Result<Name, NoMemory>
    ensures { IfOk result (λ n. n ≡ word text.now) }
{
    name_of(alloc, word(text))
}

/// What `#pragma cle` means but for `def`, by what stands behind `cle`.
#[tactic(auto, unfolding(cl_tree::specs::Directives::cle))]
fn cle(alloc: Global, text: &[u8]) -> Result<PieceMeaning, NoMemory>
    ensures { IfOk result (λ r. r ≡ cle text.now) }
{
    let rest = behind_word(text);
    if begins(text, "begin") {
        Ok(cle_if(is_name(rest), Pragma::Begin(word_name(alloc, rest)?)))
    } else if begins(text, "end") {
        Ok(cle_if(is_name(rest), Pragma::End(word_name(alloc, rest)?)))
    } else {
        let good = is_name(text) && !is_cle_word(word(text));
        Ok(cle_if(good, Pragma::Next(word_name(alloc, text)?)))
    }
}

/// `#pragma` with another word than `cle`.
#[tactic(auto, unfolding(cl_tree::specs::Directives::other_pragma))]
fn other_pragma(line: &[u8], text: &[u8]) -> PieceMeaning
    ensures { result ≡ other_pragma line.now text.now }
{
    if has_word(text) {
        allowed(line, PieceMeaning::Blank)
    } else {
        PieceMeaning::Bad(Rule::E05, 0)
    }
}

/// What a directive means, by what stands behind its number sign; its comments are spaces.
#[tactic(auto, unfolding(cl_tree::specs::Directives::form))]
fn form(alloc: Global, line: &[u8], text: &[u8]) -> Result<PieceMeaning, NoMemory>
    requires small { length line.now < 2 ^ 62 }
    requires within { length text.now ≤ length line.now }
    ensures { IfOk result (λ r. r ≡ form line.now text.now) }
{
    let second = behind_word(text);
    if begins(text, "include") {
        Ok(header(second))
    } else if begins(text, "define") {
        name_and_literal(alloc, line.len(), second)
    } else if begins(text, "pragma") && begins(second, "cle") {
        cle(alloc, behind_word(second))
    } else if begins(text, "pragma") {
        Ok(other_pragma(line, second))
    } else {
        Ok(PieceMeaning::Bad(Rule::E05, 0))
    }
}

/// What stands behind the number sign.
#[tactic(auto, unfolding(cl_tree::specs::Directives::behind_hash))]
fn behind_hash(line: &[u8]) -> &[u8]
    ensures value { result.now ≡ behind_hash line.now }
    ensures within { length result.now ≤ length line.now }
{
    behind_blanks(from(line, 1))
}

/// What a line means that defines no label.
fn plain_line(alloc: Global, line: &[u8]) -> Result<PieceMeaning, NoMemory>
    requires { length line.now < 2 ^ 62 }
    ensures { IfOk result (λ r. r ≡ by_blanked (blanked Code [] line.now)) }
{
    match blanked(alloc, line)? {
        None => Ok(PieceMeaning::Bad(Rule::E05, 0)),
        Some(line) => {
            let line = trimmed(line.as_slice());
            form(alloc, line, behind_hash(line))
        }
    }
}

#[tactic(auto, unfolding(cl_tree::specs::Directives::is_def))]
fn is_def(text: &[u8]) -> bool
    ensures { result ≡ is_def text.now }
{
    let second = behind_word(text);
    let third = behind_word(second);
    let name = behind_word(third);
    begins(text, "pragma")
        && begins(second, "cle")
        && begins(third, "def")
        && has_word(name)
        && behind_word(name).len() > 0
}

/// What a line means that defines a label.
#[tactic(auto, unfolding(cl_tree::specs::Directives::def_line))]
fn def_line(alloc: Global, line: &[u8], text: &[u8]) -> Result<PieceMeaning, NoMemory>
    ensures { IfOk result (λ r. r ≡ def_line line.now text.now) }
{
    let rest = behind_word(behind_word(behind_word(text)));
    let name = word_name(alloc, rest)?;
    let text = Vec::from_slice(alloc, behind_word(rest))?;
    let pragma = Pragma::Def(name, Bytes::of(text));
    Ok(allowed(line, PieceMeaning::Is(Lexeme::Cle(pragma))))
}

/// What a directive line means.
#[tactic(auto, unfolding(cl_tree::specs::Directives::directive))]
pub fn directive(alloc: Global, line: &[u8]) -> Result<PieceMeaning, NoMemory>
    requires { length line.now < 2 ^ 62 }
    ensures { IfOk result (λ r. r ≡ directive line.now) }
{
    let short = trimmed(line);
    let text = behind_hash(short);
    if is_def(text) {
        def_line(alloc, short, text)
    } else {
        plain_line(alloc, line)
    }
}
