//! How far the piece goes that a text begins with.
ghost use Rattle.std.specs.Prelude.{◌≡◌, ◌∷◌, [], false, ◌+◌, ◌<◌, ◌≤◌, length, drop, slice_index};
ghost use Rattle.cl_tree.specs.Pieces.{first_opening, opening_of, opening_in, opening, is_exponent_letter, go, step};
ghost use Rattle.cl_tree.specs.Pieces.{opening_len, mark};
ghost use Rattle.cl_lex.specs.Scans.{span, closing, longest_mark};

use cl_literals::slices::byte_at;
use cl_tree::letters::{is_bad, is_blank, is_digit, is_letter, is_newline, is_word};
use cl_tree::pieces::{Closed, Next, Opening, Run};
use cl_tree::token::Mark;

#[tactic(auto, unfolding(cl_tree::specs::Pieces::first_opening))]
fn first_opening(b: u8) -> Opening
    ensures { result ≡ first_opening b }
{
    if is_bad(b) {
        Opening::Other
    } else if is_letter(b) {
        Opening::Runs(Run::Letters)
    } else if is_digit(b) {
        Opening::Runs(Run::Digits)
    } else if b == b'"' {
        Opening::Closes(Closed::Quoted)
    } else if b == b'\'' {
        Opening::Closes(Closed::Letter)
    } else if is_blank(b) || is_newline(b) {
        Opening::Space
    } else {
        Opening::Punct
    }
}

#[tactic(auto, unfolding(cl_tree::specs::Pieces::opening_of))]
fn opening_of(b: u8, c: u8) -> Opening
    ensures { result ≡ opening_of b c }
{
    if b == b'/' && c == b'*' {
        Opening::Closes(Closed::Comment)
    } else if b == b'/' && c == b'/' {
        Opening::Runs(Run::Line)
    } else if b == b'.' && is_digit(c) {
        Opening::Runs(Run::Digits)
    } else {
        first_opening(b)
    }
}

#[tactic(auto, unfolding(cl_tree::specs::Pieces::opening_in))]
fn opening_in(fresh: bool, b: u8, c: u8) -> Opening
    ensures { result ≡ opening_in fresh b c }
{
    if fresh && b == b'#' {
        Opening::Runs(Run::Directive)
    } else {
        opening_of(b, c)
    }
}

/// The class of the piece that a text begins with.
pub fn opening(fresh: bool, text: &[u8]) -> Opening
    ensures { result ≡ opening fresh text.now }
{
    opening_in(fresh, byte_at(text, 0), byte_at(text, 1))
}

#[tactic(auto, unfolding(cl_tree::specs::Pieces::is_exponent_letter))]
fn is_exponent_letter(a: u8) -> bool
    ensures { result ≡ is_exponent_letter a }
{
    a == b'e' || a == b'E' || a == b'p' || a == b'P'
}

/// The byte behind which the run goes on, or None where b is no part of it.
#[tactic(auto, unfolding(cl_tree::specs::Pieces::go))]
fn go(run: Run, a: u8, b: u8) -> Option<u8>
    ensures { result ≡ go run a b }
{
    match run {
        Run::Letters => { if is_word(b) { Some(b) } else { None } }
        Run::Digits => {
            if is_word(b) || b == b'.' || ((b == b'+' || b == b'-') && is_exponent_letter(a)) {
                Some(b)
            } else {
                None
            }
        }
        Run::Line | Run::Directive => { if is_newline(b) { None } else { Some(b) } }
    }
}

#[tactic(auto, unfolding(cl_tree::specs::Pieces::step))]
fn step(kind: Closed, state: bool, b: u8) -> Next
    ensures { result ≡ step kind state b }
{
    let quote = match kind {
        Closed::Comment => {
            return if state && b == b'/' {
                Next::Shut
            } else {
                Next::More(b == b'*')
            };
        }
        Closed::Quoted => b'"',
        Closed::Letter => b'\'',
    };
    if is_newline(b) {
        Next::Broken
    } else if state {
        Next::More(false)
    } else if b == quote {
        Next::Shut
    } else {
        Next::More(b == b'\\')
    }
}

/// How many bytes open it.
pub fn opening_len(kind: Closed) -> usize
    ensures { result ≡ opening_len kind }
{
    match kind {
        Closed::Comment => 2,
        Closed::Quoted | Closed::Letter => 1,
    }
}

/// How long the run is that a text begins with.
pub fn run_len(run: Run, text: &[u8]) -> usize
    requires { 0 < length text.now }
    ensures value { result ≡ 1 + span run (slice_index text.now 0) (drop 1 text.now) }
    ensures within { result ≤ length text.now }
{
    let mut state = text[0];
    let mut i = 1;
    while i < text.len() {
        match go(run, state, text[i]) {
            Some(t) => state = t,
            None => return i,
        }
        i += 1;
    }
    i
}

/// Where the first close is, from the byte `from` on.
pub fn closing(kind: Closed, text: &[u8], from: usize) -> Option<usize>
    requires { from ≤ length text.now }
    ensures { result ≡ closing kind from false (drop from text.now) }
{
    let mut state = false;
    let mut i = from;
    while i < text.len() {
        match step(kind, state, text[i]) {
            Next::More(t) => state = t,
            Next::Shut => return Some(i + 1),
            Next::Broken => return None,
        }
        i += 1;
    }
    None
}

/// The punctuator of one byte.
#[tactic(auto, unfolding(cl_tree::specs::Pieces::mark))]
fn mark_of_one(a: u8) -> Option<Mark>
    ensures { result ≡ mark (a ∷ []) }
{
    match a {
        b'(' => Some(Mark::OpenParen),
        b')' => Some(Mark::CloseParen),
        b'[' => Some(Mark::OpenBracket),
        b']' => Some(Mark::CloseBracket),
        b'{' => Some(Mark::OpenBrace),
        b'}' => Some(Mark::CloseBrace),
        b';' => Some(Mark::Semicolon),
        b',' => Some(Mark::Comma),
        b'.' => Some(Mark::Dot),
        b'=' => Some(Mark::Assign),
        b'+' => Some(Mark::Plus),
        b'-' => Some(Mark::Minus),
        b'*' => Some(Mark::Star),
        b'/' => Some(Mark::Slash),
        b'%' => Some(Mark::Percent),
        b'~' => Some(Mark::Tilde),
        b'!' => Some(Mark::Bang),
        b'&' => Some(Mark::Amp),
        b'|' => Some(Mark::Bar),
        b'^' => Some(Mark::Caret),
        b'<' => Some(Mark::Less),
        b'>' => Some(Mark::Greater),
        b'?' => Some(Mark::Question),
        b':' => Some(Mark::Colon),
        b'#' => Some(Mark::Hash),
        _ => None,
    }
}

/// The punctuator of two bytes.
#[tactic(auto, unfolding(cl_tree::specs::Pieces::mark))]
fn mark_of_two(a: u8, b: u8) -> Option<Mark>
    ensures { result ≡ mark (a ∷ b ∷ []) }
{
    match (a, b) {
        (b'-', b'>') => Some(Mark::Arrow),
        (b'+', b'=') => Some(Mark::PlusAssign),
        (b'-', b'=') => Some(Mark::MinusAssign),
        (b'*', b'=') => Some(Mark::StarAssign),
        (b'/', b'=') => Some(Mark::SlashAssign),
        (b'%', b'=') => Some(Mark::PercentAssign),
        (b'&', b'=') => Some(Mark::AmpAssign),
        (b'|', b'=') => Some(Mark::BarAssign),
        (b'^', b'=') => Some(Mark::CaretAssign),
        (b'+', b'+') => Some(Mark::PlusPlus),
        (b'-', b'-') => Some(Mark::MinusMinus),
        (b'<', b'<') => Some(Mark::LeftShift),
        (b'>', b'>') => Some(Mark::RightShift),
        (b'<', b'=') => Some(Mark::AtMost),
        (b'>', b'=') => Some(Mark::AtLeast),
        (b'=', b'=') => Some(Mark::Equal),
        (b'!', b'=') => Some(Mark::Unequal),
        (b'&', b'&') => Some(Mark::AmpAmp),
        (b'|', b'|') => Some(Mark::BarBar),
        (b'#', b'#') => Some(Mark::HashHash),
        _ => None,
    }
}

/// The punctuator of three bytes.
#[tactic(auto, unfolding(cl_tree::specs::Pieces::mark))]
fn mark_of_three(a: u8, b: u8, c: u8) -> Option<Mark>
    ensures { result ≡ mark (a ∷ b ∷ c ∷ []) }
{
    match (a, b, c) {
        (b'.', b'.', b'.') => Some(Mark::Ellipsis),
        (b'<', b'<', b'=') => Some(Mark::LeftAssign),
        (b'>', b'>', b'=') => Some(Mark::RightAssign),
        _ => None,
    }
}

/// The punctuator that these bytes are. The table itself is not searched, since that made the lexer three times as slow
/// on punctuators.
#[tactic(auto, using(crate::proofs::Marks::whole_texts))]
pub fn mark(text: &[u8]) -> Option<Mark>
    ensures { result ≡ mark text.now }
{
    match text {
        [a] => mark_of_one(*a),
        [a, b] => mark_of_two(*a, *b),
        [a, b, c] => mark_of_three(*a, *b, *c),
        _ => None,
    }
}

/// How long the longest punctuator is that a text begins with.
#[tactic(auto, unfolding(crate::specs::Scans::longest_mark))]
pub fn mark_len(text: &[u8]) -> usize
    ensures { result ≡ longest_mark text.now }
{
    if text.len() >= 3 && mark(&text[..3]).is_some() {
        3
    } else if text.len() >= 2 && mark(&text[..2]).is_some() {
        2
    } else if text.len() >= 1 && mark(&text[..1]).is_some() {
        1
    } else {
        0
    }
}
