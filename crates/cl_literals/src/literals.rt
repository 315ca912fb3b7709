//! What literals mean.

ghost use Rattle.std.specs.Prelude.{◌≡◌, ◌==◌, find, ◌+◌, ◌-◌, ◌^◌, ◌<◌, ◌≤◌, [], length, drop, slice_index};
ghost use Rattle.std.specs.Prelude.{option_map, true, IfOk};
ghost use Rattle.std.specs.List.{list_all, prefix_len};
ghost use Rattle.cl_tree.specs.Literals.{digit_of, is_digit_in, number_from, fitting, are_digits, is_u, is_body, has_u};
ghost use Rattle.cl_tree.specs.Literals.{without_u, width_of, is_hex, base_of, digits_of, kind_of, valued, numeral};
ghost use Rattle.cl_tree.specs.Literals.{integer_split, integer};
ghost use Rattle.cl_tree.specs.Literals.{behind_digits, is_float_suffix, ends_float, behind_sign, ends_exponent};
ghost use Rattle.cl_tree.specs.Literals.{is_exponent, ends_fraction, is_floating_from, is_floating};
ghost use Rattle.cl_tree.specs.Literals.{by_digits, byte_or_big, letter_escape, simple_escape, escape_at, unescaped};
ghost use Rattle.cl_tree.specs.Literals.{escaped_letter, letter_inside, inside, letter, literal};
ghost use Rattle.cl_tree.specs.Letters.{is_digit};

use crate::slices::{byte_at, from};
use cl_tree::kinds::IntKind;
use cl_tree::letters::{is_digit, is_printable};
use cl_tree::pieces::{ESCAPES, Escape, Literal, LiteralValue, Width};
use std::alloc::{AllocError, Global};

#[tactic(auto, unfolding(cl_tree::specs::Literals::digit_of, cl_tree::specs::Letters::is_digit))]
fn digit_of(b: u8) -> u8
    ensures { result ≡ digit_of b }
{
    match b {
        b'0'..=b'9' => b - b'0',
        b'a'..=b'f' => b - b'a' + 10,
        b'A'..=b'F' => b - b'A' + 10,
        _ => 99,
    }
}

#[tactic(auto, unfolding(cl_tree::specs::Literals::is_digit_in))]
fn is_digit_in(base: u8, b: u8) -> bool
    ensures { result ≡ is_digit_in base b }
{
    digit_of(b) < base
}

/// The digits as one number, None where one is no digit or the number needs more than 64 bits.
#[tactic(auto, using(crate::proofs::Numbers::number_over))]
fn number(base: u8, digits: &[u8]) -> Option<u64>
    requires { 0 < base }
    ensures { result ≡ fitting (number_from base 0 digits.now) }
{
    let mut value: u64 = 0;
    for b in digits {
        let digit = digit_of(*b);
        if digit >= base {
            return None;
        }
        let Some(scaled) = value.checked_mul(u64::from(base)) else {
            return None;
        };
        let Some(more) = scaled.checked_add(u64::from(digit)) else {
            return None;
        };
        value = more;
    }
    Some(value)
}

/// How many digits of a base a text begins with.
fn digit_span(base: u8, text: &[u8]) -> usize
    ensures value { result ≡ prefix_len (is_digit_in base) text.now }
    ensures within { result ≤ length text.now }
{
    text.iter().take_while(|b| is_digit_in(base, **b)).count()
}

fn only_digits(base: u8, text: &[u8]) -> bool
    ensures { result ≡ list_all (is_digit_in base) text.now }
{
    text.iter().all(|b| is_digit_in(base, *b))
}

#[tactic(auto, unfolding(cl_tree::specs::Literals::are_digits))]
fn are_digits(base: u8, text: &[u8]) -> bool
    ensures { result ≡ are_digits base text.now }
{
    !text.is_empty() && only_digits(base, text)
}

#[tactic(auto, unfolding(cl_tree::specs::Literals::is_u))]
fn is_u(b: u8) -> bool
    ensures { result ≡ is_u b }
{
    b == b'u' || b == b'U'
}

#[tactic(auto, unfolding(cl_tree::specs::Literals::is_body))]
fn is_body(b: u8) -> bool
    ensures { result ≡ is_body b }
{
    !(is_u(b) || b == b'l' || b == b'L')
}

/// Whether a `u` stands first, so that the text is not empty.
#[tactic(auto, unfolding(cl_tree::specs::Literals::is_u))]
fn starts_with_u(suffix: &[u8]) -> bool
    ensures value { result ≡ is_u (slice_index suffix.now 0) }
    ensures some { result ≡ true → 0 < length suffix.now }
{
    !suffix.is_empty() && is_u(suffix[0])
}

#[tactic(auto, unfolding(cl_tree::specs::Literals::is_u))]
fn ends_with_u(suffix: &[u8]) -> bool
    ensures value { result ≡ is_u (slice_index suffix.now (length suffix.now - 1)) }
    ensures some { result ≡ true → 0 < length suffix.now }
{
    !suffix.is_empty() && is_u(suffix[suffix.len() - 1])
}

#[tactic(auto, unfolding(cl_tree::specs::Literals::has_u))]
fn has_u(suffix: &[u8]) -> bool
    ensures { result ≡ has_u suffix.now }
{
    starts_with_u(suffix) || ends_with_u(suffix)
}

#[tactic(auto, unfolding(cl_tree::specs::Literals::without_u))]
fn without_u(suffix: &[u8]) -> &[u8]
    ensures { result.now ≡ without_u suffix.now }
{
    if starts_with_u(suffix) {
        &suffix[1..]
    } else if ends_with_u(suffix) {
        &suffix[..suffix.len() - 1]
    } else {
        suffix
    }
}

#[tactic(auto, unfolding(cl_tree::specs::Literals::width_of))]
fn width_of(suffix: &[u8]) -> Option<Width>
    ensures { result ≡ width_of suffix.now }
{
    if suffix.is_empty() {
        Some(Width::Int)
    } else if suffix == b"l".as_slice() || suffix == b"L".as_slice() {
        Some(Width::Long)
    } else if suffix == b"ll".as_slice() || suffix == b"LL".as_slice() {
        Some(Width::LongLong)
    } else {
        None
    }
}

#[tactic(auto, unfolding(cl_tree::specs::Literals::is_hex))]
fn is_hex(text: &[u8]) -> bool
    ensures value { result ≡ is_hex text.now }
    ensures within { result ≡ true → 2 ≤ length text.now }
{
    text.len() >= 2 && text[0] == b'0' && (text[1] == b'x' || text[1] == b'X')
}

#[tactic(auto, unfolding(cl_tree::specs::Literals::base_of))]
fn base_of(text: &[u8]) -> u8
    ensures value { result ≡ base_of text.now }
    ensures some { 0 < result }
{
    if is_hex(text) {
        16
    } else if byte_at(text, 0) == b'0' {
        8
    } else {
        10
    }
}

#[tactic(auto, unfolding(cl_tree::specs::Literals::digits_of))]
fn digits_of(text: &[u8]) -> &[u8]
    ensures { result.now ≡ digits_of text.now }
{
    if is_hex(text) { &text[2..] } else { text }
}

/// The first type that holds a value (C11 6.4.4.1).
#[tactic(auto, unfolding(cl_tree::specs::Literals::kind_of))]
fn kind_of(decimal: bool, unsigned: bool, width: Width, value: u64) -> Option<IntKind>
    ensures { result ≡ kind_of decimal unsigned width value }
{
    let has_signed = !unsigned;
    let has_unsigned = unsigned || !decimal;
    if width == Width::Int && has_signed && value < 1 << 31 {
        return Some(IntKind::I32);
    }
    if width == Width::Int && has_unsigned && value < 1 << 32 {
        return Some(IntKind::U32);
    }
    let (signed, other) = match width {
        Width::Int | Width::Long => (IntKind::Long, IntKind::ULong),
        Width::LongLong => (IntKind::LLong, IntKind::ULLong),
    };
    if has_signed && value < 1 << 63 {
        Some(signed)
    } else if has_unsigned {
        Some(other)
    } else {
        None
    }
}

fn valued(decimal: bool, unsigned: bool, width: Width, value: Option<u64>) -> LiteralValue
    ensures { result ≡ valued decimal unsigned width value }
{
    let Some(value) = value else {
        return LiteralValue::Unfit;
    };
    match kind_of(decimal, unsigned, width, value) {
        None => LiteralValue::Unfit,
        Some(kind) => LiteralValue::Holds(Literal::Number { value, kind }),
    }
}

#[tactic(auto, unfolding(cl_tree::specs::Literals::numeral))]
fn numeral(unsigned: bool, width: Width, body: &[u8]) -> LiteralValue
    ensures { result ≡ numeral unsigned width body.now }
{
    let base = base_of(body);
    let digits = digits_of(body);
    if are_digits(base, digits) {
        valued(base == 10, unsigned, width, number(base, digits))
    } else {
        LiteralValue::Wrong
    }
}

#[tactic(auto, unfolding(cl_tree::specs::Literals::integer_split))]
fn integer_split(body: &[u8], suffix: &[u8]) -> LiteralValue
    ensures { result ≡ integer_split body.now suffix.now }
{
    match width_of(without_u(suffix)) {
        None => LiteralValue::Wrong,
        Some(width) => numeral(has_u(suffix), width, body),
    }
}

fn body_len(text: &[u8]) -> usize
    ensures value { result ≡ prefix_len is_body text.now }
    ensures within { result ≤ length text.now }
{
    text.iter().take_while(|b| is_body(**b)).count()
}

/// An integer literal.
#[tactic(auto, unfolding(cl_tree::specs::Literals::integer))]
pub fn integer(text: &[u8]) -> LiteralValue
    ensures { result ≡ integer text.now }
{
    let n = body_len(text);
    integer_split(&text[..n], &text[n..])
}

fn decimal_len(text: &[u8]) -> usize
    ensures value { result ≡ prefix_len is_digit text.now }
    ensures within { result ≤ length text.now }
{
    text.iter().take_while(|b| is_digit(**b)).count()
}

#[tactic(auto, unfolding(cl_tree::specs::Literals::behind_digits))]
fn behind_digits(text: &[u8]) -> &[u8]
    ensures { result.now ≡ behind_digits text.now }
{
    &text[decimal_len(text)..]
}

#[tactic(auto, unfolding(cl_tree::specs::Literals::is_float_suffix))]
fn is_float_suffix(b: u8) -> bool
    ensures { result ≡ is_float_suffix b }
{
    b == b'f' || b == b'F' || b == b'l' || b == b'L'
}

#[tactic(auto, unfolding(cl_tree::specs::Literals::ends_float))]
fn ends_float(text: &[u8]) -> bool
    ensures { result ≡ ends_float text.now }
{
    text.is_empty() || (text.len() == 1 && is_float_suffix(text[0]))
}

#[tactic(auto, unfolding(cl_tree::specs::Literals::behind_sign))]
fn behind_sign(text: &[u8]) -> &[u8]
    ensures { result.now ≡ behind_sign text.now }
{
    let first = byte_at(text, 0);
    if first == b'+' || first == b'-' {
        from(text, 1)
    } else {
        text
    }
}

#[tactic(auto, unfolding(cl_tree::specs::Literals::ends_exponent))]
fn ends_exponent(text: &[u8]) -> bool
    ensures { result ≡ ends_exponent text.now }
{
    is_digit(byte_at(text, 0)) && ends_float(behind_digits(text))
}

#[tactic(auto, unfolding(cl_tree::specs::Literals::is_exponent))]
fn is_exponent(text: &[u8]) -> bool
    ensures { result ≡ is_exponent text.now }
{
    let first = byte_at(text, 0);
    (first == b'e' || first == b'E') && ends_exponent(behind_sign(from(text, 1)))
}

#[tactic(auto, unfolding(cl_tree::specs::Literals::ends_fraction))]
fn ends_fraction(text: &[u8]) -> bool
    ensures { result ≡ ends_fraction text.now }
{
    ends_float(text) || is_exponent(text)
}

#[tactic(auto, unfolding(cl_tree::specs::Literals::is_floating_from))]
fn is_floating_from(text: &[u8], rest: &[u8]) -> bool
    ensures { result ≡ is_floating_from text.now rest.now }
{
    let digit = is_digit(byte_at(text, 0));
    if byte_at(rest, 0) == b'.' {
        (digit || is_digit(byte_at(rest, 1))) && ends_fraction(behind_digits(from(rest, 1)))
    } else {
        digit && is_exponent(rest)
    }
}

/// Whether this is a decimal floating literal.
#[tactic(auto, unfolding(cl_tree::specs::Literals::is_floating))]
pub fn is_floating(text: &[u8]) -> bool
    ensures { result ≡ is_floating text.now }
{
    is_floating_from(text, behind_digits(text))
}

fn byte_or_big(n: usize, value: Option<u64>) -> Escape
    ensures { result ≡ byte_or_big n value }
{
    match value {
        Some(v) => {
            if v < 256 {
                Escape::Value(v as u8, n)
            } else {
                Escape::TooBig(n)
            }
        }
        None => Escape::TooBig(n),
    }
}

#[tactic(auto, unfolding(cl_tree::specs::Literals::by_digits))]
fn by_digits(base: u8, before: usize, text: &[u8]) -> Escape
    requires some { 0 < base }
    requires small { before + length text.now < 2 ^ 63 }
    ensures { result ≡ by_digits base before text.now }
{
    let n = digit_span(base, text);
    if n == 0 {
        return Escape::NoEscape;
    }
    byte_or_big(before + n, number(base, &text[..n]))
}

fn escape_in(mut table: &[(u8, u8)], letter: u8) -> Escape
    ensures { result ≡ letter_escape (find (λ row. row.0 == letter) table.entry.now) }
{
    while let [first, rest @ ..] = table {
        if first.0 == letter {
            return Escape::Value(first.1, 1);
        }
        table = rest;
    }
    Escape::NoEscape
}

#[tactic(auto, unfolding(cl_tree::specs::Literals::simple_escape))]
fn simple_escape(letter: u8) -> Escape
    ensures { result ≡ simple_escape letter }
{
    escape_in(&ESCAPES, letter)
}

#[tactic(auto, unfolding(cl_tree::specs::Literals::escape_at))]
fn escape_at(text: &[u8]) -> Escape
    requires { length text.now < 2 ^ 62 }
    ensures { result ≡ escape_at text.now }
{
    if text.is_empty() {
        return Escape::NoEscape;
    }
    let first = text[0];
    if is_digit_in(8, first) {
        if text.len() > 3 {
            by_digits(8, 0, &text[..3])
        } else {
            by_digits(8, 0, text)
        }
    } else if first == b'x' {
        by_digits(16, 1, &text[1..])
    } else {
        simple_escape(first)
    }
}

/// The bytes that the inside of a string means.
#[tactic(auto, using(crate::proofs::Escapes::steps))]
pub fn unescape(alloc: Global, text: &[u8]) -> Result<Option<Vec<u8>>, AllocError>
    requires { length text.now < 2 ^ 62 }
    ensures { IfOk result (λ r. option_map (λ v. v.items) r ≡ unescaped 0 [] text.now) }
{
    let mut done = Vec::new(alloc);
    let mut skip = 0;
    for (i, b) in text.iter().enumerate() {
        if skip > 0 {
            skip -= 1;
        } else if *b == b'\\' {
            let Escape::Value(value, n) = escape_at(&text[i + 1..]) else {
                return Ok(None);
            };
            done.push(value)?;
            skip = n;
        } else if is_printable(*b) {
            done.push(*b)?;
        } else {
            return Ok(None);
        }
    }
    Ok(Some(done))
}

fn escaped_letter(n: usize, escape: Escape) -> LiteralValue
    requires { 0 < n }
    ensures { result ≡ escaped_letter n escape }
{
    match escape {
        Escape::NoEscape => LiteralValue::Wrong,
        Escape::TooBig(k) => {
            if k == n - 1 {
                LiteralValue::Unfit
            } else {
                LiteralValue::Wrong
            }
        }
        Escape::Value(b, k) => {
            if k == n - 1 {
                LiteralValue::Holds(Literal::Byte(b))
            } else {
                LiteralValue::Wrong
            }
        }
    }
}

#[tactic(auto, unfolding(cl_tree::specs::Literals::letter_inside))]
fn letter_inside(text: &[u8]) -> LiteralValue
    requires { length text.now < 2 ^ 62 }
    ensures { result ≡ letter_inside text.now }
{
    let first = byte_at(text, 0);
    if text.len() == 1 {
        if is_printable(first) && !(first == b'\'' || first == b'\\') {
            LiteralValue::Holds(Literal::Byte(first))
        } else {
            LiteralValue::Wrong
        }
    } else if !text.is_empty() && first == b'\\' {
        escaped_letter(text.len(), escape_at(&text[1..]))
    } else {
        LiteralValue::Wrong
    }
}

/// A text without its quotes.
#[tactic(auto, unfolding(cl_tree::specs::Literals::inside))]
pub fn inside(text: &[u8]) -> &[u8]
    requires { 2 ≤ length text.now }
    ensures value { result.now ≡ inside text.now }
    ensures within { length result.now ≤ length text.now }
{
    &text[1..text.len() - 1]
}

/// A character constant.
#[tactic(auto, unfolding(cl_tree::specs::Literals::letter))]
pub fn letter(text: &[u8]) -> LiteralValue
    requires { length text.now < 2 ^ 62 }
    ensures { result ≡ letter text.now }
{
    if text.len() < 2 {
        return LiteralValue::Wrong;
    }
    if text[0] == b'\'' && text[text.len() - 1] == b'\'' {
        letter_inside(inside(text))
    } else {
        LiteralValue::Wrong
    }
}

/// An integer literal or a character constant.
#[tactic(auto, unfolding(cl_tree::specs::Literals::literal))]
pub(crate) fn literal(text: &[u8]) -> LiteralValue
    requires { length text.now < 2 ^ 62 }
    ensures { result ≡ literal text.now }
{
    if byte_at(text, 0) == b'\'' {
        letter(text)
    } else {
        integer(text)
    }
}
