//! Calls as statements, and the formats of `printf`.

ghost use Rattle.std.specs.Prelude.{◌≡◌, ◌≤◌, ◌<◌, ◌∷◌, ℕ, List, drop, length, map, false, IsTrue, IsNone, IfSome};
ghost use Rattle.cl_typing.specs.declared.format.Part.TheVariants as parts;
ghost use Rattle.cl_typing.specs.Types as types;
ghost use Rattle.cl_types.specs.Views.{first_wanted, fits_from};

use crate::exprs::judge;
use crate::types::{is_integer, operand};
use cl_members::tags::Tags;
use cl_scope::scopes::Scopes;
use cl_tree::kinds::IntKind;
use cl_tree::tree::{Expr, Node};
use cl_typing::format::{Part, Read, Want};

/// Whether it is `d`, `u` or `x`.
fn is_number_letter(b: u8) -> bool
    ensures { result ≡ types.is_number_letter b }
{
    b == 100 || (b == 117 || b == 120)
}

/// What a byte does behind a part of a format.
#[tactic(auto, unfolding(cl_typing::specs::Types::read_byte))]
pub fn read_byte(part: Part, b: u8) -> Read
    ensures { result ≡ types.read_byte part b }
{
    match part {
        Part::Text => read_text(b),
        Part::Percent => read_conversion(b),
        Part::OneL => read_long(b),
        Part::TwoL => {
            if is_number_letter(b) {
                Read::Takes(Want::LongLong)
            } else {
                Read::Wrong
            }
        }
    }
}

#[tactic(auto, unfolding(cl_typing::specs::Types::read_byte))]
fn read_text(b: u8) -> Read
    ensures { result ≡ types.read_byte parts.Text b }
{
    if b == 0 {
        return Read::Wrong;
    }
    if b == 37 {
        return Read::On(Part::Percent);
    }
    Read::On(Part::Text)
}

#[tactic(auto, unfolding(cl_typing::specs::Types::read_byte))]
fn read_conversion(b: u8) -> Read
    ensures { result ≡ types.read_byte parts.Percent b }
{
    if b == 37 {
        return Read::On(Part::Text);
    }
    if is_number_letter(b) || b == 99 {
        return Read::Takes(Want::Int);
    }
    if b == 108 {
        return Read::On(Part::OneL);
    }
    Read::Wrong
}

#[tactic(auto, unfolding(cl_typing::specs::Types::read_byte))]
fn read_long(b: u8) -> Read
    ensures { result ≡ types.read_byte parts.OneL b }
{
    if is_number_letter(b) {
        return Read::Takes(Want::Long);
    }
    if b == 108 {
        return Read::On(Part::TwoL);
    }
    Read::Wrong
}

fn wants_kind(want: Want, kind: IntKind) -> bool
    ensures { result ≡ types.wants_kind want kind }
{
    match want {
        Want::Int => matches!(kind, IntKind::I32 | IntKind::U32),
        Want::Long => matches!(kind, IntKind::Long | IntKind::ULong),
        Want::LongLong => matches!(kind, IntKind::LLong | IntKind::ULLong),
    }
}

#[tactic(auto, unfolding(cl_typing::specs::Types::wants_operand))]
fn wants_operand(want: Want, kind: Option<IntKind>) -> bool
    ensures { result ≡ types.wants_operand want kind }
{
    match kind {
        Some(kind) => wants_kind(want, kind.promoted()),
        None => false,
    }
}

/// Whether there is one more argument, of the type that a conversion takes.
fn is_wanted<'a>(
    tags: &Tags<'a>,
    names: &Scopes<'a>,
    want: Want,
    arguments: &'a [Expr],
    taken: usize,
) -> bool
    ensures fits { result ≡ first_wanted want (map (types.judged tags.now names.now) (drop taken arguments.now)) }
    ensures there { IsTrue result → taken < length arguments.now }
{
    match arguments.get(taken) {
        Some(e) => wants_operand(want, operand(judge(tags, names, e))),
        None => false,
    }
}

/// The part of a format behind one byte, and how many arguments are taken there, if the byte may stand.
fn after_byte<'a>(
    tags: &Tags<'a>,
    names: &Scopes<'a>,
    arguments: &'a [Expr],
    taken: usize,
    part: Part,
    b: u8,
) -> Option<(Part, usize)>
    ensures none { IsNone result → (rest : List ℕ)
        → fits_from tags.now names.now part (b ∷ rest) (drop taken arguments.now) ≡ false }
    ensures some { IfSome result (λ next. (rest : List ℕ)
        → fits_from tags.now names.now part (b ∷ rest) (drop taken arguments.now)
        ≡ fits_from tags.now names.now next.0 rest (drop next.1 arguments.now)) }
    ensures within { taken ≤ length arguments.now → IfSome result (λ next. next.1 ≤ length arguments.now) }
{
    match read_byte(part, b) {
        Read::On(next) => Some((next, taken)),
        Read::Takes(want) => {
            if !is_wanted(tags, names, want, arguments, taken) {
                return None;
            }
            Some((Part::Text, taken + 1))
        }
        Read::Wrong => None,
    }
}

/// Whether a format has as many conversions as there are arguments, and each takes its argument.
pub fn format_fits<'a>(
    tags: &Tags<'a>,
    names: &Scopes<'a>,
    format: &[u8],
    arguments: &'a [Expr],
) -> bool
    ensures { result ≡ types.wanted (types.wants_of parts.Text format.now)
        (map (types.judged tags.now names.now) arguments.now) }
{
    let mut part = Part::Text;
    let mut taken = 0usize;
    for b in format {
        let Some(next) = after_byte(tags, names, arguments, taken, part, *b) else {
            return false;
        };
        part = next.0;
        taken = next.1;
    }
    match part {
        Part::Text => taken == arguments.len(),
        Part::Percent | Part::OneL | Part::TwoL => false,
    }
}

fn printf_right<'a>(tags: &Tags<'a>, names: &Scopes<'a>, arguments: &'a [Expr]) -> bool
    ensures { result ≡ types.printf_right tags.now names.now arguments.now }
{
    let [format, rest @ ..] = arguments else {
        return false;
    };
    match &format.node {
        Node::Text(bytes) => format_fits(tags, names, bytes.as_slice(), rest),
        _ => false,
    }
}

fn putchar_right<'a>(tags: &Tags<'a>, names: &Scopes<'a>, arguments: &'a [Expr]) -> bool
    ensures { result ≡ types.putchar_right (map (types.judged tags.now names.now) arguments.now) }
{
    match arguments {
        [e] => is_integer(judge(tags, names, e)),
        _ => false,
    }
}

/// Whether a call may stand as a statement.
#[tactic(auto, unfolding(cl_typing::specs::Types::call_right))]
pub fn call_right<'a>(tags: &Tags<'a>, names: &Scopes<'a>, e: &'a Expr) -> bool
    ensures { result ≡ types.call_right tags.now names.now e.now }
{
    let Node::Call(name, arguments) = &e.node else {
        return false;
    };
    if name.text() == "printf" {
        return printf_right(tags, names, arguments.as_slice());
    }
    if name.text() == "putchar" {
        return putchar_right(tags, names, arguments.as_slice());
    }
    judge(tags, names, e).ctype.is_some()
}
