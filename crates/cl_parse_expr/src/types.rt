//! The base of a type, and its stars.

ghost use Rattle.std.specs.Prelude.{◌≡◌, length, IfOk, Some};
ghost use Rattle.cl_parse_expr.specs.Cursor.{Gives, Finds};
ghost use Rattle.cl_parse_expr.specs.Types.{base_at, base_step, key_base, type_of, pointers_at, base_second, second_at};

use crate::cursor::{Fixed, after, name_at};
use crate::stop::Stop;
use cl_base::name::NoMemory;
use cl_tree::grammar::{Base, Keyword, Sign, Terminal};
use cl_tree::token::Mark;
use cl_tree::tree::CType;
use sqlite_items::Boxed;
use std::alloc::Global;

fn tag_at(
    alloc: Global,
    line: u32,
    terminals: &[Terminal],
) -> Result<Option<(Base, u32, &[Terminal])>, NoMemory>
    ensures { IfOk result (λ o. Finds (λ x. (x.0, x.1, x.2.now)) o (key_base line Keyword.Struct terminals.now)) }
{
    match name_at(terminals) {
        Some((name, _, rest)) => Ok(Some((Base::Tag(name.copy(alloc)?), line, rest))),
        None => Ok(None),
    }
}

/// The base of a type with the line of its first terminal, and what follows.
#[tactic(auto, unfolding(crate::specs::Types::base_at))]
pub fn base_at(
    alloc: Global,
    terminals: &[Terminal],
) -> Result<Option<(Base, u32, &[Terminal])>, NoMemory>
    ensures { IfOk result (λ o. Finds (λ x. (x.0, x.1, x.2.now)) o (base_at terminals.now)) }
{
    let [first, rest @ ..] = terminals else {
        return Ok(None)
    };
    match &first.what {
        Sign::Kind(kind) => Ok(Some((Base::Kind(*kind), first.line, rest))),
        Sign::Real => Ok(Some((Base::Real, first.line, rest))),
        Sign::Key(Keyword::Void) => Ok(Some((Base::Void, first.line, rest))),
        Sign::Key(Keyword::Struct) => tag_at(alloc, first.line, rest),
        _ => Ok(None),
    }
}

/// The type of a base without stars.
pub fn type_of(alloc: Global, base: &Base) -> Result<Boxed<CType>, NoMemory>
    ensures { IfOk result (λ t. t ≡ type_of base.now) }
{
    let ctype = match base {
        Base::Void => CType::Void,
        Base::Kind(kind) => CType::Integer(*kind),
        Base::Real => CType::Floating,
        Base::Tag(tag) => CType::Struct(tag.copy(alloc)?),
    };
    Ok(Boxed::new(alloc, ctype)?)
}

/// A type with the stars that follow it.
#[tactic(auto, unfolding(crate::specs::Types::pointers_at), using(crate::proofs::Turns::pointers_go))]
pub fn pointers_at(
    alloc: Global,
    plain: Boxed<CType>,
    start: &[Terminal],
) -> Result<(Boxed<CType>, &[Terminal]), NoMemory>
    ensures { IfOk result (λ x. (x.0, x.1.now) ≡ pointers_at (length start.now) plain start.now) }
{
    let mut ctype = plain;
    let mut terminals = start;
    let mut turns = start.len();
    'stars: while turns != 0 {
        let Some((_, rest)) = after(Fixed::Mark(Mark::Star), terminals) else {
            return Ok((ctype, terminals));
        };
        ctype = Boxed::new(alloc, CType::Pointer(ctype))?;
        terminals = rest;
        turns -= 1;
    }
    Ok((ctype, terminals))
}

fn base_second(base: &Base, floating: u32, other: u32) -> u32
    ensures { result ≡ base_second base.now floating other }
{
    match base {
        Base::Real => floating,
        _ => other,
    }
}

/// The second line of a node whose type goes on with these terminals: that of its first `*`, else that of its
/// floating base, else `other`.
#[tactic(auto, unfolding(crate::specs::Types::second_at))]
pub fn second_at(base: &Base, floating: u32, other: u32, terminals: &[Terminal]) -> u32
    ensures { result ≡ second_at base.now floating other terminals.now }
{
    match after(Fixed::Mark(Mark::Star), terminals) {
        Some((line, _)) => line,
        None => base_second(base, floating, other),
    }
}
