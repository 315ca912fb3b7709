//! Declarations.

ghost use Rattle.std.specs.Prelude.{◌≡◌, ◌∷◌, [], length, suc, IfOk, Some, None};
ghost use Rattle.cl_tree.specs.Spelling.{is_void};
ghost use Rattle.cl_parse_expr.specs.Cursor.{Gives};
ghost use Rattle.cl_parse_expr.specs.Reading.{expr_at};
ghost use Rattle.cl_parse_stmt.specs.Declaring.{size_at, dims_at, arrayed, init_at, one_init, braced_at, more_inits, initialised, name_from, named_as, declarator_at, more_names, names_at, names_of, declared_as, declaration_from};

use cl_base::name::{Name, NoMemory};
use cl_parse_expr::cursor::{Fixed, after, wanted, wanted_name};
use cl_parse_expr::expr::expr_at;
use cl_parse_expr::stop::Stop;
use cl_parse_expr::types::{base_at, pointers_at, second_at, type_of};
use cl_terminals::comes::is_literal;
use cl_tree::grammar::{Base, Sign, Terminal};
use cl_tree::token::Mark;
use cl_tree::tree::{CType, Declaration, Declarator, Init};
use sqlite_items::{Boxed, Items};
use std::alloc::Global;

/// The size of an array.
#[tactic(auto, unfolding(crate::specs::Declaring::size_at))]
fn size_at(terminals: &[Terminal]) -> Result<(u64, &[Terminal]), Stop>
    ensures { Gives (λ x. (x.0, x.1.now)) result (size_at terminals.now) }
{
    let [first, rest @ ..] = terminals else {
        return Err(Stop::Unread)
    };
    match &first.what {
        Sign::Integer { value, kind } => {
            if is_literal(*value, *kind) {
                Ok((*value, rest))
            } else {
                Err(Stop::Unread)
            }
        }
        _ => Err(Stop::Unread),
    }
}

#[tactic(auto, unfolding(crate::specs::Declaring::dims_at), using(crate::proofs::Turns::dims_go))]
fn dims_at(alloc: Global, start: &[Terminal]) -> Result<(Items<u64>, &[Terminal]), Stop>
    ensures { Gives (λ x. (x.0, x.1.now)) result (dims_at (length start.now) [] start.now) }
{
    let mut done = Items::new(alloc);
    let mut terminals = start;
    let mut turns = start.len();
    'dims: while turns != 0 {
        let Some((_, rest)) = after(Fixed::Mark(Mark::OpenBracket), terminals) else {
            return Ok((done, terminals));
        };
        let (size, rest) = size_at(rest)?;
        let (_, rest) = wanted(Fixed::Mark(Mark::CloseBracket), rest)?;
        done.push(size)?;
        terminals = rest;
        turns -= 1;
    }
    Ok((done, terminals))
}

#[tactic(auto, using(crate::proofs::Turns::arrayed_last))]
fn arrayed(alloc: Global, plain: Boxed<CType>, dims: Items<u64>) -> Result<Boxed<CType>, NoMemory>
    ensures { IfOk result (λ t. t ≡ arrayed plain dims) }
{
    let mut ctype = plain;
    let mut sizes = dims;
    'sizes: while let Some(size) = sizes.pop() {
        ctype = Boxed::new(alloc, CType::Array(ctype, size))?;
    }
    Ok(ctype)
}

#[tactic(auto, unfolding(crate::specs::Declaring::one_init))]
fn one_init(
    alloc: Global,
    room: usize,
    terminals: &[Terminal],
) -> Result<(Boxed<Init>, &[Terminal]), Stop>
    ensures { Gives (λ x. (x.0, x.1.now)) result (one_init (expr_at room) terminals.now) }
{
    let (e, rest) = expr_at(alloc, room, 1, terminals)?;
    Ok((Boxed::new(alloc, Init::One(e.into_inner()))?, rest))
}

/// An initialiser, and the terminals after it.
#[cycle(init)]
#[tactic(auto, unfolding(crate::specs::Declaring::init_at))]
fn init_at(
    alloc: Global,
    room: usize,
    deep: usize,
    terminals: &[Terminal],
) -> Result<(Boxed<Init>, &[Terminal]), Stop>
    ensures { Gives (λ x. (x.0, x.1.now)) result (init_at deep (expr_at room) terminals.now) }
{
    if deep == 0 {
        return Err(Stop::Unread);
    }
    match after(Fixed::Mark(Mark::OpenBrace), terminals) {
        Some((_, rest)) => braced_at(alloc, room, deep - 1, rest),
        None => one_init(alloc, room, terminals),
    }
}

#[cycle(init)]
#[tactic(auto, unfolding(crate::specs::Declaring::braced_at))]
fn braced_at(
    alloc: Global,
    room: usize,
    deep: usize,
    terminals: &[Terminal],
) -> Result<(Boxed<Init>, &[Terminal]), Stop>
    ensures { Gives (λ x. (x.0, x.1.now)) result (braced_at (init_at deep (expr_at room)) terminals.now) }
{
    let (first, rest) = init_at(alloc, room, deep, terminals)?;
    let mut parts = Items::new(alloc);
    parts.push(first.into_inner())?;
    let (parts, rest) = more_inits(alloc, room, deep, parts, rest)?;
    Ok((Boxed::new(alloc, Init::Many(parts))?, rest))
}

#[cycle(init)]
#[tactic(auto, unfolding(crate::specs::Declaring::more_inits), using(crate::proofs::Turns::inits_go))]
fn more_inits(
    alloc: Global,
    room: usize,
    deep: usize,
    parts: Items<Init>,
    start: &[Terminal],
) -> Result<(Items<Init>, &[Terminal]), Stop>
    ensures { Gives (λ x. (x.0, x.1.now)) result (more_inits (init_at deep (expr_at room)) (length start.now) parts start.now) }
{
    let mut done = parts;
    let mut terminals = start;
    let mut turns = start.len();
    'parts: while turns != 0 {
        match after(Fixed::Mark(Mark::Comma), terminals) {
            None => {
                let (_, rest) = wanted(Fixed::Mark(Mark::CloseBrace), terminals)?;
                return Ok((done, rest));
            }
            Some((_, rest)) => {
                let (next, rest) = init_at(alloc, room, deep, rest)?;
                done.push(next.into_inner())?;
                terminals = rest;
            }
        }
        turns -= 1;
    }
    Err(Stop::Unread)
}

#[tactic(auto, unfolding(crate::specs::Declaring::initialised))]
fn initialised(
    alloc: Global,
    room: usize,
    allowed: bool,
    terminals: &[Terminal],
) -> Result<(Option<Boxed<Init>>, &[Terminal]), Stop>
    ensures { Gives (λ x. (x.0, x.1.now)) result (initialised allowed (init_at room (expr_at room)) terminals.now) }
{
    if !allowed {
        return Ok((None, terminals));
    }
    match after(Fixed::Mark(Mark::Assign), terminals) {
        Some((_, rest)) => {
            let (init, rest) = init_at(alloc, room, room, rest)?;
            Ok((Some(init), rest))
        }
        None => Ok((None, terminals)),
    }
}

fn opened(init: Option<Boxed<Init>>) -> Option<Init>
    ensures { result ≡ init }
{
    match init {
        Some(i) => Some(i.into_inner()),
        None => None,
    }
}

fn named(
    alloc: Global,
    plain: Boxed<CType>,
    dims: Items<u64>,
    name: &Name,
    line: u32,
    second: u32,
    init: Option<Boxed<Init>>,
) -> Result<Boxed<Declarator>, NoMemory>
    ensures { IfOk result (λ d. d ≡ named_as plain dims name.now line second init) }
{
    let ctype = arrayed(alloc, plain, dims)?;
    let name = name.copy(alloc)?;
    Ok(Boxed::new(
        alloc,
        Declarator {
            name,
            ctype: ctype.into_inner(),
            init: opened(init),
            line,
            second,
        },
    )?)
}

#[tactic(auto, unfolding(crate::specs::Declaring::name_from))]
fn name_from(
    alloc: Global,
    room: usize,
    allowed: bool,
    second: u32,
    plain: Boxed<CType>,
    terminals: &[Terminal],
) -> Result<(Boxed<Declarator>, &[Terminal]), Stop>
    ensures { Gives (λ x. (x.0, x.1.now)) result (name_from allowed (init_at room (expr_at room)) second (plain, terminals.now)) }
{
    let (name, line, rest) = wanted_name(terminals)?;
    let (dims, rest) = dims_at(alloc, rest)?;
    let (init, rest) = initialised(alloc, room, allowed, rest)?;
    Ok((named(alloc, plain, dims, name, line, second, init)?, rest))
}

/// One name of a declaration with this base, and the terminals after it. The lines of a floating base and of
/// the first token of the declaration are given.
#[tactic(auto, unfolding(crate::specs::Declaring::declarator_at))]
pub fn declarator_at<'a>(
    alloc: Global,
    room: usize,
    allowed: bool,
    base: &Base,
    floating: u32,
    first: u32,
    terminals: &'a [Terminal],
) -> Result<(Boxed<Declarator>, &'a [Terminal]), Stop>
    ensures { Gives (λ x. (x.0, x.1.now)) result (declarator_at allowed (init_at room (expr_at room)) base.now floating first terminals.now) }
{
    let second = second_at(base, floating, first, terminals);
    let plain = type_of(alloc, base)?;
    let (ctype, rest) = pointers_at(alloc, plain, terminals)?;
    name_from(alloc, room, allowed, second, ctype, rest)
}

#[tactic(auto, unfolding(crate::specs::Declaring::more_names), using(crate::proofs::Turns::names_go))]
fn more_names<'a>(
    alloc: Global,
    room: usize,
    allowed: bool,
    base: &Base,
    floating: u32,
    first: u32,
    names: Items<Declarator>,
    start: &'a [Terminal],
) -> Result<(Items<Declarator>, &'a [Terminal]), Stop>
    ensures { Gives (λ x. (x.0, x.1.now)) result (more_names allowed (init_at room (expr_at room)) base.now floating first (suc (length start.now)) names start.now) }
{
    let mut done = names;
    let mut terminals = start;
    let mut turns = start.len();
    'names: while let Some((_, rest)) = after(Fixed::Mark(Mark::Comma), terminals) {
        let (next, rest) = declarator_at(alloc, room, allowed, base, floating, first, rest)?;
        done.push(next.into_inner())?;
        terminals = rest;
        if turns == 0 {
            return Err(Stop::Unread);
        }
        turns -= 1;
    }
    Ok((done, terminals))
}

#[tactic(auto, unfolding(crate::specs::Declaring::names_at))]
fn names_at<'a>(
    alloc: Global,
    room: usize,
    allowed: bool,
    base: &Base,
    floating: u32,
    first: u32,
    terminals: &'a [Terminal],
) -> Result<(Items<Declarator>, &'a [Terminal]), Stop>
    ensures { Gives (λ x. (x.0, x.1.now)) result (names_at allowed (init_at room (expr_at room)) base.now floating first terminals.now) }
{
    let (next, rest) = declarator_at(alloc, room, allowed, base, floating, first, terminals)?;
    let mut names = Items::new(alloc);
    names.push(next.into_inner())?;
    more_names(alloc, room, allowed, base, floating, first, names, rest)
}

/// The names of a declaration, whose base may not be `void`, and the terminals after them.
pub fn names_of<'a>(
    alloc: Global,
    room: usize,
    allowed: bool,
    base: &Base,
    floating: u32,
    first: u32,
    terminals: &'a [Terminal],
) -> Result<(Items<Declarator>, &'a [Terminal]), Stop>
    ensures { Gives (λ x. (x.0, x.1.now)) result (names_of allowed (init_at room (expr_at room)) base.now floating first terminals.now) }
{
    if let Base::Void = base {
        return Err(Stop::Unread);
    }
    names_at(alloc, room, allowed, base, floating, first, terminals)
}

/// A declaration behind its `static`, and the terminals after it. The line of its first token is given.
#[tactic(auto, unfolding(crate::specs::Declaring::declaration_from))]
pub fn declaration_from(
    alloc: Global,
    room: usize,
    is_static: bool,
    first: u32,
    terminals: &[Terminal],
) -> Result<(Declaration, &[Terminal]), Stop>
    ensures { Gives (λ x. (x.0, x.1.now)) result (declaration_from (init_at room (expr_at room)) is_static first terminals.now) }
{
    let Some((base, floating, rest)) = base_at(alloc, terminals)? else {
        return Err(Stop::Unread)
    };
    let (names, rest) = names_of(alloc, room, true, &base, floating, first, rest)?;
    Ok((Declaration { is_static, names }, rest))
}
