//! How types are spelled, and which are well-formed.

ghost use Rattle.std.specs.Prelude.{◌≡◌, ◌++◌, ◌&&◌, [], OnOk};
ghost use Rattle.cl_tree.specs.Spelling.{type_shape, held_by, is_empty, same_base, is_void, is_type_name};
ghost use Rattle.cl_plain.specs.Wanting.{written, holder_of, base_seen};
ghost use Rattle.cl_plain.specs.Parts.{base_part, stars_part, dims_part, type_part, cast_part, star_line, floating_line, other_line};

use crate::wanted::{Wanted, write_mark, write_name, write_on, write_size};
use cl_base::name::{Name, NoMemory};
use cl_tree::grammar::{Keyword, Sign};
use cl_tree::kinds::IntKind;
use cl_tree::token::Mark;
use cl_tree::tree::CType;
use sqlite_items::{Boxed, Items};
use std::alloc::Global;

/// Whose line the second one of a type's node is.
#[derive(Clone, Copy, PartialEq, Eq)]
pub enum Holder {
    Star,
    Floating,
    Other,
}

/// Whose line the second one of this type's node is.
#[tactic(auto, unfolding(cl_tree::specs::Spelling::type_shape))]
fn second_holder(t: &CType) -> Holder
    ensures { holder_of result ≡ held_by t.now }
{
    match t {
        CType::Pointer(_) => Holder::Star,
        CType::Array(item, _) => second_holder(item.get()),
        CType::Floating => Holder::Floating,
        _ => Holder::Other,
    }
}

/// Adds the line if the first star has it.
#[tactic(auto, unfolding(crate::specs::Parts::star_line))]
pub fn add_star_line(lines: &mut Items<u32>, t: &CType, line: u32) -> Result<(), NoMemory>
    ensures { OnOk result (lines.new ≡ lines.old ++ star_line t.now line) }
{
    if let Holder::Star = second_holder(t) {
        lines.push(line)?;
    }
    Ok(())
}

/// Adds the line if the floating type has it.
#[tactic(auto, unfolding(crate::specs::Parts::floating_line))]
pub fn add_floating_line(lines: &mut Items<u32>, t: &CType, line: u32) -> Result<(), NoMemory>
    ensures { OnOk result (lines.new ≡ lines.old ++ floating_line t.now line) }
{
    if let Holder::Floating = second_holder(t) {
        lines.push(line)?;
    }
    Ok(())
}

/// Adds the line if a terminal outside the type has it.
#[tactic(auto, unfolding(crate::specs::Parts::other_line))]
pub fn add_other_line(lines: &mut Items<u32>, t: &CType, line: u32) -> Result<(), NoMemory>
    ensures { OnOk result (lines.new ≡ lines.old ++ other_line t.now line) }
{
    if let Holder::Other = second_holder(t) {
        lines.push(line)?;
    }
    Ok(())
}

/// Writes what stands before the stars.
#[tactic(auto, unfolding(cl_tree::specs::Spelling::type_shape, crate::specs::Parts::base_part))]
pub fn write_base(
    alloc: Global,
    out: &mut Items<Wanted>,
    lines: Items<u32>,
    t: &CType,
) -> Result<(), NoMemory>
    ensures { OnOk result (written out.new ≡ written out.old ++ base_part lines (type_shape t.now).base) }
{
    match t {
        CType::Void => write_on(out, lines, Sign::Key(Keyword::Void)),
        CType::Integer(kind) => write_on(out, lines, Sign::Kind(*kind)),
        CType::Struct(name) => {
            write_on(out, lines, Sign::Key(Keyword::Struct))?;
            write_name(alloc, out, name)
        }
        CType::Floating => write_on(out, lines, Sign::Real),
        CType::Array(item, _) => write_base(alloc, out, lines, item.get()),
        CType::Pointer(item) => write_base(alloc, out, lines, item.get()),
    }
}

/// Writes the stars; `lines` are those of the first.
#[tactic(auto, unfolding(cl_tree::specs::Spelling::type_shape, crate::specs::Parts::stars_part))]
pub fn write_stars(
    alloc: Global,
    out: &mut Items<Wanted>,
    lines: Items<u32>,
    t: &CType,
) -> Result<(), NoMemory>
    ensures { OnOk result (written out.new ≡ written out.old ++ stars_part lines (type_shape t.now).stars) }
{
    match t {
        CType::Pointer(item) => {
            write_on(out, lines, Sign::Mark(Mark::Star))?;
            write_stars(alloc, out, Items::new(alloc), item.get())
        }
        CType::Array(item, _) => write_stars(alloc, out, lines, item.get()),
        _ => Ok(()),
    }
}

/// Writes the sizes of arrays, the outermost first.
#[tactic(auto, unfolding(cl_tree::specs::Spelling::type_shape, crate::specs::Parts::dims_part))]
pub fn write_dims(alloc: Global, out: &mut Items<Wanted>, t: &CType) -> Result<(), NoMemory>
    ensures { OnOk result (written out.new ≡ written out.old ++ dims_part (type_shape t.now).dims) }
{
    match t {
        CType::Array(item, size) => {
            write_mark(alloc, out, Mark::OpenBracket)?;
            write_size(alloc, out, *size)?;
            write_mark(alloc, out, Mark::CloseBracket)?;
            write_dims(alloc, out, item.get())
        }
        _ => Ok(()),
    }
}

/// Whether the type is no array.
#[tactic(auto, unfolding(cl_tree::specs::Spelling::type_shape))]
fn has_no_dims(t: &CType) -> bool
    ensures { result ≡ is_empty (type_shape t.now).dims }
{
    match t {
        CType::Array(_, _) => false,
        _ => true,
    }
}

/// Whether the type can be written: it has no pointer to an array (C11 6.7.6, without parentheses).
#[tactic(auto, unfolding(cl_tree::specs::Spelling::type_shape))]
pub fn is_proper_type(t: &CType) -> bool
    ensures { result ≡ (type_shape t.now).proper }
{
    match t {
        CType::Array(item, _) => is_proper_type(item.get()),
        CType::Pointer(item) => has_no_dims(item.get()) && is_proper_type(item.get()),
        _ => true,
    }
}

/// The type of a cast, or of a function's result, has no sizes of arrays.
pub fn is_type_name(t: &CType) -> bool
    ensures { result ≡ is_type_name t.now }
{
    has_no_dims(t) && is_proper_type(t)
}

/// Writes a type with its stars; `lines` are those of its first terminal, `second` the node's second.
#[tactic(auto, using(crate::proofs::Parts::type_rules))]
pub fn write_type(
    alloc: Global,
    out: &mut Items<Wanted>,
    lines: Items<u32>,
    t: &CType,
    second: u32,
) -> Result<(), NoMemory>
    ensures { OnOk result (written out.new ≡ written out.old ++ type_part lines t.now second) }
{
    let mut base_lines = lines;
    add_floating_line(&mut base_lines, t, second)?;
    write_base(alloc, out, base_lines, t)?;
    let mut star_lines = Items::new(alloc);
    add_star_line(&mut star_lines, t, second)?;
    write_stars(alloc, out, star_lines, t)
}

/// Writes the type of a cast in its parentheses; `lines` are those of the `(`, beside the second line
/// of the cast's node where no terminal of the type has it.
#[tactic(auto, using(crate::proofs::Parts::cast_rules))]
pub fn write_cast(
    alloc: Global,
    out: &mut Items<Wanted>,
    lines: Items<u32>,
    t: &CType,
    second: u32,
) -> Result<(), NoMemory>
    ensures { OnOk result (written out.new ≡ written out.old ++ cast_part lines t.now second) }
{
    let mut lines = lines;
    add_other_line(&mut lines, t, second)?;
    write_on(out, lines, Sign::Mark(Mark::OpenParen))?;
    write_type(alloc, out, Items::new(alloc), t, second)?;
    write_mark(alloc, out, Mark::CloseParen)
}

/// What the names of one declaration have in common, as a type shows it.
#[derive(Clone, Copy)]
pub enum Common<'a> {
    Void,
    Kind(IntKind),
    Real,
    /// `struct` with its tag.
    Tag(&'a Name),
}

/// What stands before the stars.
#[tactic(auto, unfolding(cl_tree::specs::Spelling::type_shape))]
pub fn base_of(t: &CType) -> Common
    ensures { base_seen result ≡ (type_shape t.now).base }
{
    match t {
        CType::Void => Common::Void,
        CType::Integer(kind) => Common::Kind(*kind),
        CType::Struct(name) => Common::Tag(name),
        CType::Floating => Common::Real,
        CType::Array(item, _) => base_of(item.get()),
        CType::Pointer(item) => base_of(item.get()),
    }
}

/// Whether two names of these types can stand in one declaration.
pub fn same_base(a: &CType, b: &CType) -> bool
    ensures { result ≡ same_base (type_shape a.now).base (type_shape b.now).base }
{
    match (base_of(a), base_of(b)) {
        (Common::Void, Common::Void) => true,
        (Common::Kind(a), Common::Kind(b)) => a == b,
        (Common::Real, Common::Real) => true,
        (Common::Tag(a), Common::Tag(b)) => a.as_bytes() == b.as_bytes(),
        _ => false,
    }
}

/// Whether `void` stands before the stars.
pub fn is_void(t: &CType) -> bool
    ensures { result ≡ is_void (type_shape t.now).base }
{
    match base_of(t) {
        Common::Void => true,
        _ => false,
    }
}
