//! The integers of a C type.

ghost use Rattle.std.specs.Prelude.{◌≡◌, ◌++◌, ◌<◌, ◌≤◌, Bool, List, take, drop, length, IfSome, OnOk, MatchOption, Some, None};
ghost use Rattle.std.specs.List.{flat_map};
ghost use Rattle.cl_mean.specs.Shape.{Structs, struct_known, members_of, shape_of, structs_of, times};
ghost use Rattle.cl_tree.specs.Words.{Word, entry};
ghost use Rattle.rpc_codec.specs.Leaves.{base_leaves, behind, leads_to, leaves, member_leaves, spread};

use cl_base::name::{Name, NoMemory};
use cl_tree::kinds::IntKind;
use cl_tree::tree::{CType, Declaration, Declarator, Item};

/// An integer of a payload: its kind, and whether it lies under the path that was asked for.
#[derive(Clone, Copy, PartialEq, Eq)]
pub struct Leaf {
    pub kind: IntKind,
    pub chosen: bool,
}

/// Whether a path leads into a member of this name.
pub(crate) fn leads_to(on: bool, path: &[Name], name: &[u8]) -> bool
    ensures { result ≡ leads_to on path.now name.now }
{
    match path {
        [] => on,
        [first, ..] => on && first.as_bytes() == name,
    }
}

/// What is left of a path behind its first name.
pub(crate) fn behind<'a>(path: &'a [Name]) -> &'a [Name]
    ensures { result.now ≡ behind path.now }
{
    match path {
        [] => path,
        [_, rest @ ..] => rest,
    }
}

/// What an array is of, in the end; another type is its own base.
#[derive(Clone, Copy)]
enum Base<'a> {
    Kind(IntKind),
    Tag(&'a Name),
    Other,
}

#[tactic(auto, unfolding(cl_mean::specs::Shape::shape_of, crate::specs::Leaves::spread))]
fn base_of(ctype: &CType) -> Base
    ensures { (structs : Structs) (on : Bool) (path : List Word) → leaves (shape_of structs ctype.now) on path ≡ spread ctype.now (base_leaves structs result on path) }
{
    match ctype {
        CType::Integer(kind) => Base::Kind(*kind),
        CType::Struct(tag) => Base::Tag(tag),
        CType::Array(element, _) => base_of(element.get()),
        _ => Base::Other,
    }
}

/// Has what stands from `start` on stand there so many times.
fn repeat(out: &mut Vec<Leaf>, start: usize, count: u64) -> Result<(), NoMemory>
    requires { start ≤ length out.old.items }
    ensures { OnOk result (out.new.items ≡ take start out.old.items ++ times count (drop start out.old.items)) }
{
    let end = out.len();
    if count == 0 {
        out.truncate(start);
        return Ok(());
    }
    if start == end {
        return Ok(());
    }
    for _turn in 1..count {
        out.extend_from_within(start..end)?;
    }
    Ok(())
}

/// Has what stands from `start` on, which are the integers of the type's base, stand there for each element.
#[tactic(auto, unfolding(crate::specs::Leaves::spread))]
fn spread(ctype: &CType, out: &mut Vec<Leaf>, start: usize) -> Result<(), NoMemory>
    requires { start ≤ length out.old.items }
    ensures { OnOk result (out.new.items ≡ take start out.old.items ++ spread ctype.now (drop start out.old.items)) }
{
    match ctype {
        CType::Array(element, size) => {
            spread(element.get(), out, start)?;
            repeat(out, start, *size)
        }
        _ => Ok(()),
    }
}

/// A struct: the items before it, and its members.
#[derive(Clone, Copy)]
struct Known<'a> {
    before: &'a [Item],
    members: &'a [Declaration],
}

/// The first struct of a tag.
fn struct_of<'a>(items: &'a [Item], tag: &Name) -> Option<Known<'a>>
    ensures known { MatchOption result (entry (structs_of items.now) tag.now ≡ None) (λ s. entry (structs_of items.now) tag.now ≡ Some (members_of (structs_of s.before.now) (flat_map (λ d. d.names) s.members.now))) }
    ensures fewer { IfSome result (λ s. length s.before.now < length items.now) }
{
    for (place, item) in items.iter().enumerate() {
        let Item::Struct { name, members, .. } = item else {
            continue;
        };
        if name.as_bytes() == tag.as_bytes() {
            return Some(Known {
                before: &items[..place],
                members: members.as_slice(),
            });
        }
    }
    None
}

/// Adds the integers of a type, where the structs are those of these items.
#[cycle(leaves)]
pub(crate) fn push_type(
    items: &[Item],
    ctype: &CType,
    on: bool,
    path: &[Name],
    out: &mut Vec<Leaf>,
) -> Result<(), NoMemory>
    ensures { OnOk result (out.new.items ≡ out.old.items ++ leaves (shape_of (structs_of items.now) ctype.now) on path.now) }
{
    let start = out.len();
    match base_of(ctype) {
        Base::Kind(kind) => {
            let chosen = on && path.is_empty();
            out.push(Leaf { kind, chosen })?;
        }
        Base::Tag(tag) => push_struct(items, tag, on, path, out)?,
        Base::Other => {}
    }
    spread(ctype, out, start)
}

/// Adds the integers of a struct of these items.
#[cycle(leaves)]
fn push_struct(
    items: &[Item],
    tag: &Name,
    on: bool,
    path: &[Name],
    out: &mut Vec<Leaf>,
) -> Result<(), NoMemory>
    ensures { OnOk result (out.new.items ≡ out.old.items ++ leaves (struct_known (entry (structs_of items.now) tag.now)) on path.now) }
{
    if let Some(known) = struct_of(items, tag) {
        for declaration in known.members {
            push_all(known.before, declaration.names.as_slice(), on, path, out)?;
        }
    }
    Ok(())
}

/// Adds the integers of what is declared, where the structs are those of these items.
#[cycle(leaves)]
pub(crate) fn push_all(
    items: &[Item],
    names: &[Declarator],
    on: bool,
    path: &[Name],
    out: &mut Vec<Leaf>,
) -> Result<(), NoMemory>
    ensures { OnOk result (out.new.items ≡ out.old.items ++ member_leaves (members_of (structs_of items.now) names.now) on path.now) }
{
    for name in names {
        let inside = leads_to(on, path, name.name.as_bytes());
        push_type(items, &name.ctype, inside, behind(path), out)?;
    }
    Ok(())
}
