//! Types, and the cells of their values.

ghost use Rattle.std.specs.Prelude.{◌≡◌, ◌+◌, ◌<◌, ◌++◌, List, if◌then◌else◌, IfOk, IfSome, MatchOption, option_map, Some, None};
ghost use Rattle.std.specs.List.{flat_map};
ghost use Rattle.cl_tree.specs.declared.tree.Declarator.{Declarator};
ghost use Rattle.cl_tree.specs.Words.{entry};
ghost use Rattle.cl_mean.specs.Shape.{Structs, count_of, kind_in, member_index, members_of, shape_of, struct, structs_of};
ghost use Rattle.code_forms.specs.Layout as layout;
ghost use Rattle.code_tables.specs.Types.{IsFound, elements_in, section_in, section_of, shape_in};

use cl_base::name::{Name, NoMemory};
use cl_tree::kinds::IntKind;
use cl_tree::tree::{CType, Declaration, Declarator, Item};
use rpc_codec::signature::signature_leaves;
use std::alloc::Global;

/// The type of an expression: none, an integer kind, or one that the source writes where the structs of these items
/// are known.
#[derive(Clone, Copy, Drop)]
pub enum ValueType<'a> {
    Nothing,
    Integer(IntKind),
    Written { ctype: &'a CType, items: &'a [Item] },
}

/// What an array has, and how many of them.
#[derive(Clone, Copy, Drop)]
pub struct Elements<'a> {
    pub ctype: ValueType<'a>,
    pub count: u64,
}

/// A part of a value: its type, and where it begins among the cells.
#[derive(Clone, Copy, Drop)]
pub struct Section<'a> {
    pub ctype: ValueType<'a>,
    pub offset: u32,
}

/// What some declarators say of a member: it is there, or they have so many cells.
#[derive(Clone, Copy, Drop)]
enum Found<'a> {
    At(Section<'a>),
    Past(u32),
}

/// A sum.
pub fn plus(a: u32, b: u32) -> Result<u32, NoMemory>
    ensures { IfOk result (λ n. n ≡ a + b) }
{
    match a.checked_add(b) {
        Some(n) => Ok(n),
        None => Err(NoMemory),
    }
}

/// The integer kind of a type.
#[tactic(auto, unfolding(cl_mean::specs::Shape::shape_of))]
fn integer_of(ctype: &CType) -> Option<IntKind>
    ensures { (structs : Structs) → result ≡ layout.integer_in (shape_of structs ctype.now) }
{
    match ctype {
        CType::Integer(kind) => Some(*kind),
        _ => None,
    }
}

/// What a type has if it is an array.
#[tactic(auto, unfolding(cl_mean::specs::Shape::shape_of))]
fn elements_of<'a>(ctype: &'a CType, items: &'a [Item]) -> Option<Elements<'a>>
    ensures { option_map elements_in result ≡ layout.elements_in (shape_of (structs_of items.now) ctype.now) }
{
    match ctype {
        CType::Array(element, count) => Some(Elements {
            ctype: ValueType::Written {
                ctype: element.get(),
                items,
            },
            count: *count,
        }),
        _ => None,
    }
}

/// The cells of a value of a type.
#[tactic(auto, unfolding(cl_mean::specs::Shape::shape_of), using(crate::proofs::Sized::cells_are))]
fn cells_of(alloc: Global, ctype: &CType, items: &[Item]) -> Result<u32, NoMemory>
    ensures { IfOk result (λ n. n ≡ count_of (shape_of (structs_of items.now) ctype.now)) }
{
    if let CType::Integer(_) = ctype {
        return Ok(1);
    }
    let leaves = signature_leaves(alloc, items, ctype, &[], true, &[])?;
    match u32::try_from(leaves.len()) {
        Ok(cells) => Ok(cells),
        Err(_) => Err(NoMemory),
    }
}

/// A struct: the items before it, and its members.
#[derive(Clone, Copy)]
struct Known<'a> {
    before: &'a [Item],
    members: &'a [Declaration],
}

/// The first struct of a tag.
fn struct_of<'a>(items: &'a [Item], tag: &Name) -> Option<Known<'a>>
    ensures { MatchOption result (entry (structs_of items.now) tag.now ≡ None)
        (λ s. entry (structs_of items.now) tag.now ≡ Some (members_of (structs_of s.before.now) (flat_map (λ d. d.names) s.members.now))) }
{
    for (place, item) in items.iter().enumerate() {
        let Item::Struct { name, members, .. } = item else {
            continue;
        };
        if name.as_bytes() == tag.as_bytes() {
            return Some(Known {
                before: &items[..place],
                members: members.as_slice(),
            });
        }
    }
    None
}

/// A member among these declarators.
fn find_among<'a>(
    alloc: Global,
    items: &'a [Item],
    names: &'a [Declarator],
    name: &Name,
) -> Result<Found<'a>, NoMemory>
    ensures { IfOk result (λ found. IsFound (structs_of items.now) names.now name.now found) }
{
    let mut offset = 0;
    for d in names {
        if d.name.as_bytes() == name.as_bytes() {
            let ctype = ValueType::Written {
                ctype: &d.ctype,
                items,
            };
            return Ok(Found::At(Section { ctype, offset }));
        }
        offset = plus(offset, cells_of(alloc, &d.ctype, items)?)?;
    }
    Ok(Found::Past(offset))
}

/// A member of a struct. One that is not there has no type, and stands behind all others.
fn find_member<'a>(
    alloc: Global,
    items: &'a [Item],
    members: &'a [Declaration],
    name: &Name,
) -> Result<Section<'a>, NoMemory>
    ensures { IfOk result (λ s. section_in s ≡ section_of (members_of (structs_of items.now) (flat_map (λ d. d.names) members.now)) name.now) }
{
    let mut before = 0;
    for declaration in members {
        match find_among(alloc, items, declaration.names.as_slice(), name)? {
            Found::At(section) => {
                return Ok(Section {
                    ctype: section.ctype,
                    offset: plus(before, section.offset)?,
                });
            }
            Found::Past(cells) => before = plus(before, cells)?,
        }
    }
    Ok(Section {
        ctype: ValueType::Nothing,
        offset: before,
    })
}

/// The member of a struct that has a name.
#[tactic(auto, unfolding(cl_mean::specs::Shape::shape_of))]
fn member_of<'a>(
    alloc: Global,
    ctype: &CType,
    items: &'a [Item],
    name: &Name,
) -> Result<Option<Section<'a>>, NoMemory>
    ensures { IfOk result (λ found. option_map section_in found ≡ layout.member_in (shape_of (structs_of items.now) ctype.now) name.now) }
{
    match ctype {
        CType::Struct(tag) => match struct_of(items, tag) {
            Some(known) => Ok(Some(find_member(alloc, known.before, known.members, name)?)),
            None => Ok(None),
        },
        _ => Ok(None),
    }
}

impl<'a> ValueType<'a> {
    /// The kind of an integer type.
    pub fn integer(self) -> Option<IntKind>
        ensures { result ≡ layout.integer_in (shape_in self.entry) }
    {
        match self {
            ValueType::Integer(kind) => Some(kind),
            ValueType::Written { ctype, items: _ } => integer_of(ctype),
            ValueType::Nothing => None,
        }
    }

    /// The kind of an operand.
    #[tactic(auto, using(crate::proofs::Sized::kind_is))]
    pub fn kind(self) -> IntKind
        ensures { result ≡ kind_in (shape_in self.entry) }
    {
        match self.integer() {
            Some(kind) => kind,
            None => IntKind::I32,
        }
    }

    /// What the type has if it is an array.
    pub fn elements(self) -> Option<Elements<'a>>
        ensures { option_map elements_in result ≡ layout.elements_in (shape_in self.entry) }
    {
        match self {
            ValueType::Written { ctype, items } => elements_of(ctype, items),
            ValueType::Integer(_) | ValueType::Nothing => None,
        }
    }

    #[tactic(auto, using(crate::proofs::Sized::array_is))]
    pub fn is_array(self) -> bool
        ensures { result ≡ layout.is_array (shape_in self.entry) }
    {
        self.elements().is_some()
    }

    /// The cells of a value.
    pub fn cells(self, alloc: Global) -> Result<u32, NoMemory>
        ensures { IfOk result (λ n. n ≡ count_of (shape_in self.entry)) }
    {
        match self {
            ValueType::Written { ctype, items } => cells_of(alloc, ctype, items),
            ValueType::Integer(_) => Ok(1),
            ValueType::Nothing => Ok(0),
        }
    }

    /// The cells of an argument.
    pub fn width(self, alloc: Global) -> Result<u32, NoMemory>
        ensures { IfOk result (λ n. n ≡ layout.width_of (shape_in self.entry)) }
    {
        if self.is_array() {
            Ok(1)
        } else {
            self.cells(alloc)
        }
    }

    /// The cells of an array, and none of anything else.
    pub fn lent(self, alloc: Global) -> Result<u32, NoMemory>
        ensures { IfOk result (λ n. n ≡ layout.lent_count (shape_in self.entry)) }
    {
        if self.is_array() {
            self.cells(alloc)
        } else {
            Ok(0)
        }
    }

    /// The member of a struct that has a name.
    pub fn member(self, alloc: Global, name: &Name) -> Result<Option<Section<'a>>, NoMemory>
        ensures { IfOk result (λ found. option_map section_in found ≡ layout.member_in (shape_in self.entry) name.now) }
    {
        match self {
            ValueType::Written { ctype, items } => member_of(alloc, ctype, items, name),
            ValueType::Integer(_) | ValueType::Nothing => Ok(None),
        }
    }
}
