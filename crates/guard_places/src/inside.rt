//! The structs in types.

ghost use Rattle.std.specs.Prelude.{◌≡◌, ◌<◌, ◌≤◌, List, length, take, IfOk, MatchOption, Some, None};
ghost use Rattle.cl_mean.specs.Shape.{Shape, array, shape_of, struct_known, structs_of};
ghost use Rattle.cl_tree.specs.declared.tree.Item.{Item as ItemValue};
ghost use Rattle.cl_tree.specs.Words.{entry};
ghost use Rattle.guard_places.specs.Tables.{item_members, IsInner};

use cl_base::name::{Name, NoMemory};
use cl_tree::tree::{CType, Item};

/// The struct that a type is, by its item, or that an array is of in the end, with how many there are.
#[derive(Clone, Copy)]
pub(crate) struct Inner {
    pub(crate) item: usize,
    pub(crate) elements: u64,
}

/// The item of the first struct of a tag.
fn struct_of(items: &[Item], tag: &Name) -> Option<usize>
    ensures { MatchOption result (entry (structs_of items.now) tag.now ≡ None) (λ k. (k < length items.now) × (entry (structs_of items.now) tag.now ≡ Some (item_members items.now k))) }
{
    for (place, item) in items.iter().enumerate() {
        let Item::Struct { name, .. } = item else {
            continue;
        };
        if name.as_bytes() == tag.as_bytes() {
            return Some(place);
        }
    }
    None
}

/// The struct that a tag names among the items before one.
fn tagged(items: &[Item], known: usize, tag: &Name) -> Option<Inner>
    requires { known ≤ length items.now }
    ensures { IsInner items.now result (struct_known (entry (structs_of (take known items.now)) tag.now)) }
{
    match struct_of(&items[..known], tag) {
        Some(item) => Some(Inner { item, elements: 1 }),
        None => None,
    }
}

/// So many of what is inside one.
fn many(inner: Option<Inner>, size: u64) -> Result<Option<Inner>, NoMemory>
    ensures { (items : List ItemValue) (element : Shape) → IsInner items inner element → IfOk result (λ all. IsInner items all (array element size)) }
{
    let Some(one) = inner else {
        return Ok(None);
    };
    let Some(elements) = size.checked_mul(one.elements) else {
        return Err(NoMemory);
    };
    Ok(Some(Inner {
        item: one.item,
        elements,
    }))
}

/// The struct in a type, where the structs are those of the items before one.
#[tactic(auto, unfolding(cl_mean::specs::Shape::shape_of))]
pub(crate) fn inside(items: &[Item], known: usize, ctype: &CType) -> Result<Option<Inner>, NoMemory>
    requires { known ≤ length items.now }
    ensures { IfOk result (λ inner. IsInner items.now inner (shape_of (structs_of (take known items.now)) ctype.now)) }
{
    match ctype {
        CType::Struct(tag) => Ok(tagged(items, known, tag)),
        CType::Array(element, size) => many(inside(items, known, element.get())?, *size),
        _ => Ok(None),
    }
}
