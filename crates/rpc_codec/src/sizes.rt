//! How many bytes integers take in a payload.

ghost use Rattle.std.specs.Prelude.{◌≡◌, ◌<◌, ◌≤◌, IfSome};
ghost use Rattle.cl_mean.specs.Shape.{size_of, total_size};

use cl_tree::kinds::IntKind;

/// How many bytes an integer takes in a payload.
pub(crate) fn size_of(kind: IntKind) -> usize
    ensures size { result ≡ size_of kind }
    ensures some { 0 < result }
    ensures few { result ≤ 8 }
{
    match kind {
        IntKind::I8 | IntKind::U8 => 1,
        IntKind::I16 | IntKind::U16 => 2,
        IntKind::I32 | IntKind::U32 => 4,
        IntKind::Long | IntKind::ULong | IntKind::LLong | IntKind::ULLong => 8,
    }
}

/// How many bytes integers take in a payload, where that is a number of bytes that can be.
pub(crate) fn total_size(kinds: &[IntKind]) -> Option<usize>
    ensures { IfSome result (λ size. size ≡ total_size kinds.now) }
{
    let mut total: usize = 0;
    for kind in kinds {
        total = total.checked_add(size_of(*kind))?;
    }
    Some(total)
}
