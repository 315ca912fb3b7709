//! The lines of unannotated symbols that bear two levels.

ghost use Rattle.std.specs.Prelude.{◌≡◌, ◌≤◌, ◌<◌, ◌+◌, ◌*◌, true, false, length, None, slice_index_or};
ghost use Rattle.cl_groups.specs.Marks.{BearsTwo, BearsOne, Conflict, IsLeast, lesser_of, noted_in};

use crate::marks::bears_two;
use crate::own::own_at;
use cl_base::limits::FUNCTIONS;
use cl_reach::propagate::Carried;

/// Whether the symbol of a number is unannotated and bears two levels.
fn conflicts(carried: &Carried, own: &[Option<u32>], odd: usize, k: usize) -> bool
    requires few { k < FUNCTIONS }
    requires odd { odd ≤ 1 }
    ensures free { result ≡ true → slice_index_or own.now k None ≡ None }
    ensures two { result ≡ true → BearsTwo carried.now (2 * k + odd) }
    ensures one { result ≡ false → slice_index_or own.now k None ≡ None → BearsOne carried.now (2 * k + odd) }
{
    own_at(own, k).is_none() && bears_two(carried, k * 2 + odd)
}

/// The lesser of two numbers that may be there.
pub fn lesser(a: Option<u32>, b: Option<u32>) -> Option<u32>
    ensures { result ≡ lesser_of a b }
{
    match (a, b) {
        (Some(x), Some(y)) => Some(if y < x { y } else { x }),
        (Some(x), None) => Some(x),
        (None, y) => y,
    }
}

/// The lesser of a number that may be there and a line, where this line counts.
fn noted(first: Option<u32>, counts: bool, line: u32) -> Option<u32>
    ensures { result ≡ noted_in first counts line }
{
    if counts {
        lesser(first, Some(line))
    } else {
        first
    }
}

/// The line of the first of some symbols of one sort, by their lines, that is unannotated and bears two levels.
pub fn first_conflict(
    carried: &Carried,
    own: &[Option<u32>],
    lines: &[u32],
    odd: usize,
) -> Option<u32>
    requires few { length lines.now ≤ FUNCTIONS }
    requires odd { odd ≤ 1 }
    ensures { IsLeast (Conflict carried.now own.now lines.now odd (length lines.now)) result }
{
    let mut first = None;
    for (k, line) in lines.iter().enumerate() {
        first = noted(first, conflicts(carried, own, odd, k), *line);
    }
    first
}
