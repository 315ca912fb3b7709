//! The levels that nodes bear.

ghost use Rattle.std.specs.Prelude.{◌≡◌, ◌≤◌, ◌<◌, ◌+◌, ◌*◌, true, false, length, IfOk, MatchOption, slice_index_or};
ghost use Rattle.cl_groups.specs.Marks.{NoneBetween, IsNext, BearsTwo, BearsOne, Stands, AllStand};

use crate::own::own_at;
use cl_base::limits::{FUNCTIONS, LEVELS};
use cl_base::name::NoMemory;
use cl_reach::propagate::Carried;
use sqlite_items::Items;
use std::alloc::Global;

/// The first level from a number on that a node bears.
pub fn next_level(carried: &Carried, node: usize, from: u32) -> Option<u32>
    ensures { MatchOption result (NoneBetween carried.now node from LEVELS) (λ level. IsNext carried.now node from level) }
{
    for level in from..LEVELS {
        if carried.has(node, level as usize) {
            return Some(level);
        }
    }
    None
}

/// Whether a node bears two levels.
pub fn bears_two(carried: &Carried, node: usize) -> bool
    ensures two { result ≡ true → BearsTwo carried.now node }
    ensures one { result ≡ false → BearsOne carried.now node }
{
    match next_level(carried, node, 0) {
        Some(level) => next_level(carried, node, level + 1).is_some(),
        None => false,
    }
}

/// The level of a symbol: its own, or one that its node bears; `otherwise` where it has neither.
fn standing(carried: &Carried, own: Option<u32>, node: usize, otherwise: u32) -> u32
    ensures { Stands carried.now own node otherwise result }
{
    if let Some(level) = own {
        return level;
    }
    match next_level(carried, node, 0) {
        Some(level) => level,
        None => otherwise,
    }
}

/// The level of the symbol of a number; functions have even nodes, objects odd ones.
pub fn level_at(carried: &Carried, own: &[Option<u32>], odd: usize, k: usize, otherwise: u32) -> u32
    requires few { k < FUNCTIONS }
    requires odd { odd ≤ 1 }
    ensures { Stands carried.now (slice_index_or own.now k None) (2 * k + odd) otherwise result }
{
    standing(carried, own_at(own, k), k * 2 + odd, otherwise)
}

/// The levels of the symbols of one sort.
pub fn levels_of(
    alloc: Global,
    carried: &Carried,
    own: &[Option<u32>],
    odd: usize,
    count: usize,
    otherwise: u32,
) -> Result<Items<u32>, NoMemory>
    requires few { count ≤ FUNCTIONS }
    requires odd { odd ≤ 1 }
    ensures count { IfOk result (λ levels. length levels ≡ count) }
    ensures levels { IfOk result (λ levels. AllStand carried.now own.now odd otherwise levels) }
{
    let mut levels = Items::new(alloc);
    for k in 0..count {
        levels.push(level_at(carried, own, odd, k, otherwise))?;
    }
    Ok(levels)
}
