//! Which functions are called across levels, and from which levels.

ghost use Rattle.std.specs.Prelude.{◌≡◌, ◌<◌, ◌+◌, ◌*◌, All, map, length, IfOk, slice_index_or, slice_set, true, false};
ghost use Rattle.cl_calls.specs.Calls.{level_at};
ghost use Rattle.cl_rows.specs.Marks.{AreMarks, IsBlank, numbers_of};

use cl_base::limits::{FUNCTIONS, LEVELS};
use cl_base::name::NoMemory;
use cl_calls::calls::level_at;
use cl_levels::uses::Call;
use cl_mean::checked::Levels;
use std::alloc::Global;

/// How many pairs of a function and a level there are.
const PAIRS: usize = 131072;

/// The mark of a number.
pub fn mark_at(marks: &[bool], k: usize) -> bool
    ensures { result ≡ slice_index_or marks.now k false }
{
    match marks.get(k) {
        Some(mark) => *mark,
        None => false,
    }
}

/// Marks that none of these numbers is marked.
fn blank(alloc: Global, count: usize) -> Result<Vec<bool>, NoMemory>
    ensures { IfOk result (λ marks. IsBlank count marks.items) }
{
    let marks = vec![in alloc; false; count]?;
    Ok(marks)
}

/// Marks a number.
fn mark(marks: &mut Vec<bool>, k: usize)
    requires { k < length marks.old.items }
    ensures { marks.new.items ≡ slice_set marks.old.items k true }
{
    marks[k] = true;
}

/// Marks the functions that calls call.
pub fn called(alloc: Global, crossings: &[Call]) -> Result<Vec<bool>, NoMemory>
    requires callees { All (λ c. c.callee < FUNCTIONS) crossings.now }
    ensures { IfOk result (λ marks. AreMarks (map (λ c. c.callee) crossings.now) marks.items) }
{
    let mut marks = blank(alloc, FUNCTIONS as usize)?;
    for call in crossings {
        mark(&mut marks, call.callee);
    }
    Ok(marks)
}

/// The level of a function.
fn level_of(levels: &Levels, f: usize) -> usize
    requires { All (λ n. n < LEVELS) levels.now.of_functions }
    ensures level { result ≡ level_at levels.now f }
    ensures small { result < 32 }
{
    level_at(levels, f) as usize
}

/// A number for a function and a level.
fn pair_of(f: usize, level: usize) -> usize
    requires function { f < FUNCTIONS }
    requires level { level < 32 }
    ensures number { result ≡ f * 32 + level }
    ensures small { result < 131072 }
{
    f * 32 + level
}

/// A number for a call's callee and its caller's level.
fn number_of(levels: &Levels, call: Call) -> usize
    requires levels { All (λ n. n < LEVELS) levels.now.of_functions }
    requires callee { call.callee < FUNCTIONS }
    ensures number { result ≡ call.callee * 32 + level_at levels.now call.caller }
    ensures small { result < 131072 }
{
    pair_of(call.callee, level_of(levels, call.caller))
}

/// Marks the functions that calls call, for each level by its own numbers.
pub fn callers(alloc: Global, levels: &Levels, crossings: &[Call]) -> Result<Vec<bool>, NoMemory>
    requires levels { All (λ n. n < LEVELS) levels.now.of_functions }
    requires callees { All (λ c. c.callee < FUNCTIONS) crossings.now }
    ensures { IfOk result (λ marks. AreMarks (numbers_of levels.now crossings.now) marks.items) }
{
    let mut marks = blank(alloc, PAIRS)?;
    for call in crossings {
        mark(&mut marks, number_of(levels, *call));
    }
    Ok(marks)
}
