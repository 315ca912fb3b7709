//! The calls of a program.

ghost use Rattle.std.specs.Prelude.{◌≡◌, ◌++◌, map, filter, IfOk, OnOk, slice_index_or};
ghost use Rattle.std.specs.List.{flat_map};
ghost use Rattle.cl_levels.specs.Crossings as crossing;
ghost use Rattle.cl_calls.specs.Calls.{calls_in, crosses, level_at, kept_if};

use cl_base::name::NoMemory;
use cl_levels::uses::{Body, Call, Use};
use cl_mean::checked::Levels;
use std::alloc::Global;

/// Adds the call that a use is, if it is one.
fn add(calls: &mut Vec<Call>, f: usize, used: &Use) -> Result<(), NoMemory>
    ensures { OnOk result (calls.new.items ≡ calls.old.items ++ crossing.call_in f used.now) }
{
    match used {
        Use::Named { object: _, line: _ } => Ok(()),
        Use::Called {
            callee,
            roots: _,
            line,
        } => {
            calls.push(Call {
                caller: f,
                callee: *callee,
                line: *line,
            })?;
            Ok(())
        }
    }
}

/// Adds the calls of a function.
fn add_all(calls: &mut Vec<Call>, f: usize, uses: &[Use]) -> Result<(), NoMemory>
    ensures { OnOk result (calls.new.items ≡ calls.old.items ++ flat_map (crossing.call_in f) uses.now) }
{
    for used in uses {
        add(calls, f, used)?;
    }
    Ok(())
}

/// All calls of functions of a program by others, in the order of the source.
pub fn calls(alloc: Global, bodies: &[Body]) -> Result<Vec<Call>, NoMemory>
    ensures { IfOk result (λ cs. cs.items ≡ calls_in (map (λ b. b.uses) bodies.now)) }
{
    let mut calls = Vec::new(alloc);
    for (f, body) in bodies.iter().enumerate() {
        add_all(&mut calls, f, body.uses.as_slice())?;
    }
    Ok(calls)
}

/// The level of the function of a number; 0 of one that isn't there.
pub fn level_at(levels: &Levels, f: usize) -> u32
    ensures { result ≡ level_at levels.now f }
{
    match levels.of_functions.as_slice().get(f) {
        Some(level) => *level,
        None => 0,
    }
}

/// Whether caller and callee have different levels.
fn crosses(levels: &Levels, call: Call) -> bool
    ensures { result ≡ crosses levels.now call }
{
    level_at(levels, call.caller) != level_at(levels, call.callee)
}

/// Adds a call, if it is to be kept.
fn keep(calls: &mut Vec<Call>, kept: bool, call: Call) -> Result<(), NoMemory>
    ensures { OnOk result (calls.new.items ≡ calls.old.items ++ kept_if kept call) }
{
    if kept {
        calls.push(call)?;
    }
    Ok(())
}

/// The calls whose caller and callee have different levels.
pub fn crossings(alloc: Global, levels: &Levels, calls: &[Call]) -> Result<Vec<Call>, NoMemory>
    ensures { IfOk result (λ cs. cs.items ≡ filter (crosses levels.now) calls.now) }
{
    let mut crossings = Vec::new(alloc);
    for call in calls {
        keep(&mut crossings, crosses(levels, *call), *call)?;
    }
    Ok(crossings)
}
