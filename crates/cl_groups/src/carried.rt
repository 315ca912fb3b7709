//! The levels that go along ties.

ghost use Rattle.std.specs.Prelude.{◌≡◌, ◌↔◌, ◌≤◌, ◌<◌, ℕ, Some, length, map, IfOk, All};
ghost use Rattle.cl_levels.specs.Levels.{Symbol};
ghost use Rattle.cl_reach.specs.Reach.{Bears, Carries};
ghost use Rattle.cl_groups.specs.Own.{own_at};
ghost use Rattle.cl_groups.specs.Ties.{IsBelow, edges_of, seeds_of};

use crate::own::Own;
use crate::ties::Ties;
use cl_base::limits::{FUNCTIONS, LEVELS, OBJECTS};
use cl_base::name::NoMemory;
use cl_levels::uses::Body;
use cl_reach::propagate::{Carried, propagate};
use std::alloc::Global;

/// How many nodes there are: functions have the even ones, objects the odd ones.
const NODES: usize = (FUNCTIONS + OBJECTS) as usize;

/// The levels that nodes bear: those of annotated symbols, led along the ties of unannotated ones.
pub fn carried(alloc: Global, own: &Own, bodies: &[Body]) -> Result<Carried, NoMemory>
    requires few { length bodies.now ≤ FUNCTIONS }
    requires uses { All (λ b. All IsBelow b.uses) bodies.now }
    requires levels { (x : Symbol) (level : ℕ) → own_at own.now x ≡ Some level → level < LEVELS }
    ensures { IfOk result (λ c. (level node : ℕ) → Bears c level node
        ↔ Carries (seeds_of own.now 0 (map (λ b. b.uses) bodies.now)) (edges_of own.now 0 (map (λ b. b.uses) bodies.now)) level node) }
{
    let ties = Ties::of(alloc, own, bodies)?;
    let carried = propagate(
        alloc,
        NODES,
        LEVELS as usize,
        ties.seeds.as_slice(),
        ties.edges.as_slice(),
    )?;
    Ok(carried)
}
