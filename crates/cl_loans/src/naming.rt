//! Which functions name objects, themselves or by what they call.

ghost use Rattle.std.specs.Prelude.{◌≡◌, ◌↔◌, ◌≤◌, ◌<◌, ◌++◌, ℕ, length, map, IfOk, OnOk, All};
ghost use Rattle.std.specs.List.{flat_map};
ghost use Rattle.cl_groups.specs.Ties.{IsBelow};
ghost use Rattle.cl_reach.specs.Reach.{Bears, Carries};
ghost use Rattle.cl_loans.specs.Naming.{back, laid, backs, names};

use cl_base::limits::{FUNCTIONS, OBJECTS};
use cl_base::name::NoMemory;
use cl_levels::uses::{Body, Use};
use cl_reach::graph::Edge;
use cl_reach::propagate::{Carried, Seed, propagate};
use std::alloc::Global;

/// Calls backwards as edges, and objects at the functions that name them.
#[derive(Drop)]
struct Naming {
    edges: Vec<Edge>,
    seeds: Vec<Seed>,
}

impl Naming {
    fn add(&mut self, f: usize, used: &Use) -> Result<(), NoMemory>
        requires function { f < FUNCTIONS }
        requires used { IsBelow used.now }
        ensures edges { OnOk result (self.new.edges.items ≡ self.old.edges.items ++ back f used.now) }
        ensures seeds { OnOk result (self.new.seeds.items ≡ self.old.seeds.items ++ laid f used.now) }
    {
        match used {
            Use::Named { object, line: _ } => {
                self.seeds.push(Seed {
                    node: f,
                    label: *object,
                })?;
                Ok(())
            }
            Use::Called {
                callee,
                roots: _,
                line: _,
            } => {
                self.edges.push(Edge {
                    from: *callee,
                    to: f,
                })?;
                Ok(())
            }
        }
    }

    fn add_all(&mut self, f: usize, uses: &[Use]) -> Result<(), NoMemory>
        requires function { f < FUNCTIONS }
        requires uses { All IsBelow uses.now }
        ensures edges { OnOk result (self.new.edges.items ≡ self.old.edges.items ++ flat_map (back f) uses.now) }
        ensures seeds { OnOk result (self.new.seeds.items ≡ self.old.seeds.items ++ flat_map (laid f) uses.now) }
    {
        for used in uses {
            self.add(f, used)?;
        }
        Ok(())
    }

    fn of(alloc: Global, bodies: &[Body]) -> Result<Naming, NoMemory>
        requires few { length bodies.now ≤ FUNCTIONS }
        requires uses { All (λ b. All IsBelow b.uses) bodies.now }
        ensures edges { IfOk result (λ n. n.edges.items ≡ backs (map (λ b. b.uses) bodies.now)) }
        ensures seeds { IfOk result (λ n. n.seeds.items ≡ names (map (λ b. b.uses) bodies.now)) }
    {
        let mut naming = Naming {
            edges: Vec::new(alloc),
            seeds: Vec::new(alloc),
        };
        for (f, body) in bodies.iter().enumerate() {
            naming.add_all(f, body.uses.as_slice())?;
        }
        Ok(naming)
    }
}

/// The objects that functions name, themselves or by what they call.
pub fn named(alloc: Global, bodies: &[Body]) -> Result<Carried, NoMemory>
    requires few { length bodies.now ≤ FUNCTIONS }
    requires uses { All (λ b. All IsBelow b.uses) bodies.now }
    ensures { IfOk result (λ c. (k g : ℕ) → Bears c k g ↔ Carries (names (map (λ b. b.uses) bodies.now)) (backs (map (λ b. b.uses) bodies.now)) k g) }
{
    let naming = Naming::of(alloc, bodies)?;
    let carried = propagate(
        alloc,
        FUNCTIONS as usize,
        OBJECTS as usize,
        naming.seeds.as_slice(),
        naming.edges.as_slice(),
    )?;
    Ok(carried)
}
