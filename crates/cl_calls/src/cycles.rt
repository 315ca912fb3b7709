//! E28: levels call in a cycle.

ghost use Rattle.std.specs.Prelude.{◌≡◌, ◌+◌, ◌*◌, ◌<◌, ◌⊎◌, ℕ, [], ◌++◌, ◌∷◌, true, false, All, Contains, IfOk, OnOk, IsTrue, ◌↔◌};
ghost use Rattle.cl_reach.specs.declared.graph.Edge.{Edge};
ghost use Rattle.cl_reach.specs.Reach.{HasEdge, Reaches};
ghost use Rattle.cl_calls.specs.Cycles.{AreSeen, IsPair, ArePairs, Closes, Joins, Answers, cycle_at};
ghost use Rattle.cl_calls.specs.Cycles as cycles;

use crate::calls::level_at;
use cl_base::limits::LEVELS;
use cl_base::name::NoMemory;
use cl_levels::uses::Call;
use cl_mean::checked::Levels;
use cl_reach::graph::Edge;
use cl_reach::propagate::{Seed, propagate};
use cl_scope::stop::Stop;
use std::alloc::Global;

/// How many pairs of levels there are.
const PAIRS: usize = 1024;

/// Whether edges lead from where a pair leads back to where it comes from.
fn closes(alloc: Global, edges: &[Edge], pair: Edge) -> Result<bool, NoMemory>
    requires edges { ArePairs edges.now }
    requires pair { IsPair pair }
    ensures { IfOk result (λ b. IsTrue b ↔ Closes edges.now pair) }
{
    let seed = Seed {
        node: pair.to,
        label: 0,
    };
    let carried = propagate(alloc, LEVELS as usize, 1, &[seed], edges)?;
    Ok(carried.has(pair.from, 0))
}

/// The place of a pair of levels among all of them.
fn place_of(pair: Edge) -> usize
    requires { IsPair pair }
    ensures { result ≡ pair.from * 32 + pair.to }
{
    pair.from * 32 + pair.to
}

/// Pairs of levels, and at the place of each that it is among them.
#[derive(Drop)]
struct Pairs {
    edges: Vec<Edge>,
    seen: Vec<bool>,
}

impl Pairs {
    fn new(alloc: Global) -> Result<Pairs, NoMemory>
        ensures none { IfOk result (λ p. p.edges.items ≡ []) }
        ensures seen { IfOk result (λ p. AreSeen p.edges.items p.seen.items) }
    {
        let seen = vec![in alloc; false; PAIRS]?;
        Ok(Pairs {
            edges: Vec::new(alloc),
            seen,
        })
    }

    fn has(&self, pair: Edge) -> bool
        requires pairs { ArePairs self.now.edges.items }
        requires pair { IsPair pair }
        requires seen { AreSeen self.now.edges.items self.now.seen.items }
        ensures { result ≡ true → Contains self.now.edges.items pair }
    {
        match self.seen.get(place_of(pair)) {
            Some(seen) => *seen,
            None => false,
        }
    }

    /// Notes that a pair is among them.
    fn mark(&mut self, pair: Edge)
        requires pair { IsPair pair }
        requires there { Contains self.old.edges.items pair }
        requires seen { AreSeen self.old.edges.items self.old.seen.items }
        ensures edges { self.new.edges.items ≡ self.old.edges.items }
        ensures seen { AreSeen self.old.edges.items self.new.seen.items }
    {
        if let Some(seen) = self.seen.get_mut(place_of(pair)) {
            *seen = true;
        }
    }

    fn add(&mut self, pair: Edge) -> Result<(), NoMemory>
        requires pair { IsPair pair }
        requires seen { AreSeen self.old.edges.items self.old.seen.items }
        ensures edges { OnOk result (self.new.edges.items ≡ self.old.edges.items ++ pair ∷ []) }
        ensures seen { OnOk result (AreSeen self.new.edges.items self.new.seen.items) }
    {
        self.edges.push(pair)?;
        self.mark(pair);
        Ok(())
    }

    /// Whether a pair closes a cycle with them. Where it doesn't, it is among them then.
    fn close(&mut self, alloc: Global, pair: Edge) -> Result<bool, NoMemory>
        requires pairs { ArePairs self.old.edges.items }
        requires pair { IsPair pair }
        requires seen { AreSeen self.old.edges.items self.old.seen.items }
        ensures closes { IfOk result (λ b. b ≡ true → Closes self.old.edges.items pair) }
        ensures joins { IfOk result (λ b. b ≡ false → Joins self.old.edges.items pair self.new.edges.items) }
        ensures seen { IfOk result (λ b. b ≡ false → AreSeen self.new.edges.items self.new.seen.items) }
    {
        if self.has(pair) {
            return Ok(false);
        }
        if closes(alloc, self.edges.as_slice(), pair)? {
            return Ok(true);
        }
        self.add(pair)?;
        Ok(false)
    }
}

/// The pair of the levels of caller and callee.
fn pair_of(levels: &Levels, call: Call) -> Edge
    requires { All (λ n. n < 32) levels.now.of_functions }
    ensures pair { IsPair result }
    ensures levels { result ≡ cycles.pair_of levels.now call }
{
    Edge {
        from: level_at(levels, call.caller) as usize,
        to: level_at(levels, call.callee) as usize,
    }
}

/// E28: the first call across levels with which the calls up to it lead from a level back to it.
pub fn cycle(alloc: Global, levels: &Levels, crossings: &[Call]) -> Result<(), Stop>
    requires { All (λ n. n < LEVELS) levels.now.of_functions }
    ensures { Answers result (cycle_at levels.now crossings.now) }
{
    let mut pairs = Pairs::new(alloc)?;
    for call in crossings {
        if pairs.close(alloc, pair_of(levels, *call))? {
            return Err(Stop::At(call.line));
        }
    }
    Ok(())
}
