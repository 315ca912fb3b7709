//! Ties as edges of a graph.

ghost use Rattle.std.specs.Prelude.{◌≡◌, ◌≤◌, ◌<◌, ◌+◌, ◌*◌, ◌++◌, length, map, OnOk, IfOk, All};
ghost use Rattle.std.specs.List.{flat_map};
ghost use Rattle.cl_levels.specs.Levels.{function, object};
ghost use Rattle.cl_groups.specs.Ties.{both, lay, join, lead, use_edges, use_seeds, edges_of, seeds_of, IsBelow};

use crate::own::{Own, own_at};
use cl_base::limits::{FUNCTIONS, OBJECTS};
use cl_base::name::NoMemory;
use cl_levels::uses::{Body, Use};
use cl_reach::graph::Edge;
use cl_reach::propagate::Seed;
use std::alloc::Global;

/// The ties of unannotated symbols as edges, and the levels of annotated ones as seeds at the
/// unannotated symbols that are tied to them. Functions have the even nodes, objects the odd ones.
#[derive(Drop)]
pub struct Ties {
    pub edges: Vec<Edge>,
    pub seeds: Vec<Seed>,
}

/// The node of a function.
pub fn function_node(k: usize) -> usize
    requires { k < FUNCTIONS }
    ensures { result ≡ 2 * k }
{
    k * 2
}

/// The node of an object.
pub fn object_node(k: usize) -> usize
    requires { k < OBJECTS }
    ensures { result ≡ 2 * k + 1 }
{
    k * 2 + 1
}

/// Adds edges both ways, if there is a tie.
fn add_both(edges: &mut Vec<Edge>, tied: bool, a: usize, b: usize) -> Result<(), NoMemory>
    ensures { OnOk result (edges.new.items ≡ edges.old.items ++ both tied a b) }
{
    if tied {
        edges.push(Edge { from: a, to: b })?;
        edges.push(Edge { from: b, to: a })?;
    }
    Ok(())
}

/// Adds a seed where a level comes to an unannotated symbol.
fn add_seed(
    seeds: &mut Vec<Seed>,
    level: Option<u32>,
    free: bool,
    node: usize,
) -> Result<(), NoMemory>
    ensures { OnOk result (seeds.new.items ≡ seeds.old.items ++ lay level free node) }
{
    match level {
        Some(level) => {
            if free {
                let label = level as usize;
                seeds.push(Seed { node, label })?;
            }
            Ok(())
        }
        None => Ok(()),
    }
}

impl Ties {
    /// A function names an object.
    fn name(&mut self, own: &Own, f: usize, k: usize) -> Result<(), NoMemory>
        requires function { f < FUNCTIONS }
        requires object { k < OBJECTS }
        ensures edges { OnOk result (self.new.edges.items ≡ self.old.edges.items ++ join own.now (function f) (object k)) }
        ensures seeds { OnOk result (self.new.seeds.items ≡ self.old.seeds.items
            ++ (lead own.now (function f) (object k) ++ lead own.now (object k) (function f))) }
    {
        let by = own_at(own.functions.as_slice(), f);
        let of = own_at(own.objects.as_slice(), k);
        add_both(
            &mut self.edges,
            by.is_none() && of.is_none(),
            function_node(f),
            object_node(k),
        )?;
        add_seed(&mut self.seeds, by, of.is_none(), object_node(k))?;
        add_seed(&mut self.seeds, of, by.is_none(), function_node(f))
    }

    /// A function calls a function.
    fn call(&mut self, own: &Own, f: usize, g: usize) -> Result<(), NoMemory>
        requires function { f < FUNCTIONS }
        requires callee { g < FUNCTIONS }
        ensures edges { OnOk result (self.new.edges.items ≡ self.old.edges.items ++ join own.now (function f) (function g)) }
        ensures seeds { OnOk result (self.new.seeds.items ≡ self.old.seeds.items ++ lead own.now (function f) (function g)) }
    {
        let by = own_at(own.functions.as_slice(), f);
        let of = own_at(own.functions.as_slice(), g);
        add_both(
            &mut self.edges,
            by.is_none() && of.is_none(),
            function_node(f),
            function_node(g),
        )?;
        add_seed(&mut self.seeds, by, of.is_none(), function_node(g))
    }

    fn add(&mut self, own: &Own, f: usize, used: &Use) -> Result<(), NoMemory>
        requires function { f < FUNCTIONS }
        requires used { IsBelow used.now }
        ensures edges { OnOk result (self.new.edges.items ≡ self.old.edges.items ++ use_edges own.now f used.now) }
        ensures seeds { OnOk result (self.new.seeds.items ≡ self.old.seeds.items ++ use_seeds own.now f used.now) }
    {
        match used {
            Use::Named { object, line: _ } => self.name(own, f, *object),
            Use::Called {
                callee,
                roots: _,
                line: _,
            } => self.call(own, f, *callee),
        }
    }

    fn add_all(&mut self, own: &Own, f: usize, uses: &[Use]) -> Result<(), NoMemory>
        requires function { f < FUNCTIONS }
        requires uses { All IsBelow uses.now }
        ensures edges { OnOk result (self.new.edges.items ≡ self.old.edges.items ++ flat_map (use_edges own.now f) uses.now) }
        ensures seeds { OnOk result (self.new.seeds.items ≡ self.old.seeds.items ++ flat_map (use_seeds own.now f) uses.now) }
    {
        for used in uses {
            self.add(own, f, used)?;
        }
        Ok(())
    }

    /// The ties of a program, by what its functions use.
    pub fn of(alloc: Global, own: &Own, bodies: &[Body]) -> Result<Ties, NoMemory>
        requires few { length bodies.now ≤ FUNCTIONS }
        requires uses { All (λ b. All IsBelow b.uses) bodies.now }
        ensures edges { IfOk result (λ t. t.edges.items ≡ edges_of own.now 0 (map (λ b. b.uses) bodies.now)) }
        ensures seeds { IfOk result (λ t. t.seeds.items ≡ seeds_of own.now 0 (map (λ b. b.uses) bodies.now)) }
    {
        let mut ties = Ties {
            edges: Vec::new(alloc),
            seeds: Vec::new(alloc),
        };
        for (f, body) in bodies.iter().enumerate() {
            ties.add_all(own, f, body.uses.as_slice())?;
        }
        Ok(ties)
    }
}
