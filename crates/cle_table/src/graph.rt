//! The ways as a graph.

ghost use Rattle.std.specs.Prelude.{◌≡◌, ◌++◌, OnOk, IfOk};
ghost use Rattle.cle_table.specs.Numbers.{seeds_at, edges_at, seeds_of, edges_of};

use crate::nodes::Nodes;
use crate::ways::label_number;
use cl_base::name::NoMemory;
use cl_reach::graph::Edge;
use cl_reach::propagate::Seed;
use cle_ways::ways::{Origin, Way};
use std::alloc::Global;

/// Labels at nodes, and edges between nodes.
#[derive(Drop)]
pub struct Laid {
    pub seeds: Vec<Seed>,
    pub edges: Vec<Edge>,
}

impl Laid {
    fn add(&mut self, nodes: &Nodes, way: Way) -> Result<(), NoMemory>
        ensures seeds { OnOk result (self.new.seeds.items ≡ self.old.seeds.items ++ seeds_at nodes.now way way.from) }
        ensures edges { OnOk result (self.new.edges.items ≡ self.old.edges.items ++ edges_at nodes.now way way.from) }
    {
        match way.from {
            Origin::Just(m) => {
                self.seeds.push(Seed {
                    node: nodes.number(way.into),
                    label: label_number(m),
                })?;
            }
            Origin::AllOf(y) => {
                self.edges.push(Edge {
                    from: nodes.number(y),
                    to: nodes.number(way.into),
                })?;
            }
        }
        Ok(())
    }

    /// Each way is a label at a node, or an edge.
    #[tactic(auto, unfolding(crate::specs::Numbers::seeds_of, crate::specs::Numbers::edges_of))]
    pub fn of(alloc: Global, nodes: &Nodes, ways: &[Way]) -> Result<Laid, NoMemory>
        ensures seeds { IfOk result (λ l. l.seeds.items ≡ seeds_of nodes.now ways.now) }
        ensures edges { IfOk result (λ l. l.edges.items ≡ edges_of nodes.now ways.now) }
    {
        let mut laid = Laid {
            seeds: Vec::new(alloc),
            edges: Vec::new(alloc),
        };
        for way in ways {
            laid.add(nodes, *way)?;
        }
        Ok(laid)
    }
}
