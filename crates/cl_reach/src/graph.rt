//! A graph by its edges, and by the targets of each node.

ghost use Rattle.std.specs.Prelude.{◌≡◌, ℕ, ◌<◌, ◌+◌, ◌++◌, [], ◌∷◌, length, slice_index_or, slice_set, replicate, IfOk, OnOk, All, ◌↔◌, Contains};
ghost use Rattle.cl_reach.specs.Reach.{Rows};
ghost use Rattle.cl_reach.specs.declared.graph.Edge.{Edge};

use std::alloc::{AllocError, Global};
use std::marker::Model;

/// An edge between two nodes, which are numbers from 0 on.
#[derive(Clone, Copy, PartialEq, Eq)]
pub struct Edge {
    pub from: usize,
    pub to: usize,
}

/// A graph, which contracts see as the list of the targets of each node.
#[derive(Drop)]
pub struct Graph {
    rows: Vec<Vec<usize>>,
}

impl Model for Graph {
    ghost use Rattle.std.specs.Prelude.{ℕ, List, map, Vec};
    ghost use Rattle.std.specs.Coded.{coded_list, coded_ℕ};
    ghost use Rattle.std.specs.declared.alloc.Global.{Global};

    ghost Value = { List (List ℕ) };

    ghost coded = { coded_list (coded_list coded_ℕ) };

    ghost view = { λ g. map (λ (r : Vec ℕ Global). r.items) g.rows.items };
}

impl Graph {
    /// A graph without edges.
    pub fn new(alloc: Global, nodes: usize) -> Result<Graph, AllocError>
        ensures { IfOk result (λ g. g ≡ replicate nodes []) }
    {
        let mut rows = Vec::new(alloc);
        for _ in 0..nodes {
            rows.push(Vec::new(alloc))?;
        }
        Ok(Graph { rows })
    }

    /// The graph of a list of edges.
    pub fn of(alloc: Global, nodes: usize, edges: &[Edge]) -> Result<Graph, AllocError>
        requires { All (λ e. e.from < nodes) edges.now }
        ensures length { IfOk result (λ g. length g ≡ nodes) }
        ensures edges { IfOk result (λ g. Rows edges.now g) }
    {
        let mut graph = Graph::new(alloc, nodes)?;
        for edge in edges {
            graph.add(*edge)?;
        }
        Ok(graph)
    }

    pub fn nodes(&self) -> usize
        ensures { result ≡ length self.now }
    {
        self.rows.len()
    }

    /// Where the edges of a node lead.
    pub fn targets(&self, node: usize) -> &[usize]
        requires { node < length self.now }
        ensures { result.now ≡ slice_index_or self.now node [] }
    {
        self.rows[node].as_slice()
    }

    /// Adds an edge.
    pub fn add(&mut self, edge: Edge) -> Result<(), AllocError>
        requires { edge.from < length self.old }
        ensures { OnOk result (self.new ≡ slice_set self.old edge.from (slice_index_or self.old edge.from [] ++ edge.to ∷ [])) }
    {
        self.rows[edge.from].push(edge.to)?;
        Ok(())
    }
}
