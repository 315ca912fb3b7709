//! Labels that go along the edges of a graph.

ghost use Rattle.std.specs.Prelude.{◌≡◌, ℕ, ◌<◌, ◌≤◌, ◌*◌, ◌+◌, ◌↔◌, [], ◌∷◌, length, slice_index, slice_index_or, map, Vec, IfOk, OnOk, All, Contains, IsTrue};
ghost use Rattle.cl_reach.specs.Reach.{Leads, Reaches, Has, HasEdge, Carries, Bears};
ghost use Rattle.std.specs.declared.alloc.Global.{Global};
ghost use Rattle.cl_reach.specs.Seeds.{Plants, Seeded, CarriesBatch, CarriesBatches};

use crate::graph::{Edge, Graph};
use crate::spread::spread;
use std::alloc::{AllocError, Global};
use std::marker::Model;

/// A label that lies at a node from the start.
#[derive(Clone, Copy, PartialEq, Eq)]
pub struct Seed {
    pub node: usize,
    pub label: usize,
}

/// Lays a seed, if its label is one of a batch.
fn plant(seed: Seed, batch: usize, words: &mut [u64])
    requires { seed.node < length words.old }
    ensures { Plants seed batch words.old words.new }
{
    if seed.label / 64 == batch {
        words[seed.node] |= 1u64 << (seed.label % 64);
    }
}

/// Lays the seeds of a batch into words that have no bit yet.
fn lay(seeds: &[Seed], batch: usize, words: &mut [u64])
    requires nodes { All (λ s. s.node < length words.old) seeds.now }
    requires empty { (x : ℕ) → slice_index words.old x ≡ 0 }
    ensures { Seeded seeds.now batch words.new }
{
    for seed in seeds {
        plant(*seed, batch, words);
    }
}

/// The words of a batch of labels, once they went along the edges.
fn batch_words(
    alloc: Global,
    graph: &Graph,
    seeds: &[Seed],
    batch: usize,
    words: &mut [u64],
) -> Result<(), AllocError>
    requires nodes { length graph.now ≡ length words.old }
    requires empty { (x : ℕ) → slice_index words.old x ≡ 0 }
    requires seeds { All (λ s. s.node < length words.old) seeds.now }
    requires targets { (x : ℕ) → All (λ t. t < length words.old) (slice_index_or graph.now x []) }
    ensures { OnOk result (CarriesBatch (Leads graph.now) seeds.now batch words.new) }
{
    lay(seeds, batch, words);
    spread(alloc, graph, words)?;
    Ok(())
}

/// The words of a batch of labels, once they went along the edges.
fn batch_of(
    alloc: Global,
    graph: &Graph,
    seeds: &[Seed],
    batch: usize,
) -> Result<Vec<u64>, AllocError>
    requires seeds { All (λ s. s.node < length graph.now) seeds.now }
    requires targets { (x : ℕ) → All (λ t. t < length graph.now) (slice_index_or graph.now x []) }
    ensures { IfOk result (λ words. CarriesBatch (Leads graph.now) seeds.now batch words.items) }
{
    let mut words = vec![in alloc; 0u64; graph.nodes()]?;
    batch_words(alloc, graph, seeds, batch, words.as_mut_slice())?;
    Ok(words)
}

/// Which labels each node carries: those of the seeds, led along the edges.
#[derive(Drop)]
pub struct Carried {
    batches: Vec<Vec<u64>>,
}

impl Model for Carried {
    ghost use Rattle.std.specs.Prelude.{ℕ, List, map, Vec};
    ghost use Rattle.std.specs.Coded.{coded_list, coded_ℕ};
    ghost use Rattle.std.specs.declared.alloc.Global.{Global};

    ghost Value = { List (List ℕ) };

    ghost coded = { coded_list (coded_list coded_ℕ) };

    ghost view = { λ c. map (λ (words : Vec ℕ Global). words.items) c.batches.items };
}

impl Carried {
    /// Whether a node carries a label.
    pub fn has(&self, node: usize, label: usize) -> bool
        ensures { IsTrue result ↔ Bears self.now label node }
    {
        match self.batches.get(label / 64) {
            Some(words) => has_bit(words.as_slice(), node, label % 64),
            None => false,
        }
    }
}

fn has_bit(words: &[u64], node: usize, bit: usize) -> bool
    requires { bit < 64 }
    ensures { IsTrue result ↔ Has words.now bit node }
{
    match words.get(node) {
        Some(word) => *word >> bit & 1 == 1,
        None => false,
    }
}

/// The words of the first batches of labels.
fn batches_of(
    alloc: Global,
    graph: &Graph,
    seeds: &[Seed],
    count: usize,
) -> Result<Vec<Vec<u64>>, AllocError>
    requires seeds { All (λ s. s.node < length graph.now) seeds.now }
    requires targets { (x : ℕ) → All (λ t. t < length graph.now) (slice_index_or graph.now x []) }
    ensures { IfOk result (λ batches. CarriesBatches (Leads graph.now) seeds.now count (map (λ (words : Vec ℕ Global). words.items) batches.items)) }
{
    let mut batches = Vec::new(alloc);
    for batch in 0..count {
        batches.push(batch_of(alloc, graph, seeds, batch)?)?;
    }
    Ok(batches)
}

/// Leads the labels of seeds along edges: a node carries a label where a seed lays it there, or an edge comes
/// from a node that carries it.
pub fn propagate(
    alloc: Global,
    nodes: usize,
    labels: usize,
    seeds: &[Seed],
    edges: &[Edge],
) -> Result<Carried, AllocError>
    requires seeds { All (λ s. s.node < nodes) seeds.now }
    requires labels { All (λ s. s.label < labels) seeds.now }
    requires sources { All (λ e. e.from < nodes) edges.now }
    requires targets { All (λ e. e.to < nodes) edges.now }
    ensures sound { IfOk result (λ c. (m x : ℕ) → Bears c m x → Carries seeds.now edges.now m x) }
    ensures complete { IfOk result (λ c. (m x : ℕ) → Carries seeds.now edges.now m x → Bears c m x) }
{
    let graph = Graph::of(alloc, nodes, edges)?;
    let batches = batches_of(alloc, &graph, seeds, labels / 64 + 1)?;
    Ok(Carried { batches })
}
