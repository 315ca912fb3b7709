//! What reaches what in a graph: facts that go along edges, as labels go along a program's data flow.
#![tactic(auto)]

pub mod graph;
pub mod propagate;
mod queue;
pub mod spread;
