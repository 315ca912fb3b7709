//! From tokens to the terminals that the grammar speaks of, and how tightly its operators bind.
#![tactic(auto)]

pub mod comes;
pub mod operators;
pub mod terminals;
pub mod words;
