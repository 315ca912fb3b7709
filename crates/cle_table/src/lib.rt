//! The labels that the variables and results of a program carry, by the ways that are noted.
#![tactic(auto)]

pub mod graph;
pub mod lists;
pub mod nodes;
pub mod table;
pub mod ways;
