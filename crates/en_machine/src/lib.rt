//! The stack machine: what carries out the code of a level.
#![tactic(auto)]

pub mod answer;
pub mod engine;
pub mod machine;
pub mod memory;
pub mod phase;
pub mod stopped;
