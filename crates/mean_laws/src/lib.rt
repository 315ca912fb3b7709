//! Laws of the meaning of a checked source: each is the contract of a function that does nothing.
#![tactic(auto)]

pub mod courses;
pub mod frames;
pub mod local_runs;
pub mod runs;
