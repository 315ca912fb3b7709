//! What the compiler looks up: types, names and functions.
#![tactic(auto)]

pub mod facts;
pub mod names;
pub mod types;
