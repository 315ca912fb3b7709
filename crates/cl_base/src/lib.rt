//! Names, limits and the outside: what every other crate stands on.
#![tactic(auto)]

pub mod host;
pub mod limits;
pub mod memory;
pub mod name;
pub mod outside;
