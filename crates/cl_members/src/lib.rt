//! The structs that are known at a place, with tables of their members.
#![tactic(auto)]

pub mod fields;
pub mod tags;
