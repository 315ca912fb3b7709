//! Laws of programs of which the rules of names, types and sizes hold: each is the contract of a function that does nothing.
#![tactic(auto)]

pub mod facts;
pub mod meanings;
pub mod names;
pub mod places;
pub mod sizes;
pub mod steps;
pub mod types;
