//! Laws of the machine: each is the contract of a function that does nothing.
#![tactic(auto)]

pub mod work;
