//! Laws of what the functions of a program use.
#![tactic(auto)]

pub mod laws;
