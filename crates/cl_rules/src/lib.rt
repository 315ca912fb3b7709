//! The rules that a source can fail.
#![tactic(auto)]

pub mod rule;
