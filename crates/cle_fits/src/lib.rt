//! E17: labels whose taints don't fit the functions that have them.
#![tactic(auto)]

pub mod fields;
pub mod misfits;
