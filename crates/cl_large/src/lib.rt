//! E21: objects, functions and counts that pass their limits.
#![tactic(auto)]

pub mod counts;
pub mod items;
pub mod locals;
pub mod sizes;
