//! E29: what a call lends to its callee has an alias there.
#![tactic(auto)]

pub mod aliases;
pub mod lent;
pub mod naming;
pub mod twice;
