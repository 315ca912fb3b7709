//! Writes the code of expressions.
#![tactic(auto)]

pub mod across;
pub mod exprs;
pub mod kinds;
pub mod types;
pub mod writer;
