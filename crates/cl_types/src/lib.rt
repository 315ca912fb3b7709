//! E20: the types of expressions, the calls that stand as statements, and constant expressions.
#![tactic(auto)]

pub mod calls;
pub mod constants;
pub mod exprs;
pub mod types;
