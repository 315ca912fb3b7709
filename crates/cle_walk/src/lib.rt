//! The walk over a whole program, which notes the ways that labels go in it and what the rules bound.
#![tactic(auto)]

pub mod program;
pub mod stmts;
pub mod walk;
