//! The levels of a program, and the calls between them: the rules E24 to E30.
#![tactic(auto)]

pub mod assign;
mod crossed;
pub mod crossings;
mod grounds;
pub mod stop;
