//! Levels, and the calls between them: the definitions of what a program's functions use, of the levels of what isn't
//! annotated, of the calls across levels and their rows, and of the rules of each.
#![tactic(auto)]

pub mod laws;
pub mod uses;
