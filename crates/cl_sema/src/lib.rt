//! Names, types and sizes of programs: the rules E08, E09, E18 to E22, and what is kept of a program that
//! meets them.
#![tactic(auto)]

pub mod ends;
pub mod facts;
pub mod resolve;
pub mod rules;
pub mod stop;
