//! Calls between functions, those across levels, and the rules that these meet.
#![tactic(auto)]

pub mod calls;
pub mod cycles;
pub mod entries;
pub mod signatures;
