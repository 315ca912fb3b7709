//! The levels of symbols: those that annotations give, and those that go along ties.
#![tactic(auto)]

pub mod carried;
pub mod conflicts;
pub mod foreign;
pub mod lines;
pub mod marks;
pub mod own;
pub mod ties;
