//! E35: labels of taint lists that aren't shareable with a level that their data comes to.
#![tactic(auto)]

pub mod backs;
pub mod bearings;
pub mod lending;
pub mod share;
pub mod shareable;
pub mod signatures;
