//! Writes the code of stores and of calls whose result is dropped.
#![tactic(auto)]

pub mod again;
pub mod stores;
