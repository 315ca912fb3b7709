//! The reader: from tokens to the program that they spell.
#![tactic(auto)]

pub mod brackets;
pub mod first;
pub mod limits;
pub mod reader;
pub mod stop;
