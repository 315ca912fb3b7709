//! The reader: from tokens to the program that they spell.
#![tactic(auto)]

pub mod declare;
pub mod item;
pub mod simple;
pub mod stmt;
pub mod whole;
