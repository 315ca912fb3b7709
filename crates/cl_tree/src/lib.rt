//! The tokens and the syntax tree of the C profile, and its arithmetic.
#![tactic(auto)]

pub mod arithmetic;
pub mod bytes;
pub mod grammar;
pub mod kinds;
pub mod letters;
pub mod pieces;
pub mod token;
pub mod tree;
pub mod words;
