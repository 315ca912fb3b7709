//! The lexer and the reader as one call: from the bytes of a source to its program.
#![tactic(auto)]

pub mod read;
pub mod stop;
