//! The lexer: the tokens of a source, or the first lexical rule that it breaks.
#![tactic(auto)]

pub mod examples;
pub mod lex;
mod meaning;
mod passes;
mod pieces;
mod scan;
mod text;
