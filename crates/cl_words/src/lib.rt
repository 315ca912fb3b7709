//! The words of the command line.
#![tactic(auto)]

mod settings;
pub mod words;
