//! What names mean at a place of a program.
#![tactic(auto)]

pub mod items;
pub mod latest;
pub mod library;
pub mod scopes;
pub mod search;
pub mod stop;
