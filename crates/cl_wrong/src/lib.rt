//! E20: the types of initialisers, declarations, statements and items.
#![tactic(auto)]

pub mod inits;
pub mod items;
pub mod stmts;
