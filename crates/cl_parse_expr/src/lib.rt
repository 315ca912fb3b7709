//! The reader of expressions and types.
#![tactic(auto)]

pub mod cursor;
pub mod expr;
pub mod stop;
pub mod types;
