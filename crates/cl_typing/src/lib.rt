//! What a typed program is: the definitions of the rules of names, types and sizes, and of the facts that
//! are kept of it.
#![tactic(auto)]

pub mod constants;
pub mod format;
pub mod sought;
pub mod totals;
