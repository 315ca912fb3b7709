//! Laws of tables of labels: each is the contract of a function that does nothing.
#![tactic(auto)]

pub mod fitting;
pub mod lists;
pub mod within;
