//! The ways that labels go in a program, and the bounds that rules set to what is carried.
#![tactic(auto)]

pub mod exprs;
pub mod facts;
pub mod places;
pub mod spot;
pub mod ways;
