//! A checked source for the tests and the timing of policies.
#![tactic(auto)]

pub mod source;
pub mod texts;
pub mod wide;
