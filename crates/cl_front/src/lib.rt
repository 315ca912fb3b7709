//! The front end: from the bytes of a source to a checked source, or the first rule that fails.
#![tactic(auto)]

pub mod accept;
pub mod stop;
