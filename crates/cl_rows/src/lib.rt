//! The rows of the calls across levels, and the sizes of their payloads.
#![tactic(auto)]

pub mod bytes;
pub mod fill;
pub mod marks;
pub mod rows;
pub mod wide;
