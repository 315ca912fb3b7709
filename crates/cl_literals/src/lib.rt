//! What literals and directive lines mean.
#![tactic(auto)]

pub mod directives;
pub mod literals;
pub mod slices;
