//! Policies, and guards: what judges the frames that cross between levels.
#![tactic(auto)]

mod draft;
mod found;
pub mod guards;
mod json;
pub mod laws;
mod names;
pub mod order;
pub mod policy;
mod redact;
mod resolve;
mod text;
