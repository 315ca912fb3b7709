//! The text of a definition of a label: its JSON, and the shape that a definition has.
#![tactic(auto)]

pub mod definition;
pub mod entry;
pub mod parts;
pub mod taints;
