//! The integers under paths of payloads: tables of the members of structs and payloads, so that a path costs little more than its
//! own length and the integers that it names.
#![tactic(auto)]

mod inside;
pub mod places;
mod signature;
mod table;
pub mod tables;
