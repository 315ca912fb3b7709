//! Regions and the labels that pragmas put on items: E14 and E15.
#![tactic(auto)]

pub mod ahead;
pub mod bag;
pub mod labels;
pub mod marks;
pub mod places;
pub mod roles;
pub mod twice;
