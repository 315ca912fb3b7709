//! Levels and labels by their names: the rules E10 to E13, and the tables of levels and labels.
#![tactic(auto)]

pub mod copies;
pub mod known;
pub mod labels;
pub mod rules;
pub mod seen;
pub mod tables;
pub mod walk;
