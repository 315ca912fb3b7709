//! The labels of a program: the rules E10 to E17 and E35, and the table of labels.
#![tactic(auto)]

pub mod labels;
mod rules;
pub mod stop;
