//! The program's commands, and the texts that they write.
#![tactic(auto)]

mod check;
pub mod commands;
pub mod job;
pub mod listing;
pub mod report;
mod run;
pub mod status;
pub mod texts;
