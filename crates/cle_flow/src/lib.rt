//! Label flow: which labels a program's data carries, and whether each is admitted where it comes to.
#![tactic(auto)]

pub mod admitted;
pub mod bounds;
pub mod first;
pub mod flow;
pub mod stop;
