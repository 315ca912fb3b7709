//! The run of a checked source, whose calls between levels go through the router.
#![tactic(auto)]

mod calls;
pub mod crossing;
mod evaluate;
mod exchange;
mod far;
pub mod flow;
mod near;
pub mod run;
mod running;
pub mod state;
mod stop;
mod world;
