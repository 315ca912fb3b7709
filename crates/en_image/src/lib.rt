//! What the machine of a level runs: instructions, entrances of functions, and how `printf` writes a number.
#![tactic(auto)]

pub mod image;
pub mod instr;
pub mod printing;
