//! What the code of a checked source is: the instructions of expressions, statements and functions, and the image of a level.
#![tactic(auto)]

pub mod mark;
pub mod route;
pub mod storage;
