//! The bytes that levels send to one another: the headers of frames, the buffer of one frame, and payloads.
#![tactic(auto)]

pub mod frame;
pub mod laws;
pub mod layout;
pub mod leaves;
pub mod payload;
pub mod signature;
mod sizes;
