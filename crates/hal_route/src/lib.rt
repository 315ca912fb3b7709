//! The router: it passes frames from level to level, and keeps the journal of what it passed on.
#![tactic(auto)]

pub mod channel;
pub mod hal;
pub mod laws;
mod spelling;
pub mod uplink;
pub mod way;
