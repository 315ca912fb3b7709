//! What a run holds.

use crate::state::State;
use hal_route::hal::Hal;
use rpc_codec::frame::FrameBuf;

/// The state of a run, its router, and the frame that was sent last.
#[derive(Drop)]
pub struct Running {
    pub state: State,
    pub hal: Hal,
    pub frame: FrameBuf,
}
