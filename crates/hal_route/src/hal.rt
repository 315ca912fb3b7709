//! The router.

ghost use Rattle.std.specs.Prelude.{◌≡◌, ◌<◌, ◌≤◌, ◌^◌, [], length, IfOk, MatchResult};
ghost use Rattle.hal_route.specs.Hal.{channels_of, least_room, recorded, room_of};
ghost use Rattle.hal_route.specs.Take.{IsTaken, first_of, tests, way};

use crate::channel::{Channel, callers, channels_of};
use crate::spelling::frame_header;
use crate::uplink::{BadUplink, Passed, Test};
use crate::way::{Way, has_mux, sent_by};
use cl_base::limits::{FRAME_BYTES, FRAME_COST};
use cl_base::name::NoMemory;
use cl_mean::checked::Checked;
use rpc_codec::frame::{FrameBuf, HEADER_BYTES, Header};
use std::alloc::Global;
use std::marker::Model;

/// The room that is left while a frame may still be taken.
const LEAST_ROOM: usize = 2 * FRAME_BYTES;

/// The router of one run. `open` takes all the memory that it needs, and no later call asks for any.
#[derive(Drop)]
pub struct Hal {
    channels: Vec<Channel>,
    main: u32,
    /// Bytes of a whole journal.
    limit: usize,
    journal: Vec<u8>,
    frames: u64,
}

impl Model for Hal {
    ghost use Rattle.std.specs.Prelude.{◌≡◌, ◌≤◌, ◌*◌, vec_len, vec_capacity};
    ghost use Rattle.rpc_codec.specs.declared.frame.TheConstants.{HEADER_BYTES};
    ghost use Rattle.hal_route.specs.Hal.{State, capacity};

    ghost Value = { State };

    ghost view = { λ h. record { channels = h.channels.items; main = h.main; journal = h.journal.items; frames = h.frames } };

    ghost invariant = { λ h. (h.limit ≡ capacity h.channels.items) × (vec_len h.journal ≤ h.limit) × (h.limit ≤ vec_capacity h.journal) × (HEADER_BYTES * h.frames ≤ vec_len h.journal) };
}

impl Hal {
    /// The router of a program, with an empty journal. Its whole room is taken here: for each level
    /// that is a caller what its frames may cost, and two frames of the greatest length.
    pub fn open(alloc: Global, checked: &Checked) -> Result<Hal, NoMemory>
        requires { length checked.now.gedl.rows < 2 ^ 31 }
        ensures { IfOk result (λ hal. hal ≡ record { channels = channels_of checked.now.gedl.rows; main = checked.now.gedl.main; journal = []; frames = 0 }) }
    {
        let channels = channels_of(alloc, checked.gedl.rows.as_slice())?;
        let limit = FRAME_COST as usize * callers(&channels) + LEAST_ROOM;
        let journal = Vec::with_capacity(alloc, limit)?;
        Ok(Hal {
            channels,
            main: checked.gedl.main,
            limit,
            journal,
            frames: 0,
        })
    }

    /// Bytes of the journal that are free.
    pub fn room(&self) -> usize
        ensures { result ≡ room_of self.now }
    {
        self.limit - self.journal.len()
    }

    /// The frames that were passed on, each behind the one before.
    pub fn journal(&self) -> &[u8]
        ensures { result.now ≡ self.now.journal }
    {
        self.journal.as_slice()
    }

    /// How many frames the journal has.
    pub fn frames(&self) -> u64
        ensures { result ≡ self.now.frames }
    {
        self.frames
    }

    /// Where a frame with this header leads that came from this level.
    #[tactic(auto, unfolding(crate::specs::Take::way))]
    fn way(&self, from: u32, header: &Header) -> Option<Way>
        ensures { result ≡ way self.now from header.now }
    {
        if header.typ == 0 {
            let stops = from == self.main && has_mux(header, 0);
            return stops.then_some(Way::Stops);
        }
        let row = (header.typ - 1) / 2;
        let channel = self.channels.get(row as usize)?;
        sent_by(from, header, channel)
    }

    /// The way of a frame that meets the tests behind the spelling, or the first test that it fails.
    fn passing_way(&self, from: u32, header: &Header) -> Result<Way, Test>
        ensures way { IfOk result (λ w. way self.now from header.now ≡ Some w) }
        ensures first { MatchResult result (λ _. first_of (tests self.now from header.now) ≡ None) (λ t. first_of (tests self.now from header.now) ≡ Some t) }
    {
        let way = self.way(from, header).ok_or(Test::Route)?;
        if header.turn != self.frames + 1 {
            return Err(Test::Turn);
        }
        if header.length != way.length_due(header) {
            return Err(Test::Length);
        }
        if !way.ends() && self.room() < LEAST_ROOM {
            return Err(Test::Room);
        }
        Ok(way)
    }

    /// Puts the frame behind the journal.
    fn record(&mut self, frame: &[u8])
        requires room { least_room ≤ room_of self.old }
        requires long { HEADER_BYTES ≤ length frame.now }
        requires within { length frame.now ≤ FRAME_BYTES }
        ensures { self.new ≡ recorded self.old frame.now }
    {
        // `open` took the room.
        if self.journal.extend_from_slice(frame).is_err() {
            unreachable!()
        }
        self.frames += 1;
    }

    /// Passes on the frame that came from this level: a request to its callee, and a reply to its
    /// caller. Nothing changes where a test fails, nor for the stop frame.
    pub fn take(&mut self, from: u32, frame: &mut FrameBuf) -> Result<Passed, BadUplink>
        ensures taken { IsTaken self.old from frame.old result self.new }
        ensures frame { frame.new ≡ frame.old }
    {
        let header = frame_header(frame).ok_or(Test::Spelling)?;
        let way = self.passing_way(from, &header)?;
        if !way.ends() {
            self.record(frame.bytes());
        }
        Ok(way.answer())
    }
}
