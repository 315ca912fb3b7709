//! Laws of the router: each is the contract of a function that does nothing.

ghost use Rattle.std.specs.Prelude.{◌≡◌, ℕ, ◌+◌, ◌++◌, ◌≤◌, ◌⊎◌, List, Ok, Result, Some, slice_get, true, false};
ghost use Rattle.rpc_codec.specs.declared.frame.Header.{Header as HeaderValue};
ghost use Rattle.rpc_codec.specs.declared.frame.TheConstants.{VALUES, BROKEN, STOP};
ghost use Rattle.cl_mean.specs.Journal.{mux_of, typ_of};
ghost use Rattle.cl_mean.specs.declared.checked.GedlRow.{GedlRow as RowValue};
ghost use Rattle.hal_route.specs.declared.channel.Channel.{Channel as ChannelValue};
ghost use Rattle.hal_route.specs.declared.uplink.BadUplink.{BadUplink};
ghost use Rattle.hal_route.specs.declared.uplink.Passed.{Passed};
ghost use Rattle.hal_route.specs.declared.uplink.Passed.TheVariants.{To, Stop};
ghost use Rattle.hal_route.specs.declared.way.Way.TheVariants.{Asks, Answers, Stops};
ghost use Rattle.hal_route.specs.Hal.{State, channel_of, channels_of, least_room, recorded, room_of};
ghost use Rattle.hal_route.specs.Passing.{GoesTo, IsNext, IsReply, IsRequest, IsStop, reply_length};
ghost use Rattle.hal_route.specs.Take.{IsSpelled, IsTaken, way};

use rpc_codec::frame::{header_returns, one_header};

/// Channel k is that of row k, with the number of the row's pair of levels.
pub fn channels_by_row()
    ensures { (rows : List RowValue) (k : ℕ) (row : RowValue) → slice_get rows k ≡ Some row → slice_get (channels_of rows) k ≡ Some (channel_of row (mux_of rows k)) }
{}

/// A frame leads on from its row's caller, or from its callee, or from the level of `main`, and in no other way.
pub fn ways_are_these()
    ensures request { (hal : State) (from : ℕ) (h : HeaderValue) (k : ℕ) (c : ChannelValue) → IsRequest hal from h k c → way hal from h ≡ Some (Asks c) }
    ensures reply { (hal : State) (from : ℕ) (h : HeaderValue) (k : ℕ) (c : ChannelValue) → IsReply hal from h k c → way hal from h ≡ Some (Answers c) }
    ensures stop { (hal : State) (from : ℕ) (h : HeaderValue) → IsStop hal from h → way hal from h ≡ Some Stops }
    ensures request_only { (hal : State) (from : ℕ) (h : HeaderValue) (c : ChannelValue) → way hal from h ≡ Some (Asks c) → (k : ℕ) × IsRequest hal from h k c }
    ensures reply_only { (hal : State) (from : ℕ) (h : HeaderValue) (c : ChannelValue) → way hal from h ≡ Some (Answers c) → (k : ℕ) × IsReply hal from h k c }
    ensures stop_only { (hal : State) (from : ℕ) (h : HeaderValue) → way hal from h ≡ Some Stops → IsStop hal from h }
{}

/// A state, a level and a frame have one answer, and one state behind it.
pub fn one_answer()
    ensures { (hal one two : State) (from : ℕ) (frame : List ℕ) (r s : Result Passed BadUplink) → IsTaken hal from frame r one → IsTaken hal from frame s two → (r ≡ s) × (one ≡ two) }
{
    one_header();
}

/// The next request of a row, from its caller, goes to its callee.
pub fn request_passes()
    ensures { (hal after : State) (from : ℕ) (frame payload : List ℕ) (outcome : Result Passed BadUplink) (h : HeaderValue) (k : ℕ) (c : ChannelValue) → IsTaken hal from frame outcome after → IsRequest hal from h k c → IsNext hal frame payload h c.request → least_room ≤ room_of hal → GoesTo hal frame c.to outcome after }
{
    one_header();
    header_returns();
}

/// The next reply of a row, from its callee, goes to its caller.
pub fn reply_passes()
    ensures { (hal after : State) (from : ℕ) (frame payload : List ℕ) (outcome : Result Passed BadUplink) (h : HeaderValue) (k : ℕ) (c : ChannelValue) → IsTaken hal from frame outcome after → IsReply hal from h k c → (h.kind ≡ VALUES) ⊎ (h.kind ≡ BROKEN) → IsNext hal frame payload h (reply_length h.kind c) → least_room ≤ room_of hal → GoesTo hal frame c.from outcome after }
{
    one_header();
    header_returns();
}

/// The stop frame from the level of `main`, in its turn, is the stop, and leaves the router as it was.
pub fn stop_passes()
    ensures { (hal after : State) (from : ℕ) (frame payload : List ℕ) (outcome : Result Passed BadUplink) (h : HeaderValue) → IsTaken hal from frame outcome after → IsStop hal from h → h.kind ≡ STOP → IsNext hal frame payload h 0 → (outcome ≡ Ok Stop) × (after ≡ hal) }
{
    one_header();
    header_returns();
}

/// What was passed to a level ends the journal, and its turn is its place there.
pub fn journal_ends_with_the_frame()
    ensures state { (hal after : State) (from to : ℕ) (frame : List ℕ) → IsTaken hal from frame (Ok (To to)) after → after ≡ recorded hal frame }
    ensures turn { (hal after : State) (from to : ℕ) (frame : List ℕ) (h : HeaderValue) → IsTaken hal from frame (Ok (To to)) after → IsSpelled frame h → h.turn ≡ after.frames }
{
    one_header();
}

/// No level but that of `main` ends the run.
pub fn only_main_stops()
    ensures { (hal after : State) (from : ℕ) (frame : List ℕ) → IsTaken hal from frame (Ok Stop) after → from ≡ hal.main }
{}

/// The tag of a row's message passes only from the level that sends it: a request from the row's caller, and a reply from its callee.
pub fn senders_are_of_the_row()
    ensures request { (hal after : State) (from k : ℕ) (frame : List ℕ) (h : HeaderValue) (p : Passed) → IsTaken hal from frame (Ok p) after → IsSpelled frame h → h.typ ≡ typ_of k false → (c : ChannelValue) × IsRequest hal from h k c × (p ≡ To c.to) }
    ensures reply { (hal after : State) (from k : ℕ) (frame : List ℕ) (h : HeaderValue) (p : Passed) → IsTaken hal from frame (Ok p) after → IsSpelled frame h → h.typ ≡ typ_of k true → (c : ChannelValue) × IsReply hal from h k c × (p ≡ To c.from) }
{
    one_header();
}
