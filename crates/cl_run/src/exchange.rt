//! The frames of calls, which go through the router.

ghost use Rattle.std.specs.Prelude.{◌≡◌, ◌<◌, ◌≤◌, ◌+◌, ◌-◌, ◌/◌, ◌^◌, ◌∷◌, [], ◌++◌, ℤ, length, true, false, slice_get, IfOk, Ok, Some};
ghost use Rattle.cl_tree.specs.Arithmetic.{fits};
ghost use Rattle.cl_tree.specs.declared.kinds.IntKind.TheVariants.{I32};
ghost use Rattle.cl_mean.specs.Journal.{typ_of};
ghost use Rattle.rpc_codec.specs.Frames.{header_bytes, IsHeader};
ghost use Rattle.rpc_codec.specs.declared.frame.Header.{Header as HeaderValue};
ghost use Rattle.hal_route.specs.declared.uplink.Passed.TheVariants.{Stop};
ghost use Rattle.hal_route.specs.Hal.{recorded};
ghost use Rattle.hal_route.specs.Take.{IsTaken};
ghost use Rattle.cl_run.specs.Runs.{IsServed};
ghost use Rattle.cl_run.specs.Steps.{IsReady, header_of, int_payload};

use crate::calls::Route;
use cl_base::limits::FRAME_BYTES;
use cl_base::name::NoMemory;
use cl_mean::checked::Checked;
use cl_tree::kinds::IntKind;
use hal_route::hal::Hal;
use hal_route::laws::{reply_passes, request_passes, stop_passes};
use hal_route::uplink::Passed;
use rpc_codec::frame::{BROKEN, FrameBuf, HEADER_BYTES, Header, STOP, VALUES, one_header};
use rpc_codec::layout::Layout;
use rpc_codec::payload::{decode, encode_into};
use std::alloc::Global;

/// The number of the pair of levels that all rows are of so far.
const PAIR: u32 = 1;

/// The tag of a row's request, or of its reply.
fn typ_of(number: u32, reply: bool) -> u32
    requires { number < 2 ^ 31 - 1 }
    ensures { result ≡ typ_of number reply }
{
    if reply {
        2 * number + 2
    } else {
        2 * number + 1
    }
}

/// The header of a row's request or reply, which is the next frame.
fn header_of(hal: &Hal, number: u32, reply: bool, kind: u8, length: u32) -> Header
    requires number { number < 2 ^ 31 - 1 }
    requires turn { hal.now.frames < 2 ^ 64 - 1 }
    ensures { result ≡ header_of hal.now number reply kind length }
{
    let turn = hal.frames() + 1;
    Header {
        mux: PAIR,
        sec: PAIR,
        typ: typ_of(number, reply),
        turn,
        kind,
        length,
    }
}

/// Sends the request of a row from its caller. The result is the level that it came to.
pub fn send_request(
    checked: &Checked,
    route: &Route<'_>,
    hal: &mut Hal,
    frame: &mut FrameBuf,
) -> u32
    requires served { IsServed checked.now }
    requires row { slice_get checked.now.gedl.rows route.now.number ≡ Some route.now.row.now }
    requires ready { IsReady checked.now hal.old }
    ensures level { result ≡ route.now.row.now.to }
    ensures journal { hal.new ≡ recorded hal.old (header_bytes (header_of hal.old route.now.number false VALUES 0)) }
    ensures read { IsHeader frame.new (header_of hal.old route.now.number false VALUES 0) }
{
    request_passes();
    frame.set_header(header_of(hal, route.number, false, VALUES, 0));
    let Ok(Passed::To(level)) = hal.take(route.row.from, frame) else {
        unreachable!()
    };
    level
}

/// Puts the payload of one `int` behind what is held.
fn put_int(layout: &Layout, value: i128, frame: &mut FrameBuf)
    requires layout { layout.now ≡ I32 ∷ [] }
    requires room { length frame.old + 4 ≤ FRAME_BYTES }
    ensures bytes { frame.new ≡ frame.old ++ int_payload value }
    ensures long { length frame.new ≡ length frame.old + 4 }
{
    encode_into(layout, &[value], frame);
}

/// Sends the reply of a row, with its number, from the callee.
pub fn send_reply(
    checked: &Checked,
    route: &Route<'_>,
    layout: &Layout,
    value: i128,
    hal: &mut Hal,
    frame: &mut FrameBuf,
)
    requires served { IsServed checked.now }
    requires row { slice_get checked.now.gedl.rows route.now.number ≡ Some route.now.row.now }
    requires ready { IsReady checked.now hal.old }
    requires layout { layout.now ≡ I32 ∷ [] }
    ensures journal { hal.new ≡ recorded hal.old (header_bytes (header_of hal.old route.now.number true VALUES 4) ++ int_payload value) }
    ensures bytes { frame.new ≡ header_bytes (header_of hal.old route.now.number true VALUES 4) ++ int_payload value }
    ensures long { length frame.new ≡ HEADER_BYTES + 4 }
{
    reply_passes();
    frame.set_header(header_of(hal, route.number, true, VALUES, 4));
    put_int(layout, value, frame);
    let Ok(Passed::To(_)) = hal.take(route.row.to, frame) else {
        unreachable!()
    };
}

/// Sends the reply to a call that a trap broke off, from the callee.
pub fn send_broken(checked: &Checked, route: &Route<'_>, hal: &mut Hal, frame: &mut FrameBuf)
    requires served { IsServed checked.now }
    requires row { slice_get checked.now.gedl.rows route.now.number ≡ Some route.now.row.now }
    requires ready { IsReady checked.now hal.old }
    ensures journal { hal.new ≡ recorded hal.old (header_bytes (header_of hal.old route.now.number true BROKEN 0)) }
{
    reply_passes();
    frame.set_header(header_of(hal, route.number, true, BROKEN, 0));
    let Ok(Passed::To(_)) = hal.take(route.row.to, frame) else {
        unreachable!()
    };
}

/// Sends the frame that ends a run, from the level of `main`.
pub fn send_stop(checked: &Checked, hal: &mut Hal, frame: &mut FrameBuf)
    requires ready { IsReady checked.now hal.old }
    ensures hal { hal.new ≡ hal.old }
    ensures frame { frame.new ≡ header_bytes (record { mux = 0; sec = 0; typ = 0; turn = hal.old.frames + 1; kind = STOP; length = 0 }) }
    ensures taken { IsTaken hal.old checked.now.gedl.main frame.new (Ok Stop) hal.new }
{
    stop_passes();
    frame.set_header(Header {
        mux: 0,
        sec: 0,
        typ: 0,
        turn: hal.frames() + 1,
        kind: STOP,
        length: 0,
    });
    let Ok(Passed::Stop) = hal.take(checked.gedl.main, frame) else {
        unreachable!()
    };
}

/// The number of the row whose request came.
pub fn asked_row(frame: &FrameBuf) -> u32
    requires { HEADER_BYTES ≤ length frame.now }
    ensures { (h : HeaderValue) → IsHeader frame.now h → result ≡ (h.typ - 1) / 2 }
{
    one_header();
    match frame.header() {
        Some(header) => header.typ.saturating_sub(1) / 2,
        None => unreachable!(),
    }
}

/// The layout of a reply with one `int`.
pub fn int_layout(alloc: Global) -> Result<Layout, NoMemory>
    ensures { IfOk result (λ layout. layout ≡ I32 ∷ []) }
{
    Layout::from_kinds(vec![in alloc; IntKind::I32]?)
}

/// The number of a reply.
pub fn received(layout: &Layout, frame: &FrameBuf) -> i128
    requires layout { layout.now ≡ I32 ∷ [] }
    requires long { length frame.now ≡ HEADER_BYTES + 4 }
    ensures { (h : HeaderValue) (n : ℤ) → fits I32 n ≡ true → frame.now ≡ header_bytes h ++ int_payload n → result ≡ n }
{
    let mut values = [0];
    if !decode(layout, &frame.bytes()[HEADER_BYTES..], &mut values) {
        unreachable!()
    }
    values[0]
}
