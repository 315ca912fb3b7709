ghost use Rattle.std.specs.Prelude.{◌≡◌, ◌≤◌, length, IfOk};

use cl_base::limits::{FRAME_BYTES, PAYLOAD_BYTES};
use cl_base::name::{Name, NoMemory};
use cl_mean::checked::{Checked, Flow, GedlRow, GedlRows, Levels, Typed};
use cl_mean::labels::{LabelTable, Operation};
use cl_tree::kinds::IntKind;
use cl_tree::tree::{CType, Program};
use hal_route::hal::Hal;
use hal_route::uplink::{BadUplink, Passed, Test};
use rpc_codec::frame::{FrameBuf, Header};
use sqlite_items::Items;
use std::alloc::{AllocError, Global};
use std::process::Abort;
use std::test::Fail;

/// The only row: level 0 calls level 1, and the reply has four bytes.
fn row(alloc: Global, request: u32) -> Result<GedlRow, NoMemory> {
    Ok(GedlRow {
        from: 0,
        to: 1,
        function: 0,
        name: Name::of(alloc, "f")?,
        label: Name::of(alloc, "L")?,
        operation: Operation::Allow,
        args: Items::new(alloc),
        result: CType::Integer(IntKind::I32),
        request,
        reply: 4,
        oneway: false,
    })
}

/// A program of nothing but that row, whose `main` is of level 0.
fn checked(alloc: Global, request: u32) -> Result<Checked, NoMemory>
    ensures { IfOk result (λ c. length c.gedl.rows ≡ 1) }
{
    let mut rows = Items::new(alloc);
    rows.push(row(alloc, request)?)?;
    Ok(Checked {
        typed: Typed {
            program: Program {
                items: Items::new(alloc),
            },
            functions: Items::new(alloc),
            objects: Items::new(alloc),
        },
        labels: LabelTable {
            levels: Items::new(alloc),
            labels: Items::new(alloc),
            on_functions: Items::new(alloc),
            on_objects: Items::new(alloc),
        },
        levels: Levels {
            of_functions: Items::new(alloc),
            of_objects: Items::new(alloc),
            main: 0,
        },
        flow: Flow {
            objects: Items::new(alloc),
            locals: Items::new(alloc),
            results: Items::new(alloc),
        },
        gedl: GedlRows {
            levels: Items::new(alloc),
            main: 0,
            rows,
        },
    })
}

/// A router for that program.
fn opened(alloc: Global, request: u32) -> Result<Hal, NoMemory> {
    let checked = checked(alloc, request)?;
    Hal::open(alloc, &checked)
}

const REQUEST: &[u8] = b"\0\0\0\x01\0\0\0\x01\0\0\0\x01\0\0\0\0\0\0\0\x01\0\0\0\0\0";

const REPLY: &[u8] = b"\0\0\0\x01\0\0\0\x01\0\0\0\x02\0\0\0\0\0\0\0\x02\0\0\0\0\x04\0\0\0\x01";

/// Both, the reply behind the request.
const JOURNAL: &[u8] =
    b"\0\0\0\x01\0\0\0\x01\0\0\0\x01\0\0\0\0\0\0\0\x01\0\0\0\0\0\0\0\0\x01\0\0\0\x01\0\0\0\x02\0\0\0\0\0\0\0\x02\0\0\0\0\x04\0\0\0\x01";

fn take(
    rt: &impl Abort,
    hal: &mut Hal,
    frame: &mut FrameBuf,
    from: u32,
    bytes: &[u8],
) -> Result<Passed, BadUplink> {
    assert!(rt; bytes.len() <= FRAME_BYTES);
    frame.set_bytes(bytes);
    let passed = hal.take(from, frame);
    assert_eq!(rt; frame.bytes(), bytes);
    passed
}

/// A sender, its frame, where it goes, and the frames and the room behind it.
const PASSED: [(u32, &[u8], Passed, u64, usize); 3] = [
    (0, REQUEST, Passed::To(1), 1, 8396825),
    (1, REPLY, Passed::To(0), 2, 8396796),
    (
        0,
        b"\0\0\0\0\0\0\0\0\0\0\0\0\0\0\0\0\0\0\0\x03\x03\0\0\0\0",
        Passed::Stop,
        2,
        8396796,
    ),
];

#[test]
fn a_run_is_passed_on(rt: HostRuntime) -> Result<(), Fail> {
    let mut hal = opened(rt.alloc(), 0)?;
    let mut frame = FrameBuf::open(rt.alloc())?;
    assert_eq!(rt; hal.room(), 8396850);
    for row in &PASSED {
        let (from, bytes, passed, frames, room) = *row;
        assert_eq!(rt; take(&rt, &mut hal, &mut frame, from, bytes), Ok(passed));
        assert_eq!(rt; hal.frames(), frames);
        assert_eq!(rt; hal.room(), room);
    }
    assert_eq!(rt; hal.journal(), JOURNAL);
    Ok(())
}

#[test]
fn a_reply_may_have_no_values(rt: HostRuntime) -> Result<(), Fail> {
    let mut hal = opened(rt.alloc(), 0)?;
    let mut frame = FrameBuf::open(rt.alloc())?;
    let bytes = b"\0\0\0\x01\0\0\0\x01\0\0\0\x02\0\0\0\0\0\0\0\x01\x02\0\0\0\0";
    assert_eq!(rt;
        take(&rt, &mut hal, &mut frame, 1, bytes),
        Ok(Passed::To(0))
    );
    Ok(())
}

/// A sender, its frame, and the test that it fails.
const REFUSED: [(u32, &[u8], Test); 12] = [
    // 24 bytes; one byte behind the header; kinds 1 and 4; the stop tag with kind 0; kind 3 with a row's tag.
    (
        0,
        b"\0\0\0\x01\0\0\0\x01\0\0\0\x01\0\0\0\0\0\0\0\x01\0\0\0\0",
        Test::Spelling,
    ),
    (
        0,
        b"\0\0\0\x01\0\0\0\x01\0\0\0\x01\0\0\0\0\0\0\0\x01\0\0\0\0\0\0",
        Test::Spelling,
    ),
    (
        0,
        b"\0\0\0\x01\0\0\0\x01\0\0\0\x01\0\0\0\0\0\0\0\x01\x01\0\0\0\0",
        Test::Spelling,
    ),
    (
        0,
        b"\0\0\0\x01\0\0\0\x01\0\0\0\x01\0\0\0\0\0\0\0\x01\x04\0\0\0\0",
        Test::Spelling,
    ),
    (
        0,
        b"\0\0\0\0\0\0\0\0\0\0\0\0\0\0\0\0\0\0\0\x01\0\0\0\0\0",
        Test::Spelling,
    ),
    (
        0,
        b"\0\0\0\x01\0\0\0\x01\0\0\0\x01\0\0\0\0\0\0\0\x01\x03\0\0\0\0",
        Test::Spelling,
    ),
    // The reply from the caller; the request from the callee; the stop frame from a level without `main`.
    (0, REPLY, Test::Route),
    (1, REQUEST, Test::Route),
    (
        1,
        b"\0\0\0\0\0\0\0\0\0\0\0\0\0\0\0\0\0\0\0\x01\x03\0\0\0\0",
        Test::Route,
    ),
    // A request with kind 2; the request with turn 2; a request with four bytes.
    (
        0,
        b"\0\0\0\x01\0\0\0\x01\0\0\0\x01\0\0\0\0\0\0\0\x01\x02\0\0\0\0",
        Test::Route,
    ),
    (
        0,
        b"\0\0\0\x01\0\0\0\x01\0\0\0\x01\0\0\0\0\0\0\0\x02\0\0\0\0\0",
        Test::Turn,
    ),
    (
        0,
        b"\0\0\0\x01\0\0\0\x01\0\0\0\x01\0\0\0\0\0\0\0\x01\0\0\0\0\x04\0\0\0\0",
        Test::Length,
    ),
];

#[test]
fn the_first_failed_test_is_named(rt: HostRuntime) -> Result<(), Fail> {
    let mut hal = opened(rt.alloc(), 0)?;
    let mut frame = FrameBuf::open(rt.alloc())?;
    for row in &REFUSED {
        let (from, bytes, test) = *row;
        assert_eq!(rt;
            take(&rt, &mut hal, &mut frame, from, bytes),
            Err(BadUplink { test })
        );
        assert_eq!(rt; hal.frames(), 0);
        assert_eq!(rt; hal.room(), 8396850);
    }
    Ok(())
}

/// So many zeros. (Where the count is written out, the proof counts up to it.)
fn zeros(alloc: Global, count: usize) -> Result<Vec<u8>, AllocError>
    ensures { IfOk result (λ bytes. length bytes.items ≡ count) }
{
    vec![in alloc; 0u8; count]
}

/// What the router says of a request with this payload, at a turn.
fn sent(hal: &mut Hal, frame: &mut FrameBuf, payload: &[u8], turn: u64) -> Result<Passed, BadUplink>
    requires { length payload.now ≤ 4096 }
{
    frame.set_header(Header {
        mux: 1,
        sec: 1,
        typ: 1,
        turn,
        kind: 0,
        length: 4096,
    });
    frame.push_bytes(payload);
    hal.take(0, frame)
}

/// How many requests the router passes on, of those at the first turns.
fn passed(hal: &mut Hal, frame: &mut FrameBuf, payload: &[u8], turns: u64) -> u64
    requires { length payload.now ≤ 4096 }
{
    let mut count = 0u64;
    for turn in 0..turns {
        if sent(hal, frame, payload, turn + 1) == Ok(Passed::To(1)) {
            count = count.saturating_add(1);
        }
    }
    count
}

/// 2036 frames of 4121 bytes leave 6494 of the 8396850 bytes of the journal.
#[test]
fn a_full_journal_takes_no_frame(rt: HostRuntime) -> Result<(), Fail> {
    let mut hal = opened(rt.alloc(), 4096)?;
    let mut frame = FrameBuf::open(rt.alloc())?;
    let payload = zeros(rt.alloc(), PAYLOAD_BYTES)?;
    assert_eq!(rt; passed(&mut hal, &mut frame, &payload, 2036), 2036);
    let room = BadUplink { test: Test::Room };
    assert_eq!(rt; sent(&mut hal, &mut frame, &payload, 2037), Err(room));
    assert_eq!(rt; hal.frames(), 2036);
    assert_eq!(rt; hal.room(), 6494);
    Ok(())
}
