//! Images by hand, one instruction a row. What is wanted comes from the table of instructions, from C11's arithmetic
//! and from what C's `printf` prints. Each table stands in a constant, since one within a test makes its proof slow.

ghost use Rattle.std.specs.Prelude.{◌≡◌, IfOk};

use cl_base::name::NoMemory;
use cl_mean::outcome::Trap;
use cl_tree::kinds::IntKind::{I32, LLong, U8, U32};
use cl_tree::kinds::{BinOp, IntKind, TrapCause, UnOp};
use en_fused::reading::entries;
use en_image::image::{Entrance, Image, Payload};
use en_image::instr::Form;
use en_image::instr::Instr::{self, *};
use en_machine::engine::Engine;
use en_machine::stopped::Stopped;
use sqlite_items::Items;
use std::alloc::{AllocError, Global};
use std::process::Abort;
use std::test::Fail;

/// Function 0 is the first frame, with four locals and room for eight values. Function 1 begins at place 0 too, with
/// room for two. Function 2 is another level's. Function 3 begins at place 3, with a parameter, a local and room for
/// two values; function 4 at place 9, with room for one.
const FUNCTIONS: [Option<Entrance>; 5] = [
    Some(Entrance {
        at: 0,
        cells: 12,
        line: 1,
        params: 0,
        locals: 4,
    }),
    Some(Entrance {
        at: 0,
        cells: 2,
        line: 9,
        params: 0,
        locals: 0,
    }),
    None,
    Some(Entrance {
        at: 3,
        cells: 4,
        line: 9,
        params: 1,
        locals: 1,
    }),
    Some(Entrance {
        at: 9,
        cells: 1,
        line: 9,
        params: 0,
        locals: 0,
    }),
];

/// Row 0 asks with one `unsigned char` and one `int` of an array, in so many bytes, and answers two integers. Row 1
/// asks with nothing and answers nine.
fn payloads(alloc: Global, request_length: u32) -> Result<Items<Payload>, AllocError> {
    let mut payloads = Items::new(alloc);
    payloads.push(Payload {
        request: Items::from_slice(alloc, &[U8, I32])?,
        reply: Items::from_slice(alloc, &[I32, I32])?,
        request_length,
        reply_length: 8,
        arrays: Items::from_slice(alloc, &[1])?,
    })?;
    payloads.push(Payload {
        request: Items::new(alloc),
        reply: Items::from_slice(alloc, &[I32; 9])?,
        request_length: 0,
        reply_length: 36,
        arrays: Items::new(alloc),
    })?;
    Ok(payloads)
}

/// An image with this code. Its static cells are 70, 71 and 72.
fn image(alloc: Global, code: &[Instr], request_length: u32) -> Result<Image, AllocError> {
    Ok(Image {
        code: Items::from_slice(alloc, code)?,
        functions: Items::from_slice(alloc, &FUNCTIONS)?,
        statics: Items::from_slice(alloc, &[70, 71, 72])?,
        rows: Items::from_slice(alloc, &[Some(1)])?,
        main: Some(0),
        payloads: payloads(alloc, request_length)?,
    })
}

/// Code, how it stops (nothing where it is stuck), the values that it asks or ends with, and what it wrote.
type Row = (
    &'static [Instr],
    Option<Stopped>,
    &'static [i128],
    &'static [u8],
);

const ENDED: Option<Stopped> = Some(Stopped::Ended);

const ASKED: Option<Stopped> = Some(Stopped::Asks(0));

const SPENT: Option<Stopped> = Some(Stopped::Spent);

/// A row runs over the input `ab`, with 2 steps and at most 1,000 instructions, one by one.
fn stops_as_told(alloc: Global, row: &Row) -> Result<bool, NoMemory> {
    let (code, stopped, values, output) = row;
    let image = image(alloc, code, 5)?;
    let mut engine = Engine::open(alloc, &image, 2)?;
    engine.begin(&image, image.entrance(Some(0)), &[]);
    Ok(
        engine.run(&image, b"ab", 1000) == *stopped
            && engine.values() == *values
            && engine.output() == *output,
    )
}

/// The same, with whole sequences carried out at once.
fn stops_at_once(alloc: Global, row: &Row) -> Result<bool, NoMemory> {
    let (code, stopped, values, output) = row;
    let image = image(alloc, code, 5)?;
    let entries = entries(alloc, image.code.as_slice())?;
    let mut engine = Engine::open(alloc, &image, 2)?;
    engine.begin(&image, image.entrance(Some(0)), &[]);
    Ok(
        engine.run_fused(&image, b"ab", entries.as_slice(), 1000) == *stopped
            && engine.values() == *values
            && engine.output() == *output,
    )
}

fn first_wrong(alloc: Global, rows: &[Row]) -> Result<Option<usize>, NoMemory> {
    for (i, row) in rows.iter().enumerate() {
        if !stops_as_told(alloc, row)? || !stops_at_once(alloc, row)? {
            return Ok(Some(i));
        }
    }
    Ok(None)
}

// Traps, and instructions with more than one number.
const INDEX: Option<Stopped> = Some(Stopped::Trapped(Trap {
    cause: TrapCause::Index,
    line: 5,
}));

const OVERFLOW: Option<Stopped> = Some(Stopped::Trapped(Trap {
    cause: TrapCause::Overflow,
    line: 6,
}));

const DIVIDE: Option<Stopped> = Some(Stopped::Trapped(Trap {
    cause: TrapCause::Divide,
    line: 6,
}));

const SHIFT: Option<Stopped> = Some(Stopped::Trapped(Trap {
    cause: TrapCause::Shift,
    line: 6,
}));

const STEPS: Option<Stopped> = Some(Stopped::Trapped(Trap {
    cause: TrapCause::Steps,
    line: 5,
}));

const NO_RESULT: Option<Stopped> = Some(Stopped::Trapped(Trap {
    cause: TrapCause::Return,
    line: 8,
}));

const STEPS_OF_CALL: Option<Stopped> = Some(Stopped::Trapped(Trap {
    cause: TrapCause::Steps,
    line: 9,
}));

const DEPTH: Option<Stopped> = Some(Stopped::Trapped(Trap {
    cause: TrapCause::Depth,
    line: 9,
}));

const OUTPUT: Option<Stopped> = Some(Stopped::Trapped(Trap {
    cause: TrapCause::Output,
    line: 2,
}));

const FRAMES: Option<Stopped> = Some(Stopped::Trapped(Trap {
    cause: TrapCause::Frames,
    line: 4,
}));

const AT_3_1: Instr = At {
    count: 3,
    size: 1,
    line: 5,
};

const AT_2_2: Instr = At {
    count: 2,
    size: 2,
    line: 5,
};

const CLEAR_1_2: Instr = Clear { at: 1, count: 2 };

const SUB_INT: Instr = Two {
    op: BinOp::Sub,
    kind: I32,
    line: 6,
};

const LESS_INT: Instr = Two {
    op: BinOp::Less,
    kind: I32,
    line: 6,
};

const ADD_UNSIGNED: Instr = Two {
    op: BinOp::Add,
    kind: U32,
    line: 6,
};

const ADD_INT: Instr = Two {
    op: BinOp::Add,
    kind: I32,
    line: 6,
};

const ADD_LLONG: Instr = Two {
    op: BinOp::Add,
    kind: LLong,
    line: 6,
};

const DIV_INT: Instr = Two {
    op: BinOp::Div,
    kind: I32,
    line: 6,
};

const LEFT_INT: Instr = Two {
    op: BinOp::Left,
    kind: I32,
    line: 6,
};

const MINUS_INT: Instr = One {
    op: UnOp::Minus,
    kind: I32,
    line: 6,
};

const FLIP_INT: Instr = One {
    op: UnOp::Flip,
    kind: I32,
    line: 6,
};

const NOT_INT: Instr = One {
    op: UnOp::Not,
    kind: I32,
    line: 6,
};

const HALT: Instr = Halt {
    cause: TrapCause::Return,
    line: 8,
};

const CALL_3: Instr = Call {
    function: 3,
    line: 9,
};

const CALL_1: Instr = Call {
    function: 1,
    line: 9,
};

const ASK_0: Instr = Ask { row: 0, line: 4 };

const BYTE_104: Instr = Byte {
    value: 104,
    line: 2,
};

const BYTE_105: Instr = Byte {
    value: 105,
    line: 2,
};

const SHOW_D: Instr = Show {
    form: Form::D,
    line: 2,
};

const SHOW_U: Instr = Show {
    form: Form::U,
    line: 2,
};

const SHOW_X: Instr = Show {
    form: Form::X,
    line: 2,
};

const SHOW_C: Instr = Show {
    form: Form::C,
    line: 2,
};

const SHOW_LD: Instr = Show {
    form: Form::Ld,
    line: 2,
};

const SHOW_LU: Instr = Show {
    form: Form::Lu,
    line: 2,
};

const SHOW_LX: Instr = Show {
    form: Form::Lx,
    line: 2,
};

const SHOW_LLD: Instr = Show {
    form: Form::Lld,
    line: 2,
};

const SHOW_LLU: Instr = Show {
    form: Form::Llu,
    line: 2,
};

const SHOW_LLX: Instr = Show {
    form: Form::Llx,
    line: 2,
};

const AT_1_1: Instr = At {
    count: 1,
    size: 1,
    line: 5,
};

const ADD_BYTE: Instr = Two {
    op: BinOp::Add,
    kind: U8,
    line: 6,
};

const STAR_INT: Instr = One {
    op: UnOp::Star,
    kind: I32,
    line: 6,
};

const CLEAR_3_2: Instr = Clear { at: 3, count: 2 };

const CALL_2: Instr = Call {
    function: 2,
    line: 9,
};

const CALL_5: Instr = Call {
    function: 5,
    line: 9,
};

const ASK_2: Instr = Ask { row: 2, line: 4 };

const ASK_1: Instr = Ask { row: 1, line: 4 };

const CALL_4: Instr = Call {
    function: 4,
    line: 9,
};

const BYTE_33: Instr = Byte { value: 33, line: 2 };

/// Cells, addresses and indexes.
const CELLS: [Row; 15] = [
    (&[Push(7), Push(8), Return(2)], ENDED, &[7, 8], b""),
    (&[Push(7), Push(8), Drop(1), Return(1)], ENDED, &[7], b""),
    (&[Push(7), Copy, Return(2)], ENDED, &[7, 7], b""),
    (&[Push(7), Push(8), Return(1)], ENDED, &[8], b""),
    (&[Global(2), Fetch(1), Return(1)], ENDED, &[72], b""),
    // The first frame begins behind the three static cells.
    (&[Local(1), Return(1)], ENDED, &[4], b""),
    (
        &[Local(1), Push(5), Store(1), Local(1), Fetch(1), Return(1)],
        ENDED,
        &[5],
        b"",
    ),
    (
        &[
            Local(1),
            Push(5),
            Push(6),
            Store(2),
            Local(0),
            Fetch(4),
            Return(4),
        ],
        ENDED,
        &[0, 5, 6, 0],
        b"",
    ),
    (
        &[
            Local(0),
            Global(1),
            Store(1),
            Borrowed(0),
            Fetch(1),
            Return(1),
        ],
        ENDED,
        &[71],
        b"",
    ),
    (
        &[Global(0), Push(2), AT_3_1, Fetch(1), Return(1)],
        ENDED,
        &[72],
        b"",
    ),
    (
        &[Global(0), Push(1), AT_2_2, Fetch(1), Return(1)],
        ENDED,
        &[72],
        b"",
    ),
    (&[Global(0), Push(3), AT_3_1], INDEX, &[], b""),
    (&[Global(0), Push(-1), AT_3_1], INDEX, &[], b""),
    (
        &[Global(0), Offset(1), Fetch(2), Return(2)],
        ENDED,
        &[71, 72],
        b"",
    ),
    (
        &[
            Local(0),
            Push(5),
            Push(6),
            Push(7),
            Push(8),
            Store(4),
            CLEAR_1_2,
            Local(0),
            Fetch(4),
            Return(4),
        ],
        ENDED,
        &[5, 0, 0, 8],
        b"",
    ),
];

/// Numbers: each trap of an operator among them.
const NUMBERS: [Row; 13] = [
    (&[Push(300), Convert(U8), Return(1)], ENDED, &[44], b""),
    (&[Push(2), Push(3), SUB_INT, Return(1)], ENDED, &[-1], b""),
    (&[Push(2), Push(3), LESS_INT, Return(1)], ENDED, &[1], b""),
    (
        &[Push(4294967295), Push(1), ADD_UNSIGNED, Return(1)],
        ENDED,
        &[0],
        b"",
    ),
    (&[Push(2147483647), Push(1), ADD_INT], OVERFLOW, &[], b""),
    (
        &[Push(2147483647), Push(1), ADD_LLONG, Return(1)],
        ENDED,
        &[2147483648],
        b"",
    ),
    (&[Push(1), Push(0), DIV_INT], DIVIDE, &[], b""),
    (&[Push(1), Push(32), LEFT_INT], SHIFT, &[], b""),
    // The count of a shift needn't be a number of its kind.
    (&[Push(1), Push(4294967296), LEFT_INT], SHIFT, &[], b""),
    (&[Push(5), MINUS_INT, Return(1)], ENDED, &[-5], b""),
    (&[Push(5), FLIP_INT, Return(1)], ENDED, &[-6], b""),
    (&[Push(5), NOT_INT, Return(1)], ENDED, &[0], b""),
    (&[Push(-2147483648), MINUS_INT], OVERFLOW, &[], b""),
];

/// Places, steps, calls and a request.
const PLACES: [Row; 9] = [
    (&[Jump(2), Push(5), Push(6), Return(1)], ENDED, &[6], b""),
    (
        &[Push(1), Zero(3), Push(5), Push(6), Return(2)],
        ENDED,
        &[5, 6],
        b"",
    ),
    (
        &[Push(0), Zero(3), Push(5), Push(6), Return(1)],
        ENDED,
        &[6],
        b"",
    ),
    (&[Step(3), Step(4), Return(0)], ENDED, &[], b""),
    (&[Step(3), Step(4), Step(5)], STEPS, &[], b""),
    (&[HALT], NO_RESULT, &[], b""),
    // The parameter is 5, and the local behind it is zero.
    (
        &[Push(5), CALL_3, Return(2), Local(0), Fetch(2), Return(2)],
        ENDED,
        &[5, 0],
        b"",
    ),
    // A call is a step.
    (&[Step(3), Step(3), CALL_1], STEPS_OF_CALL, &[], b""),
    (&[Push(1), Push(2), ASK_0], ASKED, &[1, 2], b""),
];

/// What is written and read.
const BYTES: [Row; 13] = [
    (&[BYTE_104, BYTE_105, Return(0)], ENDED, &[], b"hi"),
    (&[Push(-7), SHOW_D, Return(0)], ENDED, &[], b"-7"),
    (&[Push(-1), SHOW_U, Return(0)], ENDED, &[], b"4294967295"),
    (&[Push(-255), SHOW_X, Return(0)], ENDED, &[], b"ffffff01"),
    (&[Push(0), SHOW_X, Return(0)], ENDED, &[], b"0"),
    (&[Push(321), SHOW_C, Return(0)], ENDED, &[], b"A"),
    (&[Push(-7), SHOW_LD, Return(0)], ENDED, &[], b"-7"),
    (
        &[Push(-1), SHOW_LU, Return(0)],
        ENDED,
        &[],
        b"18446744073709551615",
    ),
    (
        &[Push(-1), SHOW_LX, Return(0)],
        ENDED,
        &[],
        b"ffffffffffffffff",
    ),
    (
        &[Push(-9223372036854775808), SHOW_LLD, Return(0)],
        ENDED,
        &[],
        b"-9223372036854775808",
    ),
    (
        &[Push(-1), SHOW_LLU, Return(0)],
        ENDED,
        &[],
        b"18446744073709551615",
    ),
    (
        &[Push(3405691582), SHOW_LLX, Return(0)],
        ENDED,
        &[],
        b"cafebabe",
    ),
    (&[Get, Get, Get, Return(3)], ENDED, &[97, 98, -1], b""),
];

/// Where there is no step.
const STUCK: [Row; 37] = [
    // No instruction stands there.
    (&[Push(1)], None, &[], b""),
    (&[Jump(5)], None, &[], b""),
    // An operand lacks: the frame has its four locals alone.
    (&[Drop(5)], None, &[], b""),
    (&[Drop(4), Copy], None, &[], b""),
    (&[Drop(4), Offset(0)], None, &[], b""),
    (&[Drop(4), Fetch(0)], None, &[], b""),
    (&[Drop(3), Store(1)], None, &[], b""),
    (&[Drop(4), Convert(I32)], None, &[], b""),
    (&[Drop(3), ADD_INT], None, &[], b""),
    (&[Drop(4), NOT_INT], None, &[], b""),
    (&[Drop(3), AT_1_1], None, &[], b""),
    (&[Drop(4), Zero(0)], None, &[], b""),
    (&[Drop(4), SHOW_D], None, &[], b""),
    (&[Drop(4), CALL_3, Return(0), Return(0)], None, &[], b""),
    (&[Return(5)], None, &[], b""),
    (&[Drop(3), ASK_0], None, &[], b""),
    // One is out of its kind.
    (&[Push(256), Push(1), ADD_BYTE], None, &[], b""),
    (&[Push(1), Push(256), ADD_BYTE], None, &[], b""),
    (&[Push(2147483648), MINUS_INT], None, &[], b""),
    (&[Push(5), STAR_INT], None, &[], b""),
    (&[Push(256), Push(2), ASK_0], None, &[], b""),
    // Or out of its place: behind the static cells and the locals no cell stands.
    (&[Global(3)], None, &[], b""),
    (&[Local(4)], None, &[], b""),
    (&[Borrowed(4)], None, &[], b""),
    (&[Push(7), Fetch(1)], None, &[], b""),
    (&[Push(-1), Fetch(1)], None, &[], b""),
    (&[Push(7), Push(5), Store(1)], None, &[], b""),
    (&[Push(7), Push(0), AT_1_1], None, &[], b""),
    (&[Push(7), Offset(1)], None, &[], b""),
    (&[CLEAR_3_2], None, &[], b""),
    (&[CALL_2], None, &[], b""),
    (&[CALL_5], None, &[], b""),
    (&[ASK_2], None, &[], b""),
    // The frame has no room for a ninth value, nor for the nine of a reply.
    (
        &[Push(1), Copy, Copy, Copy, Copy, Copy, Copy, Copy, Copy],
        None,
        &[],
        b"",
    ),
    (
        &[Push(1), Local(0), Fetch(4), Local(0), Fetch(4)],
        None,
        &[],
        b"",
    ),
    (&[ASK_1], None, &[], b""),
    // Nor the caller's frame for what a function leaves.
    (
        &[
            Push(1),
            Copy,
            Copy,
            Copy,
            Copy,
            Copy,
            Copy,
            Copy,
            CALL_4,
            Push(2),
            Return(1),
        ],
        None,
        &[],
        b"",
    ),
];

const LESS: Instr = Two {
    op: BinOp::Less,
    kind: I32,
    line: 2,
};

const SUM: Instr = Two {
    op: BinOp::Add,
    kind: I32,
    line: 3,
};

const DIFFERENCE: Instr = Two {
    op: BinOp::Sub,
    kind: LLong,
    line: 4,
};

const UNSIGNED: Instr = Two {
    op: BinOp::Sub,
    kind: U32,
    line: 5,
};

// Assignments and tests as a compiler writes them: some go on at once, and some come to a number out of its kind.
const SEQUENCES: [Row; 11] = [
    (
        &[
            Local(0),
            Push(5),
            Push(7),
            SUM,
            Store(1),
            Local(0),
            Fetch(1),
            Return(1),
        ],
        ENDED,
        &[12],
        b"",
    ),
    (
        &[
            Local(1),
            Push(200),
            Push(100),
            SUM,
            Convert(U8),
            Store(1),
            Local(1),
            Fetch(1),
            Return(1),
        ],
        ENDED,
        &[44],
        b"",
    ),
    (
        &[
            Local(0),
            Push(1),
            Push(1),
            SUM,
            Store(1),
            Jump(7),
            Return(0),
            Local(0),
            Fetch(1),
            Return(1),
        ],
        ENDED,
        &[2],
        b"",
    ),
    (
        &[Local(0), Push(2_147_483_647), Push(1), SUM, Store(1)],
        Some(Stopped::Trapped(Trap {
            cause: TrapCause::Overflow,
            line: 3,
        })),
        &[],
        b"",
    ),
    (
        &[
            Step(1),
            Push(2),
            Push(1),
            LESS,
            Zero(7),
            Push(9),
            Return(1),
            Push(8),
            Return(1),
        ],
        ENDED,
        &[8],
        b"",
    ),
    (
        &[Step(1), Step(2), Step(3), Push(1), Push(2), LESS, Zero(0)],
        Some(Stopped::Trapped(Trap {
            cause: TrapCause::Steps,
            line: 3,
        })),
        &[],
        b"",
    ),
    (
        &[
            Local(0),
            Local(1),
            Fetch(1),
            Convert(LLong),
            Push(4),
            DIFFERENCE,
            Store(1),
            Local(0),
            Fetch(1),
            Return(1),
        ],
        ENDED,
        &[-4],
        b"",
    ),
    (
        &[
            Step(1),
            Local(0),
            Fetch(1),
            Push(1),
            LESS,
            Zero(13),
            Local(0),
            Local(0),
            Fetch(1),
            Push(1),
            SUM,
            Store(1),
            Jump(0),
            Local(0),
            Fetch(1),
            Return(1),
        ],
        ENDED,
        &[1],
        b"",
    ),
    (
        &[
            Local(1),
            Push(-1),
            Store(1),
            Local(0),
            Local(1),
            Fetch(1),
            Convert(U8),
            Push(1),
            SUM,
            Store(1),
            Local(0),
            Fetch(1),
            Return(1),
        ],
        ENDED,
        &[256],
        b"",
    ),
    (
        &[
            Local(0),
            Push(0),
            Push(1),
            UNSIGNED,
            Store(1),
            Local(0),
            Fetch(1),
            Return(1),
        ],
        ENDED,
        &[4_294_967_295],
        b"",
    ),
    (
        &[Local(0), Push(2_147_483_648), Push(1), SUM, Store(1)],
        None,
        &[],
        b"",
    ),
];

#[test]
fn code_stops_as_told(rt: HostRuntime) -> Result<(), Fail> {
    for (name, rows) in [
        ("cells", CELLS.as_slice()),
        ("numbers", NUMBERS.as_slice()),
        ("places", PLACES.as_slice()),
        ("bytes", BYTES.as_slice()),
        ("stuck", STUCK.as_slice()),
        ("sequences", SEQUENCES.as_slice()),
    ] {
        assert_eq!(rt; first_wrong(rt.alloc(), rows)?, None, "{name}");
    }
    Ok(())
}

/// What comes to a machine between two runs.
enum Between {
    Nothing,
    Reply(&'static [i128]),
    Blocked,
}

/// Two runs of the same code, with something between them. The first has so many instructions.
struct Case {
    code: &'static [Instr],
    request_length: u32,
    steps: u64,
    begun_with: &'static [i128],
    turns: u32,
    first: Option<Stopped>,
    between: Between,
    then: Option<Stopped>,
    values: &'static [i128],
    written: usize,
}

fn come_between(engine: &mut Engine, image: &Image, between: &Between)
    ensures sizes { engine.new.sizes ≡ engine.old.sizes }
{
    match between {
        Between::Nothing => (),
        Between::Reply(values) => engine.give(image, values),
        Between::Blocked => engine.block(image, 0),
    }
}

/// The second run has at most 1,000 instructions.
fn goes_on_as_told(alloc: Global, case: &Case) -> Result<bool, NoMemory> {
    let image = image(alloc, case.code, case.request_length)?;
    let mut engine = Engine::open(alloc, &image, case.steps)?;
    engine.begin(&image, image.entrance(Some(0)), case.begun_with);
    let first = engine.run(&image, b"", case.turns);
    come_between(&mut engine, &image, &case.between);
    Ok(
        first == case.first
            && engine.run(&image, b"", 1000) == case.then
            && engine.values() == case.values
            && engine.output().len() == case.written,
    )
}

/// It calls itself without an end.
const CALLING: &[Instr] = &[CALL_1];

/// It writes one byte, and then eight digits without an end.
const WRITING: &[Instr] = &[BYTE_33, Push(-1), SHOW_X, Jump(1)];

/// It asks, and leaves the reply.
const ASKING: &[Instr] = &[Push(1), Push(2), ASK_0, Return(2)];

/// It asks without an end.
const ASKING_ON: &[Instr] = &[Push(1), Push(2), ASK_0, Drop(2), Jump(0)];

const LEAVING: &[Instr] = &[Return(5)];

const CASES: [Case; 9] = [
    // 256 calls are active, and no step is left: the depth is looked at first.
    Case {
        code: CALLING,
        request_length: 5,
        steps: 256,
        begun_with: &[],
        turns: 256,
        first: SPENT,
        between: Between::Nothing,
        then: DEPTH,
        values: &[],
        written: 0,
    },
    // 255 are, and no step is left.
    Case {
        code: CALLING,
        request_length: 5,
        steps: 255,
        begun_with: &[],
        turns: 255,
        first: SPENT,
        between: Between::Nothing,
        then: STEPS_OF_CALL,
        values: &[],
        written: 0,
    },
    // 999,993 bytes stand, and seven of the next eight still go out.
    Case {
        code: WRITING,
        request_length: 5,
        steps: 0,
        begun_with: &[],
        turns: 374998,
        first: SPENT,
        between: Between::Nothing,
        then: OUTPUT,
        values: &[],
        written: 1000000,
    },
    // The values of a reply.
    Case {
        code: ASKING,
        request_length: 5,
        steps: 0,
        begun_with: &[],
        turns: 1000,
        first: ASKED,
        between: Between::Reply(&[30, 40]),
        then: ENDED,
        values: &[30, 40],
        written: 0,
    },
    // A blocked call: zero for the result, and the request's own value of the array.
    Case {
        code: ASKING,
        request_length: 5,
        steps: 0,
        begun_with: &[],
        turns: 1000,
        first: ASKED,
        between: Between::Blocked,
        then: ENDED,
        values: &[0, 2],
        written: 0,
    },
    // A reply of nine values has no room.
    Case {
        code: ASKING,
        request_length: 5,
        steps: 0,
        begun_with: &[],
        turns: 1000,
        first: ASKED,
        between: Between::Reply(&[1, 2, 3, 4, 5, 6, 7, 8, 9]),
        then: None,
        values: &[1, 2],
        written: 0,
    },
    // The first request costs the whole budget: 50, and the bytes of both payloads.
    Case {
        code: ASKING_ON,
        request_length: 8388550,
        steps: 0,
        begun_with: &[],
        turns: 1000,
        first: ASKED,
        between: Between::Reply(&[30, 40]),
        then: FRAMES,
        values: &[1, 2],
        written: 0,
    },
    // The first frame has room for eight values, with its four locals behind them.
    Case {
        code: LEAVING,
        request_length: 5,
        steps: 0,
        begun_with: &[1, 2, 3, 4, 5, 6, 7, 8],
        turns: 0,
        first: SPENT,
        between: Between::Nothing,
        then: ENDED,
        values: &[8, 0, 0, 0, 0],
        written: 0,
    },
    // And none for nine.
    Case {
        code: LEAVING,
        request_length: 5,
        steps: 0,
        begun_with: &[1, 2, 3, 4, 5, 6, 7, 8, 9],
        turns: 0,
        first: SPENT,
        between: Between::Nothing,
        then: None,
        values: &[],
        written: 0,
    },
];

fn first_wrong_case(alloc: Global) -> Result<Option<usize>, NoMemory> {
    for (i, case) in CASES.iter().enumerate() {
        if !goes_on_as_told(alloc, case)? {
            return Ok(Some(i));
        }
    }
    Ok(None)
}

#[test]
fn machines_go_on_as_told(rt: HostRuntime) -> Result<(), Fail> {
    assert_eq!(rt; first_wrong_case(rt.alloc())?, None);
    Ok(())
}
