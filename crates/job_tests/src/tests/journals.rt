//! Journals, and runs of two levels.

use super::{Case, PAIR, PLAIN, check, run};
use cl_job::status::Status;
use std::alloc::Global;
use std::test::Fail;

/// `f` adds one to `a`, and `main` writes its two answers.
const TWELVE: &str = "int f(void) { a = a + 1; return a; }
int main(void) { putchar(48 + f()); putchar(48 + f()); return 0; }
";

/// Two requests without payload, two replies of four bytes; each frame has the next turn.
const TWO_CALLS: &[u8] = b"\0\0\0\x01\0\0\0\x01\0\0\0\x01\0\0\0\0\0\0\0\x01\0\0\0\0\0\
\0\0\0\x01\0\0\0\x01\0\0\0\x02\0\0\0\0\0\0\0\x02\0\0\0\0\x04\0\0\0\x01\
\0\0\0\x01\0\0\0\x01\0\0\0\x01\0\0\0\0\0\0\0\x03\0\0\0\0\0\
\0\0\0\x01\0\0\0\x01\0\0\0\x02\0\0\0\0\0\0\0\x04\0\0\0\0\x04\0\0\0\x02";

/// The second reply is broken: kind 2 and no payload.
const BROKEN: &[u8] = b"\0\0\0\x01\0\0\0\x01\0\0\0\x01\0\0\0\0\0\0\0\x01\0\0\0\0\0\
\0\0\0\x01\0\0\0\x01\0\0\0\x02\0\0\0\0\0\0\0\x02\0\0\0\0\x04\x7f\xff\xff\xff\
\0\0\0\x01\0\0\0\x01\0\0\0\x01\0\0\0\0\0\0\0\x03\0\0\0\0\0\
\0\0\0\x01\0\0\0\x01\0\0\0\x02\0\0\0\0\0\0\0\x04\x02\0\0\0\0";

/// Commands with and without a journal.
const KEPT: [Case<'static>; 6] = [
    Case {
        line: "run --journal j a.c",
        head: PAIR,
        body: TWELVE,
        out: b"level purple 2 bytes\n12\nlevel orange 0 bytes\n\nframes 4\nend exit 0\n",
        journal: Some(TWO_CALLS),
        ..PLAIN
    },
    // No journal is asked for.
    Case {
        head: PAIR,
        body: TWELVE,
        out: b"level purple 2 bytes\n12\nlevel orange 0 bytes\n\nframes 4\nend exit 0\n",
        ..PLAIN
    },
    Case {
        line: "run --journal=j a.c",
        head: PAIR,
        body: "int f(void) { a = a + 2147483647; return a; }
int main(void) { putchar(65); return f() - f(); }
",
        out: b"level purple 1 bytes\nA\nlevel orange 0 bytes\n\nframes 4\nend trap orange overflow line 8\n",
        status: Status::Trapped,
        journal: Some(BROKEN),
        ..PLAIN
    },
    Case {
        line: "run --journal j a.c",
        head: PAIR,
        body: "int f(void) { return 1; } int main(void) { return 7; }",
        out: b"level purple 0 bytes\n\nlevel orange 0 bytes\n\nframes 0\nend exit 7\n",
        journal: Some(b""),
        ..PLAIN
    },
    Case {
        line: "run --journal j a.c",
        out: b"level purple 1 bytes\nH\nframes 0\nend exit 0\n",
        journal: Some(b""),
        ..PLAIN
    },
    // The journal is whole before the report begins.
    Case {
        line: "run --journal j a.c",
        head: PAIR,
        body: TWELVE,
        out_fails: (1, 5),
        out: b"level",
        err: "closure: cannot write standard output\n",
        status: Status::WriteFault,
        journal: Some(TWO_CALLS),
        ..PLAIN
    },
];

#[test]
fn journals_are_kept(rt: HostRuntime) -> Result<(), Fail> {
    for case in &KEPT {
        check(&rt, rt.alloc(), case)?;
    }
    Ok(())
}

/// `putchar(65+f()+f() ..);` with 100 calls.
fn statement(alloc: Global) -> Result<String, Fail> {
    let mut statement = String::from_str(alloc, "putchar(65")?;
    for _ in 0..100u32 {
        statement.push_str("+f()")?;
    }
    statement.push_str(");\n")?;
    Ok(statement)
}

/// 1554 such statements.
fn statements(alloc: Global) -> Result<String, Fail> {
    let statement = statement(alloc)?;
    let mut source = String::from_str(alloc, PAIR)?;
    source.push_str("int f(void) { return 0; }\nint main(void) {\n")?;
    for _ in 0..1554u32 {
        source.push_str(statement.as_str())?;
    }
    source.push('}')?;
    Ok(source)
}

/// A call costs 54, so that 155,344 calls cost 8,388,576 and one more would pass 8,388,608. Each statement calls 100
/// times and writes an `A`.
#[test]
fn the_frame_budget_ends(rt: HostRuntime) -> Result<(), Fail> {
    let source = statements(rt.alloc())?;
    let ran = run(rt.alloc(), "run a.c", source.as_str())?;
    assert_eq!(rt; ran.status, Status::Trapped);
    let first = b"level purple 1553 bytes\nA".as_slice();
    let last =
        b"A\nlevel orange 0 bytes\n\nframes 310688\nend trap purple frames line 1563\n".as_slice();
    assert!(rt; ran.out.bytes().starts_with(first));
    assert!(rt; ran.out.bytes().ends_with(last));
    assert_eq!(rt; ran.out.bytes().len(), 24 + 1553 + last.len() - 1);
    Ok(())
}
