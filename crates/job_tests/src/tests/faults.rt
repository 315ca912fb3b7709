//! Reads, writes and puts that fail: what is told, and what stands.

use super::{Case, PAIR, PLAIN, check};
use cl_job::status::Status;
use std::test::Fail;

const CANNOT_WRITE: &str = "closure: cannot write standard output\n";

/// Commands of which a call fails.
const FAULTS: [Case<'static>; 8] = [
    Case {
        line: "check nofile",
        err: "closure: cannot read nofile\n",
        status: Status::ReadFault,
        ..PLAIN
    },
    Case {
        line: "check a.c",
        files_fail: 1,
        err: "closure: cannot read a.c\n",
        status: Status::ReadFault,
        ..PLAIN
    },
    Case {
        line: "run nofile",
        err: "closure: cannot read nofile\n",
        status: Status::ReadFault,
        ..PLAIN
    },
    Case {
        line: "run --journal k nofile",
        err: "closure: cannot read nofile\n",
        status: Status::ReadFault,
        ..PLAIN
    },
    // The first call reads the source, the second writes the journal.
    Case {
        line: "run --journal k a.c",
        files_fail: 1,
        err: "closure: cannot read a.c\n",
        status: Status::ReadFault,
        ..PLAIN
    },
    Case {
        line: "run --journal k a.c",
        files_fail: 2,
        err: "closure: cannot write k\n",
        status: Status::WriteFault,
        ..PLAIN
    },
    // That standard error fails leaves the status.
    Case {
        files_fail: 1,
        err_fails: (1, 7),
        err: "closure",
        status: Status::ReadFault,
        ..PLAIN
    },
    // A sink that is full fails.
    Case {
        out_room: 5,
        out: b"level",
        err: CANNOT_WRITE,
        status: Status::WriteFault,
        ..PLAIN
    },
];

#[test]
fn each_fault_names_its_own_path(rt: HostRuntime) -> Result<(), Fail> {
    for case in &FAULTS {
        check(&rt, rt.alloc(), case)?;
    }
    Ok(())
}

/// What stands where the put of each piece of a report fails.
const PIECES: [&[u8]; 5] = [
    b"",
    b"level purple 2 bytes\n",
    b"level purple 2 bytes\nHi\n",
    b"level purple 2 bytes\nHi\nlevel orange 0 bytes\n",
    b"level purple 2 bytes\nHi\nlevel orange 0 bytes\n\n",
];

/// The report goes out in five pieces, and the put of each can fail.
#[test]
fn a_report_has_these_pieces(rt: HostRuntime) -> Result<(), Fail> {
    for (index, out) in PIECES.iter().enumerate() {
        let case = Case {
            head: PAIR,
            body: "int f(void) { return 0; } int main(void) { putchar(72); putchar(105); }",
            out_fails: (index as u64 + 1, 0),
            out,
            err: CANNOT_WRITE,
            status: Status::WriteFault,
            ..PLAIN
        };
        check(&rt, rt.alloc(), &case)?;
    }
    Ok(())
}
