//! Sources, and what their runs write.

use super::{Case, PLAIN, check, run};
use cl_job::status::Status;
use std::alloc::Global;
use std::test::Fail;

/// A source behind its first line, what its run writes, and its status.
const SOURCES: [(&str, &[u8], Status); 16] = [
    (
        "int main(void) { putchar(72); return 0; }",
        b"level purple 1 bytes\nH\nframes 0\nend exit 0\n",
        Status::Done,
    ),
    (
        "int main(void) { putchar(328); return 0; }",
        b"level purple 1 bytes\nH\nframes 0\nend exit 0\n",
        Status::Done,
    ),
    (
        "int main(void) { putchar(0 - 1); }",
        b"level purple 1 bytes\n\xff\nframes 0\nend exit 0\n",
        Status::Done,
    ),
    (
        "int main(void) { return 1; putchar(65); }",
        b"level purple 0 bytes\n\nframes 0\nend exit 1\n",
        Status::Done,
    ),
    (
        "int main(void) { }",
        b"level purple 0 bytes\n\nframes 0\nend exit 0\n",
        Status::Done,
    ),
    (
        "int main(void) { putchar(70 + 2); putchar(105); return 3 - 1; }",
        b"level purple 2 bytes\nHi\nframes 0\nend exit 2\n",
        Status::Done,
    ),
    (
        "int main(void) { putchar(65); return 2147483647 + 1; }",
        b"level purple 1 bytes\nA\nframes 0\nend trap purple overflow line 2\n",
        Status::Trapped,
    ),
    (
        "int main(void) { return 2 - 3 - 4; }",
        b"level purple 0 bytes\n\nframes 0\nend exit -5\n",
        Status::Done,
    ),
    (
        "int main(void) { return 2 - (3 - 4); }",
        b"level purple 0 bytes\n\nframes 0\nend exit 3\n",
        Status::Done,
    ),
    (
        "int main(void) { return 2 + 3 * 4; }",
        b"level purple 0 bytes\n\nframes 0\nend exit 14\n",
        Status::Done,
    ),
    (
        "int main(void) { return 0 - 2147483647 - 1; }",
        b"level purple 0 bytes\n\nframes 0\nend exit -2147483648\n",
        Status::Done,
    ),
    (
        "int main(void) { return 0 - 2147483647 - 2; }",
        b"level purple 0 bytes\n\nframes 0\nend trap purple overflow line 2\n",
        Status::Trapped,
    ),
    (
        "int main(void) { return 65536 * 32768; }",
        b"level purple 0 bytes\n\nframes 0\nend trap purple overflow line 2\n",
        Status::Trapped,
    ),
    (
        "int main(void) { return 46341 * 46341; }",
        b"level purple 0 bytes\n\nframes 0\nend trap purple overflow line 2\n",
        Status::Trapped,
    ),
    (
        "int main(void) { return 46340 * 46340; }",
        b"level purple 0 bytes\n\nframes 0\nend exit 2147395600\n",
        Status::Done,
    ),
    (
        "int main(void) {\nreturn 2147483647\n+\n1; }",
        b"level purple 0 bytes\n\nframes 0\nend trap purple overflow line 4\n",
        Status::Trapped,
    ),
];

#[test]
fn sources_run(rt: HostRuntime) -> Result<(), Fail> {
    for row in &SOURCES {
        let (body, out, status) = *row;
        let case = Case {
            body,
            out,
            status,
            ..PLAIN
        };
        check(&rt, rt.alloc(), &case)?;
    }
    Ok(())
}

/// Sources of no form.
const REFUSED: [&str; 4] = [
    "int main(void) { return x; }",
    "int main(void) {\r\n}",
    "int main(void) { return 007; }",
    "",
];

#[test]
fn other_sources_are_refused(rt: HostRuntime) -> Result<(), Fail> {
    for body in REFUSED {
        let case = Case {
            body,
            err: "closure: E06 at 1: no reading\n",
            status: Status::Refused,
            ..PLAIN
        };
        check(&rt, rt.alloc(), &case)?;
    }
    Ok(())
}

/// The source of `PLAIN`, which newlines fill.
fn longest(alloc: Global) -> Result<String, Fail> {
    let mut source = String::from_str(alloc, PLAIN.head)?;
    source.push_str(PLAIN.body)?;
    for _ in source.len()..1_048_576 {
        source.push('\n')?;
    }
    Ok(source)
}

/// Whether a command over a source gives these at standard output and standard error, and how it ends.
fn gives(
    alloc: Global,
    line: &str,
    source: &str,
    status: Status,
    out: &[u8],
    err: &[u8],
) -> Result<bool, Fail> {
    let ran = run(alloc, line, source)?;
    Ok(ran.status == status && ran.out.bytes() == out && ran.err.bytes() == err)
}

/// 1,048,576 bytes are a source, and one more is too many.
#[test]
fn a_source_has_a_limit(rt: HostRuntime) -> Result<(), Fail> {
    let mut source = longest(rt.alloc())?;
    let out = b"level purple 1 bytes\nH\nframes 0\nend exit 0\n";
    assert!(rt;
        gives(
            rt.alloc(),
            "run a.c",
            source.as_str(),
            Status::Done,
            out,
            b""
        )?
    );
    source.push('\n')?;
    let err = b"closure: E01 at 1: source too long\n";
    assert!(rt;
        gives(
            rt.alloc(),
            "run a.c",
            source.as_str(),
            Status::Refused,
            b"",
            err
        )?
    );
    assert!(rt;
        gives(
            rt.alloc(),
            "check a.c",
            source.as_str(),
            Status::Refused,
            b"",
            err
        )?
    );
    Ok(())
}
