//! Commands in tables. The sources' outputs come from C11, and the journals are written out from the form of frames.

mod checks;
mod faults;
mod journals;
mod others;
mod sources;
mod words;

use cl_base::memory::{MemFiles, MemSink};
use cl_base::outside::Files;
use cl_job::commands::closure;
use cl_job::job::Job;
use cl_job::status::Status;
use std::alloc::Global;
use std::process::Abort;
use std::test::Fail;

/// The first line of a source of one level.
const LEVEL: &str = "#pragma cle def P {\"level\":\"purple\"}\n";

/// The first seven lines of a source of two levels.
const PAIR: &str = "#pragma cle def PURPLE {\"level\":\"purple\"}
#pragma cle def ORANGE {\"level\":\"orange\"}
#pragma cle def RESP {\"level\":\"purple\"}
#pragma cle def GETA {\"level\":\"orange\",\"cdf\":[{\"remotelevel\":\"purple\",\"direction\":\"bidirectional\",\"guarddirective\":{\"operation\":\"allow\"},\"argtaints\":[],\"codtaints\":[\"ORANGE\"],\"rettaints\":[\"RESP\"]}]}
#pragma cle ORANGE
int a;
#pragma cle GETA
";

/// Call `.0` fails; a put keeps the first `.1` bytes of its piece. Calls count from 1, so that 0 lets all succeed.
type Failing = (u64, usize);

/// A command over the files `a.c`, what fails in it, and what it is to give.
#[derive(Clone, Copy)]
struct Case<'a> {
    line: &'a str,
    head: &'a str,
    body: &'a str,
    files_fail: u64,
    out_room: usize,
    out_fails: Failing,
    err_fails: Failing,
    out: &'a [u8],
    err: &'a str,
    status: Status,
    /// What the file `j` holds afterwards, where it is there.
    journal: Option<&'a [u8]>,
}

/// A run of one level where nothing fails.
const PLAIN: Case<'static> = Case {
    line: "run a.c",
    head: LEVEL,
    body: "int main(void) { putchar(72); }",
    files_fail: 0,
    out_room: 1000,
    out_fails: (0, 0),
    err_fails: (0, 0),
    out: b"",
    err: "",
    status: Status::Done,
    journal: None,
};

/// A sink of which one put fails.
fn sink(alloc: Global, room: usize, fails: Failing) -> Result<MemSink, Fail> {
    let mut sink = MemSink::new(alloc, room)?;
    if fails.0 > 0 {
        sink.fail_at(fails.0, fails.1)?;
    }
    Ok(sink)
}

/// The files: the source, and the call that fails.
fn files(alloc: Global, case: &Case<'_>) -> Result<MemFiles, Fail> {
    let mut source = String::from_str(alloc, case.head)?;
    source.push_str(case.body)?;
    let mut files = MemFiles::new(alloc)?;
    files.add("a.c", source.as_str().as_bytes())?;
    if case.files_fail > 0 {
        files.fail_at(case.files_fail)?;
    }
    Ok(files)
}

/// The words of a line, between which single spaces stand. An empty line has none.
fn split(alloc: Global, line: &str) -> Result<Vec<String>, Fail> {
    let mut words = Vec::new(alloc);
    if line.is_empty() {
        return Ok(words);
    }
    for word in line.split(' ') {
        words.push(String::from_str(alloc, word)?)?;
    }
    Ok(words)
}

/// The sinks and the files of a command, and the allocator.
fn job(alloc: Global, case: &Case<'_>) -> Result<Job<MemFiles, MemSink, MemSink>, Fail> {
    let files = files(alloc, case)?;
    let out = sink(alloc, case.out_room, case.out_fails)?;
    let err = sink(alloc, 1000, case.err_fails)?;
    Ok(Job {
        alloc,
        files,
        out,
        err,
    })
}

/// Whether the file `j` holds these bytes, or isn't there.
fn is_kept(alloc: Global, files: &mut MemFiles, journal: Option<&[u8]>) -> bool {
    match files.read(alloc, "j", 1000) {
        Ok(bytes) => Some(bytes.as_slice()) == journal,
        Err(_) => journal.is_none(),
    }
}

/// What is not as it is to be once a command ended.
fn difference(
    job: &mut Job<MemFiles, MemSink, MemSink>,
    status: Status,
    case: &Case<'_>,
) -> Option<&'static str> {
    if job.err.bytes() != case.err.as_bytes() {
        Some("standard error")
    } else if status != case.status {
        Some("status")
    } else if job.out.bytes() != case.out {
        Some("standard output")
    } else if !is_kept(job.alloc, &mut job.files, case.journal) {
        Some("journal")
    } else {
        None
    }
}

/// Carries a command out, and says what comes of it in another way than it is to.
fn carry_out(alloc: Global, case: &Case<'_>) -> Result<Option<&'static str>, Fail> {
    let words = split(alloc, case.line)?;
    let mut job = job(alloc, case)?;
    let status = closure(&mut job, words.as_slice());
    Ok(difference(&mut job, status, case))
}

/// Carries a command out, and compares what comes of it. (A test with few steps has a short proof.)
fn check(rt: &impl Abort, alloc: Global, case: &Case<'_>) -> Result<(), Fail> {
    let difference = carry_out(alloc, case)?;
    let line = case.line;
    let body = if case.body.len() < 200 {
        case.body
    } else {
        "a long source"
    };
    assert_eq!(rt; difference, None, "{line}: {body}");
    Ok(())
}

/// How a command ended, and what it wrote.
#[derive(Drop)]
struct Ran {
    status: Status,
    out: MemSink,
    err: MemSink,
}

/// Carries out a command over a source where nothing fails.
fn run(alloc: Global, line: &str, source: &str) -> Result<Ran, Fail> {
    let words = split(alloc, line)?;
    let mut files = MemFiles::new(alloc)?;
    files.add("a.c", source.as_bytes())?;
    let out = MemSink::new(alloc, 10_000)?;
    let err = MemSink::new(alloc, 1000)?;
    let mut job = Job {
        alloc,
        files,
        out,
        err,
    };
    let status = closure(&mut job, words.as_slice());
    let Job { out, err, .. } = job;
    Ok(Ran { status, out, err })
}
