//! Callers through the bounds, and the objects in memory and on the system that they are run with.

ghost use Rattle.std.specs.Prelude.{◌≡◌, ◌⊎◌, ◌++◌, Some, None, IsErr, OnOk, IfSome};
ghost use Rattle.cl_base.specs.Outside.{Rose, file_of};

use cl_base::host::{HostFiles, HostSink};
use cl_base::memory::{MemFiles, MemSink};
use cl_base::outside::{Failed, FileStop, Files, Sink, WriteStop};
use std::alloc::Global;
use std::fs;
use std::test::Fail;

#[derive(Clone, Copy, Debug, PartialEq, Eq)]
enum Outcome {
    Done,
    ReadFault,
    TooLong,
    WriteFault,
    NoMemory,
}

/// Puts the bytes of a file of at most 4 bytes twice.
fn put_twice<F: Files, O: Sink>(alloc: Global, files: &mut F, out: &mut O, path: &str) -> Outcome
    ensures read { result ≡ Outcome.ReadFault → Rose (F.read_count files.old) (F.read_count files.new) }
    ensures write { result ≡ Outcome.WriteFault → Rose (O.fault_count out.old) (O.fault_count out.new) }
    ensures told { result ≡ Outcome.Done → IfSome (F.held files.old) (λ held. IfSome (O.written out.old) (λ before.
        IfSome (file_of held path.now) (λ bytes. O.written out.new ≡ Some (before ++ bytes ++ bytes)))) }
    ensures missing { IfSome (F.held files.old) (λ held. file_of held path.now ≡ None
        → (result ≡ Outcome.ReadFault) ⊎ (result ≡ Outcome.NoMemory)) }
{
    let bytes = match files.read(alloc, path, 4) {
        Ok(bytes) => bytes,
        Err(FileStop::Failed) => return Outcome::ReadFault,
        Err(FileStop::TooLong) => return Outcome::TooLong,
        Err(FileStop::NoMemory) => return Outcome::NoMemory,
    };
    match put_both(out, &bytes, &bytes) {
        Ok(()) => Outcome::Done,
        Err(Failed) => Outcome::WriteFault,
    }
}

fn put_both<O: Sink>(out: &mut O, one: &[u8], two: &[u8]) -> Result<(), Failed>
    ensures write { IsErr result → Rose (O.fault_count out.old) (O.fault_count out.new) }
    ensures told { OnOk result (IfSome (O.written out.old) (λ before. O.written out.new ≡ Some (before ++ one.now ++ two.now))) }
{
    out.put(one)?;
    out.put(two)
}

/// Writes a file and reads it again.
fn write_and_read<F: Files>(alloc: Global, files: &mut F, path: &str, bytes: &[u8]) -> Outcome
    ensures read { result ≡ Outcome.ReadFault → Rose (F.read_count files.old) (F.read_count files.new) }
    ensures write { result ≡ Outcome.WriteFault → Rose (F.write_count files.old) (F.write_count files.new) }
    ensures told { result ≡ Outcome.Done → IfSome (F.held files.old) (λ _. IfSome (F.held files.new) (λ now. file_of now path.now ≡ Some bytes.now)) }
{
    match files.write(path, bytes) {
        Ok(()) => {}
        Err(WriteStop::Failed) => return Outcome::WriteFault,
        Err(WriteStop::NoMemory) => return Outcome::NoMemory,
    }
    match files.read(alloc, path, 4) {
        Ok(_) => Outcome::Done,
        Err(FileStop::Failed) => Outcome::ReadFault,
        Err(FileStop::TooLong) => Outcome::TooLong,
        Err(FileStop::NoMemory) => Outcome::NoMemory,
    }
}

/// Two files, of which the first was added twice. The third and the fifth call fail.
fn two_files(alloc: Global) -> Result<MemFiles, Fail> {
    let mut files = MemFiles::new(alloc)?;
    files.add("a", b"one")?;
    files.add("b", b"three")?;
    files.add("a", b"two")?;
    files.fail_at(3)?;
    files.fail_at(5)?;
    Ok(files)
}

/// A path, a limit, what the read gives, and the read faults behind it.
type ReadRow<'a> = (&'a str, usize, Result<&'a [u8], FileStop>, u64);

const READS: [ReadRow<'static>; 6] = [
    ("a", 3, Ok(b"two"), 0),
    ("a", 2, Err(FileStop::TooLong), 0),
    ("a", 3, Err(FileStop::Failed), 1),
    ("none", 3, Err(FileStop::Failed), 2),
    ("b", 5, Err(FileStop::Failed), 3),
    ("b", 5, Ok(b"three"), 3),
];

// Functions with few calls: what is known at each step of a test with many makes its proof long.
fn is_read<F: Files>(alloc: Global, files: &mut F, row: &ReadRow<'_>) -> bool {
    let (path, limit, want, _) = *row;
    match files.read(alloc, path, limit) {
        Ok(bytes) => Ok(bytes.as_slice()) == want,
        Err(stop) => Err(stop) == want,
    }
}

#[test]
fn named_calls_and_missing_files_fail(rt: HostRuntime) -> Result<(), Fail> {
    let mut files = two_files(rt.alloc())?;
    for row in &READS {
        assert!(rt; is_read(rt.alloc(), &mut files, row), "at {row:?}");
        assert_eq!(rt; files.read_faults(), row.3, "at {row:?}");
    }
    assert_eq!(rt; files.write_faults(), 0);
    Ok(())
}

/// A path, the bytes that are written, what the write gives, and what `a` and `b` hold behind it.
type WriteRow<'a> = (&'a str, &'a [u8], Result<(), WriteStop>, &'a [u8], &'a [u8]);

/// Two reads follow each write, so that the second write is the fourth call.
const WRITES: [WriteRow<'static>; 3] = [
    ("b", b"new", Ok(()), b"one", b"new"),
    ("a", b"lost", Err(WriteStop::Failed), b"one", b"new"),
    ("a", b"now", Ok(()), b"now", b"new"),
];

/// One file. The fourth call fails.
fn one_file(alloc: Global) -> Result<MemFiles, Fail> {
    let mut files = MemFiles::new(alloc)?;
    files.add("a", b"one")?;
    files.fail_at(4)?;
    Ok(files)
}

fn holds<F: Files>(alloc: Global, files: &mut F, path: &str, bytes: &[u8]) -> bool {
    is_read(alloc, files, &(path, bytes.len(), Ok(bytes), 0))
}

fn is_written<F: Files>(alloc: Global, files: &mut F, row: &WriteRow<'_>) -> bool {
    let (path, bytes, want, a, b) = *row;
    files.write(path, bytes) == want && holds(alloc, files, "a", a) && holds(alloc, files, "b", b)
}

#[test]
fn writes_change_one_file(rt: HostRuntime) -> Result<(), Fail> {
    let mut files = one_file(rt.alloc())?;
    for row in &WRITES {
        assert!(rt; is_written(rt.alloc(), &mut files, row), "at {row:?}");
    }
    assert_eq!(rt; files.write_faults(), 1);
    assert_eq!(rt; files.read_faults(), 0);
    Ok(())
}

/// A sink of which the second, the third and the sixth put fail.
fn failing_sink(alloc: Global) -> Result<MemSink, Fail> {
    let mut sink = MemSink::new(alloc, 10)?;
    sink.fail_at(2, 1)?;
    sink.fail_at(2, 3)?;
    sink.fail_at(3, 9)?;
    sink.fail_at(6, 5)?;
    Ok(sink)
}

/// A piece, what its put gives, and the bytes and the faults behind it.
const PUTS: [(&[u8], Result<(), Failed>, &[u8], u64); 7] = [
    (b"abc", Ok(()), b"abc", 0),
    (b"def", Err(Failed), b"abcd", 1),
    (b"gh", Err(Failed), b"abcdgh", 2),
    (b"ijk", Ok(()), b"abcdghijk", 2),
    (b"lmn", Err(Failed), b"abcdghijkl", 3),
    (b"op", Err(Failed), b"abcdghijkl", 4),
    (b"", Ok(()), b"abcdghijkl", 4),
];

#[test]
fn named_puts_and_puts_past_the_room_fail(rt: HostRuntime) -> Result<(), Fail> {
    let mut sink = failing_sink(rt.alloc())?;
    for row in &PUTS {
        let (piece, want, bytes, faults) = *row;
        assert_eq!(rt; sink.put(piece), want);
        assert_eq!(rt; sink.bytes(), bytes);
        assert_eq!(rt; sink.faults(), faults);
    }
    Ok(())
}

/// A short file and a long one. The seventh call fails.
fn short_and_long(alloc: Global) -> Result<MemFiles, Fail> {
    let mut files = MemFiles::new(alloc)?;
    files.add("short", b"abc")?;
    files.add("long", b"abcde")?;
    files.fail_at(7)?;
    Ok(files)
}

/// A file, and what comes of putting it twice.
const PUT_TWICE: [(&str, Outcome); 4] = [
    ("none", Outcome::ReadFault),
    ("long", Outcome::TooLong),
    ("short", Outcome::Done),
    ("short", Outcome::WriteFault),
];

#[test]
fn callers_hand_faults_on(rt: HostRuntime) -> Result<(), Fail> {
    let mut files = short_and_long(rt.alloc())?;
    let mut out = MemSink::new(rt.alloc(), 7)?;
    for row in &PUT_TWICE {
        let put = put_twice(rt.alloc(), &mut files, &mut out, row.0);
        assert_eq!(rt; put, row.1);
    }
    assert_eq!(rt; out.bytes(), b"abcabca".as_slice());
    for want in [Outcome::Done, Outcome::WriteFault] {
        let written = write_and_read(rt.alloc(), &mut files, "new", b"abcd");
        assert_eq!(rt; written, want);
    }
    Ok(())
}

/// What the reads of a file of 20,000 bytes and of one that isn't there give.
const SYSTEM_READS: [(&str, usize, Option<FileStop>); 3] = [
    ("f", 20_000, None),
    ("f", 19_999, Some(FileStop::TooLong)),
    ("none", 9, Some(FileStop::Failed)),
];

fn read_stop<F: Files>(alloc: Global, files: &mut F, path: &str, limit: usize) -> Option<FileStop> {
    match files.read(alloc, path, limit) {
        Ok(_) => None,
        Err(stop) => Some(stop),
    }
}

#[test]
fn files_of_the_system(rt: HostRuntime) -> Result<(), Fail> {
    let bytes = vec![in rt.alloc(); 7u8; 20_000]?;
    let mut files = HostFiles::new(&rt);
    assert_eq!(rt; files.write("f", &bytes), Ok(()));
    assert!(rt; holds(rt.alloc(), &mut files, "f", &bytes));
    for row in &SYSTEM_READS {
        let stop = read_stop(rt.alloc(), &mut files, row.0, row.1);
        assert_eq!(rt; stop, row.2);
    }
    assert_eq!(rt; files.write("none/f", b"0"), Err(WriteStop::Failed));
    assert_eq!(rt; files.read_faults(), 1);
    assert_eq!(rt; files.write_faults(), 1);
    fs::remove_file(&rt, "f")?;
    Ok(())
}

#[test]
fn the_standard_streams(rt: HostRuntime) {
    let mut out = HostSink::out(&rt);
    let mut err = HostSink::err(&rt);
    assert_eq!(rt; out.put(b"out\n"), Ok(()));
    assert_eq!(rt; err.put(b"err\n"), Ok(()));
    assert_eq!(rt; out.faults(), 0);
    assert_eq!(rt; err.faults(), 0);
}
