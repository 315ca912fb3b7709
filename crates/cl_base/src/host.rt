//! The files and the standard streams of the system. They tell nothing of what they hold.

ghost use Rattle.std.specs.Prelude.{◌≡◌, ◌≤◌, ◌<◌, length, IfOk, IfSome, IsErrOf, OnOk, None};
ghost use Rattle.std.specs.Io.KnownBytes.{Appends};

use crate::outside::{Failed, FileStop, Files, Sink, WriteStop};
use std::alloc::Global;
use std::fs;
use std::io::{Read, Write};
use std::rt::{Files as Disk, Stderr, Stdout};

/// How many bytes one read asks for at most.
const PIECE_BYTES: usize = 8192;

/// The standard output and the standard error, each as a writer.
pub trait Streams {
    type Out: Write + Drop;

    type Err: Write + Drop;

    fn out(&self) -> Self::Out;

    fn err(&self) -> Self::Err;
}

impl Streams for HostRuntime {
    type Out = Stdout;

    type Err = Stderr;

    fn out(&self) -> Stdout {
        self.stdout()
    }

    fn err(&self) -> Stderr {
        self.stderr()
    }
}

/// The bytes that a reader has left, which are at most `limit`. At most one byte more is taken.
fn read_up_to<F: Read>(alloc: Global, from: &mut F, limit: usize) -> Result<Vec<u8>, FileStop>
    ensures within { IfOk result (λ bytes. length bytes.items ≤ limit) }
    ensures bytes { IfOk result (λ bytes. IfSome (F.remaining from.old) (λ all. bytes.items ≡ all)) }
    ensures too_long { IsErrOf result FileStop.TooLong → IfSome (F.remaining from.old) (λ all. limit < length all) }
{
    let mut bytes = Vec::new(alloc);
    let mut piece = [0; PIECE_BYTES];
    while bytes.len() <= limit {
        let room = (limit - bytes.len()).min(PIECE_BYTES - 1) + 1;
        match from.read(&mut piece[..room]) {
            Ok(0) => return Ok(bytes),
            Ok(taken) => bytes.extend_from_slice(&piece[..taken])?,
            Err(_) => return Err(FileStop::Failed),
        }
    }
    Err(FileStop::TooLong)
}

/// Writes the whole piece. A write that takes nothing of what is left has failed.
fn write_whole<W: Write>(to: &mut W, piece: &[u8]) -> Result<(), Failed>
    ensures { OnOk result (Appends (W.contents to.old) (W.contents to.new) piece.now) }
{
    let mut done = 0;
    while done < piece.len() {
        match to.write(&piece[done..]) {
            Ok(0) | Err(_) => return Err(Failed),
            Ok(taken) => done += taken,
        }
    }
    Ok(())
}

/// The files of the system. A file that can't be opened, read, made or written is a fault.
#[derive(Drop)]
pub struct HostFiles<'a, R> {
    rt: &'a R,
    read_faults: u64,
    write_faults: u64,
}

impl<R> HostFiles<'_, R> {
    pub fn new(rt: &R) -> HostFiles<'_, R>
        ensures reads { result.read_faults ≡ 0 }
        ensures writes { result.write_faults ≡ 0 }
    {
        HostFiles {
            rt,
            read_faults: 0,
            write_faults: 0,
        }
    }
}

impl<R: Disk> Files for HostFiles<'_, R> {
    ghost read_count = { λ files. files.read_faults };

    ghost write_count = { λ files. files.write_faults };

    ghost held = { λ _. None };

    ghost failed_path = { λ _. None };

    fn read_faults(&self) -> u64 {
        self.read_faults
    }

    fn write_faults(&self) -> u64 {
        self.write_faults
    }

    fn read(&mut self, alloc: Global, path: &str, limit: usize) -> Result<Vec<u8>, FileStop> {
        let answer = match fs::open(self.rt, path) {
            Ok(mut file) => read_up_to(alloc, &mut file, limit),
            Err(_) => Err(FileStop::Failed),
        };
        if let Err(FileStop::Failed) = answer {
            self.read_faults = self.read_faults.saturating_add(1);
        }
        answer
    }

    fn write(&mut self, path: &str, bytes: &[u8]) -> Result<(), WriteStop> {
        let answer = match fs::create(self.rt, path) {
            Ok(mut file) => write_whole(&mut file, bytes),
            Err(_) => Err(Failed),
        };
        if answer.is_err() {
            self.write_faults = self.write_faults.saturating_add(1);
            return Err(WriteStop::Failed);
        }
        Ok(())
    }
}

/// The standard output or the standard error.
#[derive(Drop)]
pub struct HostSink<'a, R> {
    rt: &'a R,
    stream: Stream,
    faults: u64,
}

#[derive(Clone, Copy)]
enum Stream {
    Out,
    Err,
}

impl<R> HostSink<'_, R> {
    pub fn out(rt: &R) -> HostSink<'_, R>
        ensures { result.faults ≡ 0 }
    {
        HostSink {
            rt,
            stream: Stream::Out,
            faults: 0,
        }
    }

    pub fn err(rt: &R) -> HostSink<'_, R>
        ensures { result.faults ≡ 0 }
    {
        HostSink {
            rt,
            stream: Stream::Err,
            faults: 0,
        }
    }
}

impl<R: Streams> Sink for HostSink<'_, R> {
    ghost fault_count = { λ sink. sink.faults };

    ghost written = { λ _. None };

    fn faults(&self) -> u64 {
        self.faults
    }

    fn put(&mut self, bytes: &[u8]) -> Result<(), Failed> {
        let answer = match self.stream {
            Stream::Out => write_whole(&mut self.rt.out(), bytes),
            Stream::Err => write_whole(&mut self.rt.err(), bytes),
        };
        if answer.is_err() {
            self.faults = self.faults.saturating_add(1);
        }
        answer
    }
}
