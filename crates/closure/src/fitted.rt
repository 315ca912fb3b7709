//! Files that fit the stack on which they are worked with.

ghost use Rattle.std.specs.Prelude.{◌≡◌, ◌≤◌, ◌<◌, ◌+◌, ◌*◌, ◌⊎◌, length, IfOk, IsOkAnd, IsErrOf};
ghost use Rattle.cl_base.specs.declared.limits.TheConstants.{SOURCE_BYTES};

use cl_base::outside::{FileStop, Files, WriteStop};
use std::alloc::Global;

/// The bytes of a stack that a command takes whatever it reads.
const BASE_BYTES: usize = 1 << 20;

/// The bytes of a stack that each byte of a source may take: the reader and the evaluator recur on the tree. The
/// deepest source of 1 MiB takes 223 million bytes; `bench/limits` runs it.
const BYTES_PER_BYTE: usize = 280;

/// The longest source that any stack has room for.
pub const SMALL_ROOM: usize = 2048;

/// How large a stack is on which a source of `room` bytes can be worked with.
pub fn stack_bytes(room: usize) -> usize
    requires { room ≤ SOURCE_BYTES }
    ensures { result ≡ 1048576 + room * 280 }
{
    BASE_BYTES + room * BYTES_PER_BYTE
}

/// The answer of a read, or want of memory where its bytes are more than the room.
fn fit(answer: Result<Vec<u8>, FileStop>, room: usize) -> Result<Vec<u8>, FileStop>
    ensures fits { IfOk result (λ bytes. length bytes.items ≤ room) }
    ensures same { (result ≡ answer) ⊎ (IsErrOf result FileStop.NoMemory × IsOkAnd answer (λ bytes. room < length bytes.items)) }
{
    match answer {
        Ok(bytes) if bytes.len() > room => Err(FileStop::NoMemory),
        answer => answer,
    }
}

/// Files of which none is read that is longer than the stack has room for: that answers want of memory.
#[derive(Drop)]
pub struct Fitted<F> {
    files: F,
    room: usize,
}

impl<F> Fitted<F> {
    pub fn new(files: F, room: usize) -> Fitted<F>
        ensures files { result.files ≡ files }
        ensures room { result.room ≡ room }
    {
        Fitted { files, room }
    }
}

impl<F: Files> Files for Fitted<F> {
    ghost read_count = { λ fitted. F.read_count fitted.files };

    ghost write_count = { λ fitted. F.write_count fitted.files };

    ghost held = { λ fitted. F.held fitted.files };

    ghost failed_path = { λ fitted. F.failed_path fitted.files };

    fn read_faults(&self) -> u64 {
        self.files.read_faults()
    }

    fn write_faults(&self) -> u64 {
        self.files.write_faults()
    }

    fn read(&mut self, alloc: Global, path: &str, limit: usize) -> Result<Vec<u8>, FileStop> {
        fit(self.files.read(alloc, path, limit), self.room)
    }

    fn write(&mut self, path: &str, bytes: &[u8]) -> Result<(), WriteStop> {
        self.files.write(path, bytes)
    }
}
