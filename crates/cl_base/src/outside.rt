//! The outside of the program: files and sinks, which count their faults and may tell what they hold.

ghost use Rattle.std.specs.Prelude.{◌≡◌, ◌≤◌, ℕ, List, Option, length, IfOk, IfSome, IsErr, IsErrOf};
ghost use Rattle.cl_base.specs.Outside.{Counts, Held, file_of, IsLonger, Wrote, Notes, Appended};
ghost use Rattle.cl_base.specs.declared.outside.FileStop.TheVariants as file_stop;
ghost use Rattle.cl_base.specs.declared.outside.WriteStop.TheVariants as write_stop;

use crate::name::NoMemory;
use std::alloc::{AllocError, Global};

/// A sink did not take the whole piece. Its count of faults rose.
#[derive(Clone, Copy, Debug, PartialEq, Eq)]
pub struct Failed;

/// Why a file was not read.
#[derive(Clone, Copy, Debug, PartialEq, Eq)]
pub enum FileStop {
    /// The file is missing or could not be read. The count of read faults rose.
    Failed,
    /// The file has more bytes than the limit.
    TooLong,
    /// Memory ran out.
    NoMemory,
}

/// Why a file was not written.
#[derive(Clone, Copy, Debug, PartialEq, Eq)]
pub enum WriteStop {
    /// The file could not be made or written. The count of write faults rose.
    Failed,
    /// Memory ran out.
    NoMemory,
}

impl From<NoMemory> for FileStop {
    ghost from_gives = { λ _ stop. stop ≡ file_stop.NoMemory };

    fn from(_: NoMemory) -> FileStop {
        FileStop::NoMemory
    }
}

impl From<AllocError> for FileStop {
    ghost from_gives = { λ _ stop. stop ≡ file_stop.NoMemory };

    fn from(_: AllocError) -> FileStop {
        FileStop::NoMemory
    }
}

impl From<NoMemory> for WriteStop {
    ghost from_gives = { λ _ stop. stop ≡ write_stop.NoMemory };

    fn from(_: NoMemory) -> WriteStop {
        WriteStop::NoMemory
    }
}

/// Files by their paths.
pub trait Files {
    /// How many reads have failed. At the greatest u64 it stands.
    ghost read_count: { Self → ℕ };

    /// How many writes have failed. At the greatest u64 it stands.
    ghost write_count: { Self → ℕ };

    /// The files that are held, where the object tells them.
    ghost held: { Self → Option Held };

    /// The path of the last failed call, where the object tells its files.
    ghost failed_path: { Self → Option (List ℕ) };

    fn read_faults(&self) -> u64
        ensures { result ≡ read_count self.now };

    fn write_faults(&self) -> u64
        ensures { result ≡ write_count self.now };

    /// The bytes of the file at `path`, which are at most `limit`. A missing file is `Failed`.
    fn read(&mut self, alloc: Global, path: &str, limit: usize) -> Result<Vec<u8>, FileStop>
        ensures counts { Counts (IsErrOf result FileStop.Failed) (read_count self.old) (read_count self.new) }
        ensures writes_stand { write_count self.new ≡ write_count self.old }
        ensures files_stand { held self.new ≡ held self.old }
        ensures bytes { IfOk result (λ bytes. IfSome (held self.old) (λ files. file_of files path.now ≡ Some bytes.items)) }
        ensures within { IfOk result (λ bytes. length bytes.items ≤ limit) }
        ensures too_long { IsErrOf result FileStop.TooLong → IfSome (held self.old) (IsLonger limit path.now) }
        ensures noted { Notes (IsErrOf result FileStop.Failed) path.now (held self.old) (failed_path self.old) (failed_path self.new) };

    /// Makes the file at `path` hold `bytes`. After a refusal nothing is known of this file.
    fn write(&mut self, path: &str, bytes: &[u8]) -> Result<(), WriteStop>
        ensures counts { Counts (IsErrOf result WriteStop.Failed) (write_count self.old) (write_count self.new) }
        ensures reads_stand { read_count self.new ≡ read_count self.old }
        ensures wrote { Wrote path.now bytes.now (held self.old) (held self.new) result }
        ensures noted { Notes (IsErrOf result WriteStop.Failed) path.now (held self.old) (failed_path self.old) (failed_path self.new) };
}

/// What takes the bytes of a program's output.
pub trait Sink {
    /// How many puts have failed. At the greatest u64 it stands.
    ghost fault_count: { Self → ℕ };

    /// The bytes that were taken, where the object tells them.
    ghost written: { Self → Option (List ℕ) };

    fn faults(&self) -> u64
        ensures { result ≡ fault_count self.now };

    /// Appends the piece. After `Failed` a prefix of it was appended.
    fn put(&mut self, bytes: &[u8]) -> Result<(), Failed>
        ensures counts { Counts (IsErr result) (fault_count self.old) (fault_count self.new) }
        ensures appended { Appended bytes.now (written self.old) (written self.new) result };
}
