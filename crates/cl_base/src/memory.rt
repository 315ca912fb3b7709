//! Files and a sink in memory, whose calls can be made to fail by their numbers.

ghost use Rattle.std.specs.Prelude.{◌≡◌, ◌≤◌, ◌++◌, List, [], ◌∷◌, ℕ, length, IfOk, is_err, IsErr, IsErrOf, OnOk, OnErr, MatchOption, None, Some, true, position, bytes_eq, option_map, find, nat_eq, not};
ghost use Rattle.cl_base.specs.Memory.{Memory, no_files, fails_next, called, after_read, read_gives, write_failed, IsAt, IsAnswer, up_to, blank, refuses, kept, after_put};
ghost use Rattle.cl_base.specs.Outside.{Counts, file_of, IsLonger, Wrote, IsWritten, Notes, Appended};

use crate::name::{Name, NoMemory};
use crate::outside::{Failed, FileStop, Files, Sink, WriteStop};
use std::alloc::Global;
use std::marker::Model;

/// The bytes of a file.
#[derive(Drop)]
struct Content {
    bytes: Vec<u8>,
}

impl Model for Content {
    ghost use Rattle.std.specs.Prelude.{ℕ, List};
    ghost use Rattle.std.specs.Coded.{coded_list, coded_ℕ};

    ghost Value = { List ℕ };

    ghost coded = { coded_list coded_ℕ };

    ghost view = { λ c. c.bytes.items };
}

impl Content {
    fn of(alloc: Global, bytes: &[u8]) -> Result<Content, NoMemory>
        ensures { IfOk result (λ c. c ≡ bytes.now) }
    {
        let bytes = bytes.to_vec(alloc)?;
        Ok(Content { bytes })
    }

    /// The bytes, where they are at most `limit`.
    fn up_to(&self, alloc: Global, limit: usize) -> Result<Vec<u8>, FileStop>
        ensures { IsAnswer (up_to limit self.now) result }
    {
        if self.bytes.len() > limit {
            return Err(FileStop::TooLong);
        }
        Ok(self.bytes.to_vec(alloc)?)
    }
}

/// Files in memory. The calls that are named fail, and so does a read of a file that is missing; every other call
/// succeeds while memory lasts. At the greatest u64 the number of the last call stands.
#[derive(Drop)]
pub struct MemFiles {
    alloc: Global,
    files: Vec<(Name, Content)>,
    calls: u64,
    named: Vec<u64>,
    read_faults: u64,
    write_faults: u64,
    failed_path: Option<Name>,
}

impl Model for MemFiles {
    ghost use Rattle.cl_base.specs.Memory.{Memory};

    ghost Value = { Memory };

    ghost view = { λ m. record {
      files = m.files.items;
      calls = m.calls;
      named = m.named.items;
      read_faults = m.read_faults;
      write_faults = m.write_faults;
      failed_path = m.failed_path;
    } };
}

impl MemFiles {
    pub fn new(alloc: Global) -> Result<MemFiles, NoMemory>
        ensures { IfOk result (λ m. m ≡ no_files) }
    {
        Ok(MemFiles {
            alloc,
            files: Vec::new(alloc),
            calls: 0,
            named: Vec::new(alloc),
            read_faults: 0,
            write_faults: 0,
            failed_path: None,
        })
    }

    /// Makes the file at `path` hold `bytes`.
    pub fn add(&mut self, path: &str, bytes: &[u8]) -> Result<(), NoMemory>
        ensures ok { OnOk result (IsWritten path.now bytes.now self.old.files self.new.files) }
        ensures rest { self.new ≡ record self.old { files = self.new.files } }
        ensures err { OnErr result (self.new.files ≡ self.old.files) }
    {
        let content = Content::of(self.alloc, bytes)?;
        match self.find(path) {
            Some(index) => self.files[index].1 = content,
            None => {
                let name = Name::of(self.alloc, path)?;
                self.files.push((name, content))?;
            }
        }
        Ok(())
    }

    /// Makes the next call of this number fail. Calls count from 1, reads and writes together.
    pub fn fail_at(&mut self, call: u64) -> Result<(), NoMemory>
        ensures ok { OnOk result (self.new ≡ record self.old { named = self.old.named ++ call ∷ [] }) }
        ensures err { OnErr result (self.new ≡ self.old) }
    {
        self.named.push(call)?;
        Ok(())
    }

    /// Counts the call, and says whether it is to fail.
    fn count_call(&mut self) -> bool
        ensures counted { self.new ≡ called self.old }
        ensures fails { result ≡ fails_next self.old }
    {
        self.calls = self.calls.saturating_add(1);
        self.named.contains(&self.calls)
    }

    /// The index of the file at `path`.
    fn find(&self, path: &str) -> Option<usize>
        ensures { MatchOption result (file_of self.now.files path.now ≡ None) (IsAt path.now self.now.files) }
    {
        self.position(path)
    }

    fn position(&self, path: &str) -> Option<usize>
        ensures { result ≡ position (λ file. bytes_eq path.now file.0) self.now.files }
    {
        self.files.iter().position(|(name, _)| path == name.text())
    }
}

impl Files for MemFiles {
    ghost read_count = { λ m. m.read_faults };

    ghost write_count = { λ m. m.write_faults };

    ghost held = { λ m. Some m.files };

    ghost failed_path = { λ m. m.failed_path };

    fn read_faults(&self) -> u64 {
        self.read_faults
    }

    fn write_faults(&self) -> u64 {
        self.write_faults
    }

    fn read(&mut self, alloc: Global, path: &str, limit: usize) -> Result<Vec<u8>, FileStop>
        ensures answer { IsAnswer (read_gives path.now limit self.old) result }
        ensures after { self.new ≡ after_read path.now self.old result }
        ensures counts { Counts (IsErrOf result FileStop.Failed) self.old.read_faults self.new.read_faults }
        ensures writes_stand { self.new.write_faults ≡ self.old.write_faults }
        ensures files_stand { Some self.new.files ≡ Some self.old.files }
        ensures bytes { IfOk result (λ bytes. file_of self.old.files path.now ≡ Some bytes.items) }
        ensures within { IfOk result (λ bytes. length bytes.items ≤ limit) }
        ensures too_long { IsErrOf result FileStop.TooLong → IsLonger limit path.now self.old.files }
        ensures noted { Notes (IsErrOf result FileStop.Failed) path.now (Some self.old.files) self.old.failed_path self.new.failed_path }
    {
        let fails = self.count_call();
        match self.find(path) {
            Some(index) if !fails => self.files[index].1.up_to(alloc, limit),
            _ => {
                self.failed_path = Some(Name::of(alloc, path)?);
                self.read_faults = self.read_faults.saturating_add(1);
                Err(FileStop::Failed)
            }
        }
    }

    fn write(&mut self, path: &str, bytes: &[u8]) -> Result<(), WriteStop>
        ensures failed { IsErrOf result WriteStop.Failed → (fails_next self.old ≡ true) × (self.new ≡ write_failed path.now self.old) }
        ensures fails { fails_next self.old ≡ true → IsErr result }
        ensures after { (IsErrOf result WriteStop.Failed → ⊥) → self.new ≡ record (called self.old) { files = self.new.files } }
        ensures files_stand { OnErr result (self.new.files ≡ self.old.files) }
        ensures counts { Counts (IsErrOf result WriteStop.Failed) self.old.write_faults self.new.write_faults }
        ensures reads_stand { self.new.read_faults ≡ self.old.read_faults }
        ensures wrote { Wrote path.now bytes.now (Some self.old.files) (Some self.new.files) result }
        ensures noted { Notes (IsErrOf result WriteStop.Failed) path.now (Some self.old.files) self.old.failed_path self.new.failed_path }
    {
        if self.count_call() {
            self.failed_path = Some(Name::of(self.alloc, path)?);
            self.write_faults = self.write_faults.saturating_add(1);
            return Err(WriteStop::Failed);
        }
        self.add(path, bytes)?;
        Ok(())
    }
}

/// A sink in memory. The puts that are named fail, and so does one past the room. At the greatest u64 the number of
/// the last put stands.
#[derive(Drop)]
pub struct MemSink {
    bytes: Vec<u8>,
    room: usize,
    calls: u64,
    named: Vec<(u64, usize)>,
    faults: u64,
}

impl Model for MemSink {
    ghost use Rattle.std.specs.Prelude.{◌≤◌, vec_len, vec_capacity};
    ghost use Rattle.cl_base.specs.Memory.{Page};

    ghost Value = { Page };

    ghost view = { λ s. record {
      bytes = s.bytes.items;
      room = s.room;
      calls = s.calls;
      named = s.named.items;
      faults = s.faults;
    } };

    ghost invariant = { λ s. (vec_len s.bytes ≤ s.room) × (s.room ≤ vec_capacity s.bytes) };
}

impl MemSink {
    /// A sink with room for so many bytes, which are taken at once.
    pub fn new(alloc: Global, room: usize) -> Result<MemSink, NoMemory>
        ensures { IfOk result (λ sink. sink ≡ blank room) }
    {
        Ok(MemSink {
            bytes: Vec::with_capacity(alloc, room)?,
            room,
            calls: 0,
            named: Vec::new(alloc),
            faults: 0,
        })
    }

    /// Makes the put of this number fail and keep the first `kept` bytes of its piece, or fewer where the piece or
    /// the room has fewer. Puts count from 1, and of two entries for one put the first holds.
    pub fn fail_at(&mut self, call: u64, kept: usize) -> Result<(), NoMemory>
        ensures ok { OnOk result (self.new ≡ record self.old { named = self.old.named ++ (call, kept) ∷ [] }) }
        ensures err { OnErr result (self.new ≡ self.old) }
    {
        self.named.push((call, kept))?;
        Ok(())
    }

    /// The bytes that were kept.
    pub fn bytes(&self) -> &[u8]
        ensures { result.now ≡ self.now.bytes }
    {
        self.bytes.as_slice()
    }

    /// Counts the put and keeps what it is to keep of `piece`. Says whether it succeeds.
    fn keep(&mut self, piece: &[u8]) -> bool
        ensures succeeds { result ≡ not (refuses piece.now self.old) }
        ensures kept { self.new ≡ kept piece.now self.old }
    {
        self.calls = self.calls.saturating_add(1);
        let left = self.room - self.bytes.len();
        let named = entry(&self.named, self.calls);
        let asked = named.unwrap_or(piece.len());
        let kept = asked.min(left).min(piece.len());
        if self.bytes.extend_from_slice(&piece[..kept]).is_err() {
            unreachable!()
        }
        named.is_none() && piece.len() <= left
    }
}

fn entry(named: &[(u64, usize)], call: u64) -> Option<usize>
    ensures { result ≡ option_map (λ entry. entry.1) (find (λ entry. nat_eq entry.0 call) named.now) }
{
    named
        .iter()
        .find(|entry| entry.0 == call)
        .map(|entry| entry.1)
}

impl Sink for MemSink {
    ghost fault_count = { λ s. s.faults };

    ghost written = { λ s. Some s.bytes };

    fn faults(&self) -> u64 {
        self.faults
    }

    fn put(&mut self, bytes: &[u8]) -> Result<(), Failed>
        ensures refused { is_err result ≡ refuses bytes.now self.old }
        ensures after { self.new ≡ after_put bytes.now self.old }
        ensures counts { Counts (IsErr result) self.old.faults self.new.faults }
        ensures appended { Appended bytes.now (Some self.old.bytes) (Some self.new.bytes) result }
    {
        if self.keep(bytes) {
            return Ok(());
        }
        self.faults = self.faults.saturating_add(1);
        Err(Failed)
    }
}
