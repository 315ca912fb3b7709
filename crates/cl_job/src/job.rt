//! What a command works with, and what it says where it ends early.

ghost use Rattle.std.specs.Prelude.{◌≡◌, ◌≤◌, ◌⊎◌, IfErr, OnOk, IsErrOf, Some};
ghost use Rattle.cl_base.specs.Outside.{Counts};
ghost use Rattle.cl_job.specs.Answer.{FilesHold, OnlyAt, WasGiven};
ghost use Rattle.cl_job.specs.Reports.{ErrStands, OnlyErr, OutStands, Refuses};
ghost use Rattle.cl_job.specs.Texts.{usage_text};

use crate::status::Status;
use crate::texts;
use cl_base::outside::{Files, Sink, WriteStop};
use cl_rules::rule::Refusal;
use std::alloc::Global;
use std::marker::Model;

const USAGE: &str =
    "closure: usage: check SRC | divide SRC DIR | run [options] SRC [LEVEL=FILE ...] | drill N\n";

/// What a command works with: memory, files, standard output and standard error.
#[derive(Drop)]
pub struct Job<F: Files, O: Sink, E: Sink> {
    pub alloc: Global,
    pub files: F,
    pub out: O,
    pub err: E,
}

impl<F: Files, O: Sink, E: Sink> Model for Job<F, O, E> {
    ghost use Rattle.cl_job.specs.Seen.{Seen};

    ghost Value = { Seen };

    ghost view = { λ job. record {
      files = F.held job.files;
      read_count = F.read_count job.files;
      write_count = F.write_count job.files;
      out = O.written job.out;
      out_count = O.fault_count job.out;
      err = E.written job.err;
      err_count = E.fault_count job.err;
    } };
}

impl<F: Files, O: Sink, E: Sink> Job<F, O, E> {
    /// Gives standard error a text. That it fails changes nothing.
    #[tactic(auto, using(crate::proofs::Growth::given))]
    pub(crate) fn complain(&mut self, text: &str)
        ensures given { WasGiven text.now self.old self.new }
        ensures rest { OnlyErr self.old self.new }
    {
        let _ = self.err.put(text.as_bytes());
    }

    /// Says how the program is used.
    #[tactic(auto, unfolding(crate::specs::Texts::usage_text))]
    pub(crate) fn explain(&mut self) -> Status
        ensures status { result ≡ Status.Usage }
        ensures text { WasGiven usage_text self.old self.new }
        ensures rest { OnlyErr self.old self.new }
    {
        self.complain(USAGE);
        Status::Usage
    }

    /// Says that memory ran out.
    pub(crate) fn give_up(&mut self) -> Status
        ensures status { result ≡ Status.NoMemory }
        ensures rest { OnlyErr self.old self.new }
    {
        self.complain("closure: out of memory\n");
        Status::NoMemory
    }

    /// Says that a put on standard output failed.
    pub(crate) fn out_failed(&mut self) -> Status
        ensures status { result ≡ Status.WriteFault }
        ensures rest { OnlyErr self.old self.new }
    {
        self.complain("closure: cannot write standard output\n");
        Status::WriteFault
    }

    /// Says which rule a source fails.
    pub(crate) fn refuse(&mut self, refusal: Refusal) -> Status
        ensures refuses { Refuses refusal result self.old self.new }
        ensures rest { OnlyErr self.old self.new }
    {
        match texts::refusal_text(self.alloc, refusal) {
            Ok(text) => {
                self.complain(text.as_str());
                Status::Refused
            }
            Err(_) => self.give_up(),
        }
    }

    /// Writes a file, or says why it wasn't written and answers how the command ends.
    pub(crate) fn write_file(&mut self, path: &str, bytes: &[u8]) -> Result<(), Status>
        ensures wrote { OnOk result (FilesHold (Some (path.now, bytes.now)) self.old.files self.new.files) }
        ensures only { OnlyAt (Some path.now) self.old.files self.new.files }
        ensures stops { IfErr result (λ status. (status ≡ Status.WriteFault) ⊎ (status ≡ Status.NoMemory)) }
        ensures counts { Counts (IsErrOf result Status.WriteFault) self.old.write_count self.new.write_count }
        ensures reads_stand { self.new.read_count ≡ self.old.read_count }
        ensures out_stands { OutStands self.old self.new }
        ensures quiet { OnOk result (ErrStands self.old self.new) }
        ensures err_count { self.old.err_count ≤ self.new.err_count }
    {
        let Ok(fault_text) = texts::write_fault_text(self.alloc, path) else {
            return Err(self.give_up());
        };
        match self.files.write(path, bytes) {
            Ok(()) => Ok(()),
            Err(WriteStop::Failed) => {
                self.complain(fault_text.as_str());
                Err(Status::WriteFault)
            }
            Err(WriteStop::NoMemory) => Err(self.give_up()),
        }
    }
}
