//! The command `check`: a source is judged, and listed where it is accepted.

ghost use Rattle.std.specs.Prelude.{◌≡◌, ◌≢◌, ◌≤◌, length};
ghost use Rattle.cl_base.specs.Outside.{Counts};
ghost use Rattle.cl_job.specs.Answer.{Answered, IsSettled};
ghost use Rattle.cl_job.specs.CheckAnswer.{CheckGives};
ghost use Rattle.cl_job.specs.Expected.{FileGives};
ghost use Rattle.cl_job.specs.Reports.{ErrStands, FilesStand, Lists};

use crate::job::Job;
use crate::listing::listing;
use crate::report::put;
use crate::status::Status;
use crate::texts;
use cl_base::limits::SOURCE_BYTES;
use cl_base::outside::{FileStop, Files, Sink};
use cl_front::accept::accept;
use cl_front::stop::FrontStop;
use cl_mean::checked::Checked;
use cl_rules::rule::Refusal;

impl<F: Files, O: Sink, E: Sink> Job<F, O, E> {
    /// Puts the listing of a source that is accepted.
    fn list(&mut self, checked: &Checked) -> Status
        ensures lists { Lists checked.now result self.old self.new }
        ensures counts { Counts (result ≡ Status.WriteFault) self.old.out_count self.new.out_count }
        ensures files_stand { FilesStand self.old self.new }
        ensures quiet { IsSettled result → ErrStands self.old self.new }
        ensures err_count { self.old.err_count ≤ self.new.err_count }
    {
        let Ok(text) = listing(self.alloc, checked) else {
            return self.give_up();
        };
        match put(&mut self.out, text.as_bytes()) {
            Ok(()) => Status::Done,
            Err(_) => self.out_failed(),
        }
    }

    /// Judges a source, and lists it where it is accepted.
    #[tactic(auto, using(crate::proofs::CheckAnswers::check_answers))]
    fn check_bytes(&mut self, source: &[u8]) -> Status
        requires { length source.now ≤ 1048576 }
        ensures answered { IsSettled result → Answered (CheckGives source.now) result self.old self.new }
        ensures counts { Counts (result ≡ Status.WriteFault) self.old.out_count self.new.out_count }
        ensures files_stand { FilesStand self.old self.new }
        ensures err_count { self.old.err_count ≤ self.new.err_count }
        ensures no_read { result ≢ Status.ReadFault }
        ensures understood { result ≢ Status.Usage }
    {
        match accept(self.alloc, source) {
            Ok(checked) => self.list(&checked),
            Err(FrontStop::Refused { rule, line }) => self.refuse(Refusal { rule, line }),
            Err(FrontStop::NoMemory) => self.give_up(),
        }
    }

    /// Judges the source in a file, and lists it where it is accepted.
    #[tactic(auto, using(crate::proofs::CheckAnswers::check_answers))]
    pub(crate) fn check_file(&mut self, path: &str) -> Status
        ensures answered { IsSettled result → Answered (FileGives self.old.files path.now CheckGives) result self.old self.new }
        ensures read_counts { Counts (result ≡ Status.ReadFault) self.old.read_count self.new.read_count }
        ensures out_counts { Counts (result ≡ Status.WriteFault) self.old.out_count self.new.out_count }
        ensures files_stand { self.new.files ≡ self.old.files }
        ensures writes_stand { self.new.write_count ≡ self.old.write_count }
        ensures err_count { self.old.err_count ≤ self.new.err_count }
        ensures understood { result ≢ Status.Usage }
    {
        let Ok(fault_text) = texts::read_fault_text(self.alloc, path) else {
            return self.give_up();
        };
        match self.files.read(self.alloc, path, SOURCE_BYTES) {
            Ok(source) => self.check_bytes(source.as_slice()),
            Err(FileStop::TooLong) => self.refuse(Refusal { rule: 1, line: 1 }),
            Err(FileStop::Failed) => {
                self.complain(fault_text.as_str());
                Status::ReadFault
            }
            Err(FileStop::NoMemory) => self.give_up(),
        }
    }
}
