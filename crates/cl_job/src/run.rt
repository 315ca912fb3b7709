//! The command `run`: a source is judged, and run where it is accepted.

ghost use Rattle.std.specs.Prelude.{◌≡◌, ◌≢◌, ◌≤◌, ◌⊎◌, length, IfErr, OnOk, IsErrOf, option_map};
ghost use Rattle.std.specs.Option.{option_copied};
ghost use Rattle.cl_base.specs.Outside.{Counts};
ghost use Rattle.cl_run.specs.FormMeaning.{mean};
ghost use Rattle.cl_run.specs.Runs.{IsServed, IsRun};
ghost use Rattle.cl_job.specs.Answer.{Answered, FilesHold, IsSettled, OnlyAt};
ghost use Rattle.cl_job.specs.Expected.{FileGives};
ghost use Rattle.cl_job.specs.Reports.{ErrStands, FilesStand, OutStands, Puts, Reports, WriteCounts};
ghost use Rattle.cl_job.specs.RunAnswer.{RunGives, status_of};

use crate::job::Job;
use crate::report::{ReportStop, put_report};
use crate::status::Status;
use crate::texts;
use cl_base::limits::SOURCE_BYTES;
use cl_base::outside::{FileStop, Files, Sink};
use cl_form::form::read_form;
use cl_form::stop::FormStop;
use cl_mean::checked::Checked;
use cl_mean::outcome::End;
use cl_rules::rule::Refusal;
use cl_run::run::{Finished, run_checked};
use cl_words::words::Run;

/// The status of a run that ended so.
fn status_of(end: End) -> Status
    ensures { result ≡ status_of end }
{
    match end {
        End::Exit(_) => Status::Done,
        End::Trapped(_, _) => Status::Trapped,
    }
}

impl<F: Files, O: Sink, E: Sink> Job<F, O, E> {
    /// Writes the journal of a run, where it is asked for.
    fn keep_journal(&mut self, journal: Option<&str>, bytes: &[u8]) -> Result<(), Status>
        ensures wrote { OnOk result (FilesHold (option_map (λ path. (path, bytes.now)) (option_copied journal.entry)) self.old.files self.new.files) }
        ensures only { OnlyAt (option_copied journal.entry) self.old.files self.new.files }
        ensures stops { IfErr result (λ status. (status ≡ Status.WriteFault) ⊎ (status ≡ Status.NoMemory)) }
        ensures counts { Counts (IsErrOf result Status.WriteFault) self.old.write_count self.new.write_count }
        ensures reads_stand { self.new.read_count ≡ self.old.read_count }
        ensures out_stands { OutStands self.old self.new }
        ensures quiet { OnOk result (ErrStands self.old self.new) }
        ensures err_count { self.old.err_count ≤ self.new.err_count }
    {
        match journal {
            Some(path) => self.write_file(path, bytes),
            None => Ok(()),
        }
    }

    /// Puts the report of a run that is over.
    #[tactic(auto, using(crate::proofs::RunAnswers::put_whole))]
    fn put_finished(&mut self, checked: &Checked, finished: &Finished) -> Status
        requires { IsRun checked.now finished.now.state finished.now.hal finished.now.end (mean checked.now) }
        ensures puts { Puts checked.now result self.old self.new }
        ensures counts { Counts (result ≡ Status.WriteFault) self.old.out_count self.new.out_count }
        ensures files_stand { FilesStand self.old self.new }
        ensures quiet { IsSettled result → ErrStands self.old self.new }
        ensures err_count { self.old.err_count ≤ self.new.err_count }
    {
        let names = checked.labels.levels.as_slice();
        match put_report(self.alloc, &mut self.out, names, finished) {
            Ok(()) => status_of(finished.end),
            Err(ReportStop::WriteFault) => self.out_failed(),
            Err(ReportStop::NoMemory) => self.give_up(),
        }
    }

    /// Runs a checked source, keeps its journal and puts its report.
    #[tactic(auto, using(crate::proofs::RunAnswers::reports))]
    fn report(&mut self, checked: &Checked, journal: Option<&str>) -> Status
        requires { IsServed checked.now }
        ensures reports { Reports checked.now (option_copied journal.entry) result self.old self.new }
        ensures only { OnlyAt (option_copied journal.entry) self.old.files self.new.files }
        ensures counts { WriteCounts (result ≡ Status.WriteFault) self.old self.new }
        ensures reads_stand { self.new.read_count ≡ self.old.read_count }
        ensures quiet { IsSettled result → ErrStands self.old self.new }
        ensures err_count { self.old.err_count ≤ self.new.err_count }
    {
        let Ok(finished) = run_checked(self.alloc, checked) else {
            return self.give_up();
        };
        match self.keep_journal(journal, finished.hal.journal()) {
            Ok(()) => self.put_finished(checked, &finished),
            Err(status) => status,
        }
    }

    /// Judges a source, and runs it where it is accepted.
    #[tactic(auto, using(crate::proofs::RunAnswers::run_answers))]
    fn run_bytes(&mut self, source: &[u8], journal: Option<&str>) -> Status
        requires { length source.now ≤ 1048576 }
        ensures answered { IsSettled result → Answered (RunGives (option_copied journal.entry) source.now) result self.old self.new }
        ensures only { OnlyAt (option_copied journal.entry) self.old.files self.new.files }
        ensures counts { WriteCounts (result ≡ Status.WriteFault) self.old self.new }
        ensures reads_stand { self.new.read_count ≡ self.old.read_count }
        ensures err_count { self.old.err_count ≤ self.new.err_count }
        ensures no_read { result ≢ Status.ReadFault }
        ensures understood { result ≢ Status.Usage }
    {
        match read_form(self.alloc, source) {
            Ok(checked) => self.report(&checked, journal),
            Err(FormStop::NoReading) => self.refuse(Refusal { rule: 6, line: 1 }),
            Err(FormStop::NoMemory) => self.give_up(),
        }
    }

    /// Runs the source in a file.
    #[tactic(auto, using(crate::proofs::RunAnswers::run_answers))]
    pub(crate) fn run_file(&mut self, run: Run<'_>) -> Status
        ensures answered { IsSettled result → Answered (FileGives self.old.files run.entry.source.now (RunGives (option_copied run.entry.journal))) result self.old self.new }
        ensures only { OnlyAt (option_copied run.entry.journal) self.old.files self.new.files }
        ensures read_counts { Counts (result ≡ Status.ReadFault) self.old.read_count self.new.read_count }
        ensures write_counts { WriteCounts (result ≡ Status.WriteFault) self.old self.new }
        ensures err_count { self.old.err_count ≤ self.new.err_count }
        ensures understood { result ≢ Status.Usage }
    {
        let Ok(fault_text) = texts::read_fault_text(self.alloc, run.source) else {
            return self.give_up();
        };
        match self.files.read(self.alloc, run.source, SOURCE_BYTES) {
            Ok(source) => self.run_bytes(source.as_slice(), run.journal),
            Err(FileStop::TooLong) => self.refuse(Refusal { rule: 1, line: 1 }),
            Err(FileStop::Failed) => {
                self.complain(fault_text.as_str());
                Status::ReadFault
            }
            Err(FileStop::NoMemory) => self.give_up(),
        }
    }
}
