//! The top calls: words in, texts, files and a status out.

ghost use Rattle.std.specs.Prelude.{◌≡◌, ◌≢◌, ◌↔◌, ◌<◌, ◌≤◌, ◌⊎◌, List, ℕ, MatchOption, Option, Some, None, map, string_bytes};
ghost use Rattle.cl_base.specs.Outside.{Held, Rose};
ghost use Rattle.cl_words.specs.Words.{Asked, Check, asked};
ghost use Rattle.cl_job.specs.Answer.{Answer, Answered, IsSettled, OnlyAt};
ghost use Rattle.cl_job.specs.Expected.{IsExpected, journal_path, but_run};

use crate::job::Job;
use crate::status::Status;
use cl_base::outside::{Files, Sink};
use cl_front::accept::one_verdict;
use cl_words::words::{Command, read_words};

/// The path of the source of a command that isn't a run, where the words ask for one.
fn read_others(words: &[String]) -> Option<&str>
    ensures { let other = but_run (asked (map string_bytes words.now)) in MatchOption result (other ≡ None) (λ path. other ≡ Some (Check path.now)) }
{
    match read_words(words) {
        Some(Command::Check { source }) => Some(source),
        Some(Command::Run(_)) | None => None,
    }
}

/// Carries out the command that the words ask for, if it is another than `run`, and answers how it ended.
/// Words of `run` are answered as words without a reading are. What it finds goes to standard output, and
/// why it ends early to standard error; that a put on standard error fails leaves the answer.
#[tactic(auto, using(crate::proofs::Asked::commands))]
pub fn still<F: Files, O: Sink, E: Sink>(job: &mut Job<F, O, E>, words: &[String]) -> Status
    // By content: without a fault and with memory enough, the expected answer is given.
    ensures answered { IsSettled result → Answered (IsExpected job.old.files (but_run (asked (map string_bytes words.now)))) result job.old job.new }

    // By cause.
    ensures usage { (result ≡ Status.Usage) ↔ (but_run (asked (map string_bytes words.now)) ≡ None) }
    ensures read_fault { result ≡ Status.ReadFault → Rose job.old.read_count job.new.read_count }
    ensures read_fault_told { job.old.read_count < job.new.read_count → result ≡ Status.ReadFault }
    ensures write_fault { result ≡ Status.WriteFault → Rose job.old.out_count job.new.out_count }
    ensures write_fault_told { job.old.out_count < job.new.out_count → result ≡ Status.WriteFault }

    // What stands. No count falls.
    ensures read_counts { job.old.read_count ≤ job.new.read_count }
    ensures out_counts { job.old.out_count ≤ job.new.out_count }
    ensures err_counts { job.old.err_count ≤ job.new.err_count }
    ensures files_stand { job.new.files ≡ job.old.files }
    ensures writes_stand { job.new.write_count ≡ job.old.write_count }
{
    match read_others(words) {
        Some(path) => job.check_file(path),
        None => job.explain(),
    }
}

/// Carries out the command that the words ask for, and answers how it ended. What it finds goes to
/// standard output and into the journal's file, and why it ends early to standard error; that a put
/// on standard error fails leaves the answer.
#[tactic(auto, using(crate::proofs::Asked::commands))]
pub fn closure<F: Files, O: Sink, E: Sink>(job: &mut Job<F, O, E>, words: &[String]) -> Status
    // By content: without a fault and with memory enough, the expected answer is given.
    ensures answered { IsSettled result → Answered (IsExpected job.old.files (asked (map string_bytes words.now))) result job.old job.new }

    // By cause.
    ensures usage { (result ≡ Status.Usage) ↔ (asked (map string_bytes words.now) ≡ None) }
    ensures read_fault { result ≡ Status.ReadFault → Rose job.old.read_count job.new.read_count }
    ensures read_fault_told { job.old.read_count < job.new.read_count → result ≡ Status.ReadFault }
    ensures write_fault { result ≡ Status.WriteFault → Rose job.old.write_count job.new.write_count ⊎ Rose job.old.out_count job.new.out_count }
    ensures file_fault_told { job.old.write_count < job.new.write_count → result ≡ Status.WriteFault }
    ensures write_fault_told { job.old.out_count < job.new.out_count → result ≡ Status.WriteFault }

    // What stands. No count falls.
    ensures read_counts { job.old.read_count ≤ job.new.read_count }
    ensures write_counts { job.old.write_count ≤ job.new.write_count }
    ensures out_counts { job.old.out_count ≤ job.new.out_count }
    ensures err_counts { job.old.err_count ≤ job.new.err_count }
    ensures only { OnlyAt (journal_path (asked (map string_bytes words.now))) job.old.files job.new.files }
{
    match read_words(words) {
        Some(Command::Run(run)) => job.run_file(run),
        Some(Command::Check { source: _ }) | None => still(job, words),
    }
}

/// A law: what isn't a run is asked of both calls alike, so that the same answers are expected of them.
#[tactic(auto, using(crate::proofs::Asked::alike))]
pub fn others_are_asked_alike()
    ensures { (asked : Option Asked) → but_run asked ≢ None → but_run asked ≡ asked }
{}

/// A law: where files tell what they hold, one answer alone is expected.
pub fn one_answer()
    ensures { (files : Held) (asked : Option Asked) (a b : Answer) → IsExpected (Some files) asked a → IsExpected (Some files) asked b → a ≡ b }
{
    one_verdict();
}
