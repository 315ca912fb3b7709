//! What the words of the command line ask for.

ghost use Rattle.std.specs.Prelude.{◌≡◌, ℕ, List, map, string_bytes, MatchOption, codes, bytes_eq, Some, None};
ghost use Rattle.std.specs.Option.{option_copied};
ghost use Rattle.cl_words.specs.Lines.{IsLine};
ghost use Rattle.cl_words.specs.Settings.{is_argument, settings, others, value_of, are_sound};
ghost use Rattle.cl_words.specs.Views.{asked_of};
ghost use Rattle.cl_words.specs.Words.{asked, check_read, only_path, path_of, run_read};

use crate::settings::{are_sound, is_argument, others, value_of};

/// What the words of `run` ask for.
#[derive(Clone, Copy, Debug, PartialEq, Eq)]
pub struct Run<'a> {
    /// The path of the source.
    pub source: &'a str,
    /// The path of the journal, where it is to be kept.
    pub journal: Option<&'a str>,
}

/// What the words of a command line ask for.
#[derive(Clone, Copy, Debug, PartialEq, Eq)]
pub enum Command<'a> {
    /// To say whether the source at this path is accepted.
    Check { source: &'a str },
    /// To run a source.
    Run(Run<'a>),
}

impl<'a> Command<'a> {
    /// The path of the source.
    pub fn source(&self) -> &'a str
        ensures { result.now ≡ path_of (asked_of self.now) }
    {
        match self {
            Command::Check { source } => source,
            Command::Run(run) => run.source,
        }
    }
}

/// The path that stands alone in some words.
fn only_path(words: &[String]) -> Option<&str>
    ensures { option_copied result ≡ only_path (map string_bytes words.now) }
{
    let [path] = words else {
        return None;
    };
    let path = path.as_str();
    if is_argument(path) { Some(path) } else { None }
}

/// What the words behind `check` ask for.
fn check_read(words: &[String]) -> Option<Command<'_>>
    ensures { let read = check_read (map string_bytes words.now) in MatchOption result (read ≡ None) (λ command. read ≡ Some (asked_of command)) }
{
    let source = only_path(words)?;
    Some(Command::Check { source })
}

/// What the words behind `run` ask for.
#[tactic(auto, unfolding(crate::specs::Words::run_read))]
fn run_read(words: &[String]) -> Option<Command<'_>>
    ensures { let read = run_read (map string_bytes words.now) in MatchOption result (read ≡ None) (λ command. read ≡ Some (asked_of command)) }
{
    if !are_sound(words) {
        return None;
    }
    let source = only_path(others(words))?;
    let journal = value_of(words, "--journal");
    Some(Command::Run(Run { source, journal }))
}

/// What the words ask for, or None where they have no reading.
pub fn read_words(words: &[String]) -> Option<Command<'_>>
    ensures { let read = asked (map string_bytes words.now) in MatchOption result (read ≡ None) (λ command. read ≡ Some (asked_of command)) }
{
    match words {
        [command, rest @ ..] if command.as_str() == "check" => check_read(rest),
        [command, rest @ ..] if command.as_str() == "run" => run_read(rest),
        _ => None,
    }
}

/// A law: the words are their options with their values, each written as `--x=V` or as `--x V`, and the others behind
/// them.
#[tactic(auto, using(crate::proofs::Lines::line))]
pub fn words_are_a_line()
    ensures { (words : List (List ℕ)) → IsLine (settings words) (others words) words }
{}
