//! The texts that the program writes.

ghost use Rattle.std.specs.Prelude.{◌≡◌, IfOk, codes, string_bytes, ◌++◌, ◌∷◌, [], OnOk};
ghost use Rattle.cl_job.specs.Texts.{usage_text, refusal_text, read_fault_text, write_fault_text, cause_word, level_head, end_text, last_text, name_at};

use cl_base::name::Name;
use cl_mean::outcome::{End, Trap};
use cl_rules::rule::Refusal;
use cl_tree::kinds::TrapCause;
use std::alloc::{AllocError, Global};

/// The text of a refusal.
#[tactic(auto, unfolding(crate::specs::Texts::refusal_text))]
pub fn refusal_text(alloc: Global, refusal: Refusal) -> Result<String, AllocError>
    ensures { IfOk result (λ text. string_bytes text ≡ refusal_text refusal) }
{
    format!(in alloc; "closure: {refusal}\n")
}

/// The text of a read that failed.
#[tactic(auto, unfolding(crate::specs::Texts::read_fault_text))]
pub fn read_fault_text(alloc: Global, path: &str) -> Result<String, AllocError>
    ensures { IfOk result (λ text. string_bytes text ≡ read_fault_text path.now) }
{
    format!(in alloc; "closure: cannot read {path}\n")
}

/// The text of a write that failed.
#[tactic(auto, unfolding(crate::specs::Texts::write_fault_text))]
pub fn write_fault_text(alloc: Global, path: &str) -> Result<String, AllocError>
    ensures { IfOk result (λ text. string_bytes text ≡ write_fault_text path.now) }
{
    format!(in alloc; "closure: cannot write {path}\n")
}

/// The word for a cause of a trap.
#[tactic(auto, unfolding(crate::specs::Texts::cause_word))]
pub fn cause_word(cause: TrapCause) -> &'static str
    ensures { result.now ≡ cause_word cause }
{
    match cause {
        TrapCause::Overflow => "overflow",
        TrapCause::Divide => "divide",
        TrapCause::Shift => "shift",
        TrapCause::Index => "index",
        TrapCause::Return => "return",
        TrapCause::Steps => "steps",
        TrapCause::Depth => "depth",
        TrapCause::Output => "output",
        TrapCause::Frames => "frames",
    }
}

/// The line before the bytes of a level.
#[tactic(auto, unfolding(crate::specs::Texts::level_head))]
pub fn level_head(alloc: Global, name: &str, length: usize) -> Result<String, AllocError>
    ensures { IfOk result (λ text. string_bytes text ≡ level_head name.now length) }
{
    format!(in alloc; "level {name} {length} bytes\n")
}

/// The name of a level by its number, or none.
#[tactic(auto, unfolding(crate::specs::Texts::name_at))]
pub(crate) fn name_at(names: &[Name], level: u32) -> &str
    ensures { result.now ≡ name_at names.now level }
{
    match names.get(level as usize) {
        Some(name) => name.text(),
        None => "",
    }
}

/// How a run ended.
#[tactic(auto, unfolding(crate::specs::Texts::end_text))]
fn end_text(alloc: Global, names: &[Name], end: End) -> Result<String, AllocError>
    ensures { IfOk result (λ text. string_bytes text ≡ end_text names.now end) }
{
    match end {
        End::Exit(value) => format!(in alloc; "exit {value}"),
        End::Trapped(level, trap) => {
            let name = name_at(names, level);
            let cause = cause_word(trap.cause);
            let line = trap.line;
            format!(in alloc; "trap {name} {cause} line {line}")
        }
    }
}

/// The last two lines of a run: how many frames crossed, and how it ended.
#[tactic(auto, unfolding(crate::specs::Texts::last_text))]
pub fn last_text(alloc: Global, names: &[Name], frames: u64, end: End) -> Result<String, AllocError>
    ensures { IfOk result (λ text. string_bytes text ≡ last_text names.now frames end) }
{
    let end = end_text(alloc, names, end)?;
    let end = end.as_str();
    format!(in alloc; "frames {frames}\nend {end}\n")
}
