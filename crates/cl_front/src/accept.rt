//! The front end: whether a source is accepted.

ghost use Rattle.std.specs.Prelude.{◌≡◌, ◌⊎◌, ◌≤◌, ℕ, List, length, IfOk, IfErr, MatchResult};
ghost use Rattle.cl_base.specs.declared.limits.TheConstants.{SOURCE_BYTES};
ghost use Rattle.cl_mean.specs.declared.checked.Checked.{Checked as CheckedValue};
ghost use Rattle.cl_front.specs.Verdict.{IsAccepted, IsRefused, IsRefusal, Verdict};

use crate::stop::FrontStop;
use cl_mean::checked::Checked;
use cl_read::read::read_source;
use cl_sema::resolve::resolve;
use cl_split::assign::assign;
use cl_split::crossings::crossings;
use cle_defs::labels::labels;
use cle_flow::flow::flow;
use std::alloc::Global;

fn accept_source(alloc: Global, bytes: &[u8]) -> Result<Checked, FrontStop>
    requires { length bytes.now ≤ SOURCE_BYTES }
    ensures { Verdict bytes.now result }
{
    let program = read_source(alloc, bytes)?;
    let typed = resolve(alloc, program)?;
    let labels = labels(alloc, &typed)?;
    let levels = assign(alloc, &typed, &labels)?;
    let gedl = crossings(alloc, &typed, &labels, &levels)?;
    let flow = flow(alloc, &typed, &labels, &levels)?;
    Ok(Checked {
        typed,
        labels,
        levels,
        flow,
        gedl,
    })
}

/// Whether a source meets the rules E02 to E35, and what is found out about it: the whole verdict.
///
/// # Errors
///
/// The first rule that fails, with the line of its first place, in this order: E02 to E05 and E07, whichever
/// place is first; E23, E06; E08, E09, E19, E18, E20, E21, E22; E10 to E17, E35; E24 to E34. Or want of memory.
pub fn accept(alloc: Global, bytes: &[u8]) -> Result<Checked, FrontStop>
    requires { length bytes.now ≤ SOURCE_BYTES }
    // What is answered is the checked source, and no rule fails.
    ensures found { IfOk result (λ c. IsAccepted bytes.now c) }
    // What is to be accepted is answered so, unless memory runs out.
    ensures only { (c : CheckedValue) → IsAccepted bytes.now c → MatchResult result (λ x. x ≡ c) (λ e. e ≡ FrontStop.NoMemory) }
    // A refusal names the first rule that fails, and its first place.
    ensures fails { IfErr result (λ e. IsRefusal bytes.now e) }
    // Where a rule fails, the refusal names the first one and its first place.
    ensures rule { (rule line : ℕ) → IsRefused bytes.now rule line
        → MatchResult result (λ _. ⊥) (λ e. (e ≡ FrontStop.Refused rule line) ⊎ (e ≡ FrontStop.NoMemory)) }
{
    accept_source(alloc, bytes)
}

/// A law: no source is accepted and refused; none is accepted in two ways, and none refused in two ways.
pub fn one_verdict()
    ensures not_both { (source : List ℕ) (c : CheckedValue) (rule line : ℕ) → IsAccepted source c → IsRefused source rule line → ⊥ }
    ensures one_checked { (source : List ℕ) (x c : CheckedValue) → IsAccepted source x → IsAccepted source c → x ≡ c }
    ensures one_refusal { (source : List ℕ) (rule line r l : ℕ) → IsRefused source rule line → IsRefused source r l → (rule ≡ r) × (line ≡ l) }
{}
