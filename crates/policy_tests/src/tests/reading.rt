//! Policies, read for the source of the tests.

use cl_base::name::NoMemory;
use cl_mean::law::Law;
use guard_rules::policy::{PolicyStop, read_policy};
use policy_source::source::checked;
use std::alloc::Global;

/// What is answered to a policy: how many rules the law has, or the rule that fails and its place.
#[derive(Clone, Copy, PartialEq, Eq)]
pub(crate) enum Outcome {
    Rules(usize),
    Fails(u8, u32),
    NoMemory,
}

/// What a policy is read as. The checked source is held here alone: where a function with many exits holds it, each exit's proof
/// drops the tree.
pub(crate) fn read(alloc: Global, text: &str) -> Result<Result<Law, PolicyStop>, NoMemory> {
    let checked = checked(alloc)?;
    Ok(read_policy(alloc, text.as_bytes(), &checked))
}

fn outcome_of(answer: &Result<Law, PolicyStop>) -> Outcome {
    match answer {
        Ok(law) => Outcome::Rules(law.rules.as_slice().len()),
        Err(PolicyStop::Rule { rule, at }) => Outcome::Fails(*rule, *at),
        Err(PolicyStop::NoMemory) => Outcome::NoMemory,
    }
}

/// Whether a policy is answered so.
pub(crate) fn answers(alloc: Global, text: &str, wanted: Outcome) -> Result<bool, NoMemory> {
    let answer = read(alloc, text)?;
    Ok(outcome_of(&answer) == wanted)
}
