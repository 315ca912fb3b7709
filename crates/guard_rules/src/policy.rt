//! Policies: laws that are read from JSON.

ghost use Rattle.std.specs.Prelude.{◌≡◌, ◌⊎◌, ℕ, List, map, not, IfOk, IfErr, MatchResult};
ghost use Rattle.std.specs.List.{position};
ghost use Rattle.serde_json.specs.View.{view};
ghost use Rattle.cl_mean.specs.declared.checked.Checked.{Checked as CheckedValue};
ghost use Rattle.cl_mean.specs.declared.law.Law.{Law as LawValue};
ghost use Rattle.guard_rules.specs.Answer.{CountAnswer, EachAnswer, HasFailure, HasLaw, IsFirst, IsStop, LawAnswer, PolicyAnswer, ResolvedAnswer, ShapeAnswer, TextAnswer, ValueAnswer};
ghost use Rattle.guard_rules.specs.Policy.{IsPolicy, policy_rules, PolicyFails};
ghost use Rattle.cl_labelling.specs.Json.{json_of};
ghost use Rattle.guard_rules.specs.Text.{value_of};

use crate::draft::{ActDraft, RuleDraft};
use crate::found::Paths;
use crate::resolve::{Resolved, resolve_rule};
use crate::text::{rule_in, rules_under};
use cl_base::name::NoMemory;
use cl_mean::checked::Checked;
use cl_mean::law::{Law, Rules};
use serde_json::Value;
use std::alloc::{AllocFailed, Global};

/// The most bytes of a policy.
const MOST_BYTES: usize = 1_048_576;

/// The most rules of a policy.
const MOST_RULES: usize = 1_024;

/// Why a policy has no law.
#[derive(Clone, Copy, Debug, PartialEq, Eq)]
pub enum PolicyStop {
    /// The policy breaks a rule for policies, P1 to P5, at this place: 0 for the whole, or else the number of its rule, from 1.
    Rule { rule: u8, at: u32 },
    /// Memory ran out.
    NoMemory,
}

impl From<NoMemory> for PolicyStop {
    ghost use Rattle.guard_rules.specs.declared.policy.PolicyStop.TheVariants.{NoMemory};

    ghost from_gives = { λ e s. s ≡ NoMemory };

    fn from(_error: NoMemory) -> PolicyStop {
        PolicyStop::NoMemory
    }
}

impl<T: Drop> From<AllocFailed<T>> for PolicyStop {
    ghost use Rattle.guard_rules.specs.declared.policy.PolicyStop.TheVariants.{NoMemory};

    ghost from_gives = { λ e s. s ≡ NoMemory };

    fn from(_refused: AllocFailed<T>) -> PolicyStop {
        PolicyStop::NoMemory
    }
}

/// A rule for policies that fails at the rule of an index; a number of more than 32 bits is want of memory.
fn stop_at(rule: u8, index: usize) -> PolicyStop
    ensures { IsStop rule index result }
{
    match u32::try_from(index) {
        Ok(index) => match index.checked_add(1) {
            Some(at) => PolicyStop::Rule { rule, at },
            None => PolicyStop::NoMemory,
        },
        Err(_) => PolicyStop::NoMemory,
    }
}

fn json_in(alloc: Global, bytes: &[u8]) -> Result<Value, PolicyStop>
    ensures { ValueAnswer (json_of bytes.now) result }
{
    match Value::from_slice(alloc, bytes) {
        Ok(value) => Ok(value),
        Err(error) => {
            if error.is_memory() {
                return Err(PolicyStop::NoMemory);
            }
            Err(PolicyStop::Rule { rule: 1, at: 0 })
        }
    }
}

/// The JSON value of a policy.
#[tactic(auto, unfolding(crate::specs::Text::value_of))]
fn value_of(alloc: Global, bytes: &[u8]) -> Result<Value, PolicyStop>
    ensures { ValueAnswer (value_of bytes.now) result }
{
    if bytes.len() <= MOST_BYTES {
        json_in(alloc, bytes)
    } else {
        Err(PolicyStop::Rule { rule: 1, at: 0 })
    }
}

/// The rules of a list that is one of rules.
fn each_rule(alloc: Global, parts: &[Value]) -> Result<Vec<RuleDraft>, PolicyStop>
    ensures { EachAnswer (map view parts.now) result }
{
    let mut drafts = Vec::new(alloc);
    for part in parts {
        match rule_in(alloc, part)? {
            Some(draft) => drafts.push(draft)?,
            None => return Err(stop_at(2, drafts.len())),
        }
    }
    Ok(drafts)
}

/// The rules of a policy.
fn rules_in(alloc: Global, value: &Value) -> Result<Vec<RuleDraft>, PolicyStop>
    ensures { ShapeAnswer (view value.now) result }
{
    match rules_under(value) {
        Some(parts) => each_rule(alloc, parts),
        None => Err(PolicyStop::Rule { rule: 2, at: 0 }),
    }
}

/// The rules of the policy that a text is.
#[tactic(auto, unfolding(crate::specs::Text::drafts_of))]
fn drafts_of(alloc: Global, bytes: &[u8]) -> Result<Vec<RuleDraft>, PolicyStop>
    ensures { TextAnswer bytes.now result }
{
    let value = value_of(alloc, bytes)?;
    rules_in(alloc, &value)
}

/// The fields of a rule.
fn fields_of(draft: &RuleDraft) -> usize {
    match &draft.act {
        ActDraft::Redact(fields) => fields.len(),
        _ => 0,
    }
}

/// Room for the paths of all fields of these rules.
fn paths_for<'a>(
    alloc: Global,
    checked: &'a Checked,
    drafts: &[RuleDraft],
) -> Result<Paths<'a>, NoMemory>
    ensures { IfOk result (λ p. p ≡ checked.now) }
{
    let mut count: usize = 0;
    for draft in drafts {
        count = count.saturating_add(fields_of(draft));
    }
    Paths::new(alloc, checked, count)
}

/// The rules with the numbers of what they name.
fn resolve_all(
    alloc: Global,
    checked: &Checked,
    drafts: &[RuleDraft],
) -> Result<Vec<Resolved>, PolicyStop>
    ensures { ResolvedAnswer checked.now drafts.now result }
{
    let mut paths = paths_for(alloc, checked, drafts)?;
    let mut rules = Vec::new(alloc);
    for draft in drafts {
        match resolve_rule(alloc, &mut paths, draft)? {
            Some(rule) => rules.push(rule)?,
            None => return Err(stop_at(3, rules.len())),
        }
    }
    Ok(rules)
}

/// The first rule with a number that isn't in range.
fn first_unfit(rules: &[Resolved]) -> Option<usize>
    ensures { result ≡ position (λ r. not r.fits) rules.now }
{
    rules.iter().position(|rule| !rule.fits)
}

fn rules_of(alloc: Global, resolved: Vec<Resolved>) -> Result<Rules, NoMemory>
    ensures { IfOk result (λ rules. rules ≡ map (λ r. r.rule) resolved.items) }
{
    let rules = resolved.into_iter().map(|r| r.rule).collect(alloc)?;
    Ok(Rules::from_vec(rules))
}

/// The law of rules, unless they are too many.
fn counted(alloc: Global, drafts: &[RuleDraft], resolved: Vec<Resolved>) -> Result<Law, PolicyStop>
    ensures { CountAnswer drafts.now resolved.items result }
{
    if drafts.len() <= MOST_RULES {
        let rules = rules_of(alloc, resolved)?;
        Ok(Law { rules })
    } else {
        Err(PolicyStop::Rule { rule: 5, at: 0 })
    }
}

/// The law that these rules are.
fn law_of(alloc: Global, checked: &Checked, drafts: &[RuleDraft]) -> Result<Law, PolicyStop>
    ensures { LawAnswer checked.now drafts.now result }
{
    let resolved = resolve_all(alloc, checked, drafts)?;
    match first_unfit(&resolved) {
        Some(index) => Err(stop_at(4, index)),
        None => counted(alloc, drafts, resolved),
    }
}

fn read(alloc: Global, bytes: &[u8], checked: &Checked) -> Result<Law, PolicyStop>
    ensures { PolicyAnswer checked.now bytes.now result }
{
    let drafts = drafts_of(alloc, bytes)?;
    law_of(alloc, checked, &drafts)
}

/// Reads a policy for a checked source: the law that has a rule for each rule of the policy, in order. Since the law has a patch
/// of 32 bytes for each integer under each path, time and memory grow with the number of these and not only with the text.
///
/// # Errors
///
/// The first of the rules for policies that fails, P1 to P5, with its first place; or want of memory, with which a policy
/// of 2^32 rules, or an integer at a place of a payload past 2^32, ends too, since their numbers have 32 bits.
pub fn read_policy(alloc: Global, bytes: &[u8], checked: &Checked) -> Result<Law, PolicyStop>
    // What is answered is the policy's law, and no rule for policies fails.
    ensures found { IfOk result (λ law. IsPolicy checked.now bytes.now law) }
    // What has a law is read as it, unless memory runs out.
    ensures only { (law : LawValue) → IsPolicy checked.now bytes.now law → MatchResult result (λ x. x ≡ law) (λ e. e ≡ PolicyStop.NoMemory) }
    // A refusal names the first rule for policies that fails, and its first place.
    ensures fails { IfErr result (λ e. IsFirst (policy_rules checked.now bytes.now) e) }
    // Where one fails, the refusal names the first one and its first place.
    ensures rule { (number place : ℕ) → PolicyFails checked.now bytes.now number place
        → MatchResult result (λ _. ⊥) (λ e. (e ≡ PolicyStop.Rule number place) ⊎ (e ≡ PolicyStop.NoMemory)) }
{
    read(alloc, bytes, checked)
}

/// A law: a text has a policy's law or a rule for policies that fails first, and not both; it has no two laws, and it fails in no two ways.
pub fn one_answer()
    ensures some { (checked : CheckedValue) (text : List ℕ) → HasLaw checked text ⊎ HasFailure checked text }
    ensures not_both { (checked : CheckedValue) (text : List ℕ) → HasLaw checked text → HasFailure checked text → ⊥ }
    ensures one_law { (checked : CheckedValue) (text : List ℕ) (x y : LawValue) → IsPolicy checked text x → IsPolicy checked text y → x ≡ y }
    ensures one_failure { (checked : CheckedValue) (text : List ℕ) (rule place r p : ℕ) → PolicyFails checked text rule place
        → PolicyFails checked text r p → (rule ≡ r) × (place ≡ p) }
{}
