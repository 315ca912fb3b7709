//! Laws: what a policy or a guard does to the calls across levels.

ghost use Rattle.std.specs.Prelude.{◌≡◌, ◌<◌, IfSome, length};
ghost use Rattle.std.specs.List.{list_all, position};
ghost use Rattle.cl_mean.specs.Judging.{patched, act_on, is_idle_act, is_idle_rule, is_for, is_matched, rules_judge, judge, is_idle};

use sqlite_items::Items;
use std::alloc::Global;
use std::marker::Model;

/// A request or a reply of a function that one level calls at another.
#[derive(Clone, Copy, PartialEq, Eq)]
pub struct Asked {
    pub from: u32,
    pub to: u32,
    pub function: u32,
    pub reply: bool,
}

/// Another number at a place of a payload, whose integers are counted from 0.
#[derive(Clone, Copy, PartialEq, Eq)]
pub struct Patch {
    pub at: u32,
    pub with: i128,
}

/// What is done to a request or a reply that a rule matches.
#[derive(Drop)]
pub enum GuardAct {
    Allow,
    Block,
    Redact(Items<Patch>),
    Quota(u64),
    Veil(u64, Items<Patch>),
}

/// A rule. What is None matches all.
#[derive(Drop)]
pub struct Rule {
    pub from: Option<u32>,
    pub to: Option<u32>,
    pub function: Option<u32>,
    pub reply: bool,
    pub act: GuardAct,
}

/// Rules in order. Contracts see the list of them.
#[derive(Drop)]
pub struct Rules {
    rules: Vec<Rule>,
}

impl Model for Rules {
    ghost use Rattle.std.specs.Prelude.{List};
    ghost use Rattle.cl_mean.specs.declared.law.Rule.{Rule};

    ghost Value = { List Rule };

    ghost view = { λ r. r.rules.items };
}

/// Rules of which the first that matches decides.
#[derive(Drop)]
pub struct Law {
    pub rules: Rules,
}

/// Whether something may cross.
#[derive(Clone, Copy, Debug, PartialEq, Eq)]
pub enum Ruling {
    Pass,
    Block,
}

impl Rules {
    /// The rules of a vector, in its order.
    pub fn from_vec(rules: Vec<Rule>) -> Rules
        ensures { result ≡ rules.items }
    {
        Rules { rules }
    }

    pub fn as_slice(&self) -> &[Rule]
        ensures { result.now ≡ self.now }
    {
        self.rules.as_slice()
    }

    fn judge(&mut self, asked: Asked, values: &mut [i128]) -> Ruling
        ensures { rules_judge (λ n. n) self.old asked values.old ≡ record { ruling = result; law = self.new; values = values.new } }
    {
        let found = first_match(self.rules.as_slice(), asked);
        match found {
            None => Ruling::Pass,
            Some(at) => self.rules[at].act.act(values),
        }
    }
}

/// Puts each patch's number at its place, if there is such a place.
#[tactic(auto, unfolding(crate::specs::Judging::patched))]
fn put_patches(patches: &[Patch], values: &mut [i128])
    ensures { values.new ≡ patched (λ n. n) patches.now values.old }
{
    for patch in patches {
        let at = patch.at as usize;
        if at < values.len() {
            values[at] = patch.with;
        }
    }
}

impl GuardAct {
    /// Acts on the values of what crosses.
    #[tactic(auto, unfolding(crate::specs::Judging::act_on))]
    fn act(&mut self, values: &mut [i128]) -> Ruling
        ensures { act_on (λ n. n) self.old values.old ≡ record { ruling = result; act = self.new; values = values.new } }
    {
        match self {
            GuardAct::Allow => Ruling::Pass,
            GuardAct::Block => Ruling::Block,
            GuardAct::Redact(patches) => {
                put_patches(patches.as_slice(), values);
                Ruling::Pass
            }
            GuardAct::Quota(left) => {
                if *left == 0 {
                    Ruling::Block
                } else {
                    *left -= 1;
                    Ruling::Pass
                }
            }
            GuardAct::Veil(left, patches) => {
                if *left > 0 {
                    *left -= 1;
                    put_patches(patches.as_slice(), values);
                }
                Ruling::Pass
            }
        }
    }

    #[tactic(auto, unfolding(crate::specs::Judging::is_idle_act))]
    fn is_idle(&self) -> bool
        ensures { result ≡ is_idle_act self.now }
    {
        matches!(self, GuardAct::Allow | GuardAct::Veil(0, _))
    }
}

impl Rule {
    #[tactic(auto, unfolding(crate::specs::Judging::is_matched))]
    fn matches(&self, asked: Asked) -> bool
        ensures { result ≡ is_matched self.now asked }
    {
        is_for(self.from, asked.from)
            && is_for(self.to, asked.to)
            && is_for(self.function, asked.function)
            && self.reply == asked.reply
    }
}

/// Whether what a rule names is this; None names all.
fn is_for(named: Option<u32>, number: u32) -> bool
    ensures { result ≡ is_for named number }
{
    named.is_none_or(|n| n == number)
}

impl Law {
    /// Has the first rule that matches act on the values, in place. Where none matches they pass.
    #[tactic(auto, unfolding(crate::specs::Judging::judge))]
    pub fn judge(&mut self, asked: Asked, values: &mut [i128]) -> Ruling
        ensures { judge (λ n. n) self.old asked values.old ≡ record { ruling = result; law = self.new; values = values.new } }
    {
        self.rules.judge(asked, values)
    }

    /// Whether the law lets everything pass as it is, from now on.
    #[tactic(auto, unfolding(crate::specs::Judging::is_idle))]
    pub fn idle(&self) -> bool
        ensures { result ≡ is_idle self.now }
    {
        all_idle(self.rules.as_slice())
    }
}

fn all_idle(rules: &[Rule]) -> bool
    ensures { result ≡ list_all is_idle_rule rules.now }
{
    rules.iter().all(|rule| rule.act.is_idle())
}

/// The place of the first rule that matches.
fn first_match(rules: &[Rule], asked: Asked) -> Option<usize>
    ensures place { result ≡ position (λ rule. is_matched rule asked) rules.now }
    ensures within { IfSome result (λ at. at < length rules.now) }
{
    rules.iter().position(|rule| rule.matches(asked))
}
