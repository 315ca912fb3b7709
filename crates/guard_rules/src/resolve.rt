//! The rules of a policy with the numbers of what they name.

ghost use Rattle.std.specs.Prelude.{◌≡◌, IfOk, Some};
ghost use Rattle.guard_rules.specs.declared.draft.ActDraft.TheVariants as draft;
ghost use Rattle.guard_rules.specs.Answer.{ActAnswer, DraftAnswer};
ghost use Rattle.guard_rules.specs.Policy.{payload};

use crate::draft::{ActDraft, Field, RuleDraft};
use crate::found::{Paths, Sent};
use crate::names::target_of;
use crate::redact::redact_all;
use cl_base::name::NoMemory;
use cl_mean::law::{GuardAct, Rule};
use std::alloc::Global;

/// The most that a quota lets pass.
const MOST_LEFT: u64 = 1_000_000_000;

/// What a rule does, and whether its numbers are in range.
#[derive(Drop)]
pub(crate) struct Acting {
    pub(crate) act: GuardAct,
    pub(crate) fits: bool,
}

/// A rule, and whether its numbers are in range.
#[derive(Drop)]
pub(crate) struct Resolved {
    pub(crate) rule: Rule,
    pub(crate) fits: bool,
}

/// An act that redacts, with the places of its paths; None where one of them names no integer.
fn redact<'a>(
    alloc: Global,
    paths: &mut Paths<'a>,
    sent: Sent,
    fields: &'a [Field],
) -> Result<Option<Acting>, NoMemory>
    ensures kept { paths.new ≡ paths.old }
    ensures answer { IfOk result (ActAnswer (payload paths.old sent.function sent.reply) (draft.Redact fields.now)) }
{
    match redact_all(alloc, paths, sent, fields)? {
        Some(redacted) => Ok(Some(Acting {
            act: GuardAct::Redact(redacted.patches),
            fits: redacted.fits,
        })),
        None => Ok(None),
    }
}

fn plain(act: GuardAct, fits: bool) -> Option<Acting>
    ensures { result ≡ Some (record { act = act; fits = fits }) }
{
    Some(Acting { act, fits })
}

/// An act with the places of its paths; None where one of them names no integer.
fn act_of<'a>(
    alloc: Global,
    paths: &mut Paths<'a>,
    sent: Sent,
    act: &'a ActDraft,
) -> Result<Option<Acting>, NoMemory>
    ensures kept { paths.new ≡ paths.old }
    ensures answer { IfOk result (ActAnswer (payload paths.old sent.function sent.reply) act.now) }
{
    match act {
        ActDraft::Allow => Ok(plain(GuardAct::Allow, true)),
        ActDraft::Block => Ok(plain(GuardAct::Block, true)),
        ActDraft::Quota(left) => Ok(plain(GuardAct::Quota(*left), *left <= MOST_LEFT)),
        ActDraft::Redact(fields) => redact(alloc, paths, sent, fields.as_slice()),
    }
}

/// The rule that a rule of a policy is; None where it names no level, no row or no path.
#[tactic(auto, unfolding(crate::specs::Policy::is_named, crate::specs::Policy::is_within, crate::specs::Policy::rule_of))]
pub(crate) fn resolve_rule<'a>(
    alloc: Global,
    paths: &mut Paths<'a>,
    draft: &'a RuleDraft,
) -> Result<Option<Resolved>, NoMemory>
    ensures kept { paths.new ≡ paths.old }
    ensures answer { IfOk result (DraftAnswer paths.old draft.now) }
{
    let Some(target) = target_of(paths.checked(), draft)? else {
        return Ok(None);
    };
    let reply = draft.reply;
    let function = target.function;
    let sent = Sent { function, reply };
    let Some(acting) = act_of(alloc, paths, sent, &draft.act)? else {
        return Ok(None);
    };
    let rule = Rule {
        from: Some(target.from),
        to: Some(target.to),
        function,
        reply,
        act: acting.act,
    };
    Ok(Some(Resolved {
        rule,
        fits: acting.fits,
    }))
}
