//! E13: whether what a program names is there.

ghost use Rattle.std.specs.Prelude.{◌≡◌, Some};
ghost use Rattle.std.specs.List.{list_all};
ghost use Rattle.cl_labelling.specs.Names as named;
ghost use Rattle.cl_scope.specs.Finds.{Finds};
ghost use Rattle.cle_names.specs.Names.{named_by};

use crate::labels::Labels;
use crate::rules::has_level;
use crate::seen::Seen;
use cl_base::name::Name;
use cl_labelling::draft::{Draft, EntryDraft, Names, TaintsDraft};
use cl_scope::search::unless;
use cl_scope::stop::Stop;
use cl_tree::token::Pragma;

/// What names may stand for: the levels and the labels of a program.
#[derive(Drop)]
pub struct Known<'k, 'a> {
    pub levels: &'k [Name],
    pub labels: &'k Labels<'a>,
}

/// Whether a name of a taint list is one of a label, or `@` and the name of a level.
#[tactic(auto, unfolding(cl_labelling::specs::Names::is_mentioned))]
fn is_mentioned(known: &Known<'_, '_>, name: &Name) -> bool
    ensures { result ≡ named.is_mentioned (named_by known.now) name.now }
{
    let Some((first, rest)) = name.as_bytes().split_first() else {
        return false;
    };
    if *first == b'@' {
        return has_level(known.levels, rest);
    }
    known.labels.has(name)
}

fn all_mentioned(known: &Known<'_, '_>, names: &[Name]) -> bool
    ensures { result ≡ named.all_mentioned (named_by known.now) names.now }
{
    for name in names {
        if !is_mentioned(known, name) {
            return false;
        }
    }
    true
}

fn lists_mentioned(known: &Known<'_, '_>, lists: &[Names]) -> bool
    ensures { result ≡ list_all (λ a. named.all_mentioned (named_by known.now) a.all) lists.now }
{
    for list in lists {
        if !all_mentioned(known, list.all.as_slice()) {
            return false;
        }
    }
    true
}

fn taints_known(known: &Known<'_, '_>, taints: &Option<TaintsDraft>) -> bool
    ensures { result ≡ named.taints_known (named_by known.now) taints.now }
{
    match taints {
        Some(t) => {
            lists_mentioned(known, t.args.as_slice())
                && all_mentioned(known, t.code.as_slice())
                && all_mentioned(known, t.result.as_slice())
        }
        None => true,
    }
}

fn remotes_known(known: &Known<'_, '_>, entries: &[EntryDraft]) -> bool
    ensures { result ≡ list_all (λ e. named.has_word (named_by known.now).levels e.remote) entries.now }
{
    for entry in entries {
        if !has_level(known.levels, entry.remote.as_bytes()) {
            return false;
        }
    }
    true
}

fn draft_known(known: &Known<'_, '_>, draft: &Draft) -> bool
    ensures { result ≡ named.draft_known (named_by known.now) (Some draft.now) }
{
    remotes_known(known, draft.entries.as_slice()) && taints_known(known, &draft.taints)
}

fn pragma_known(known: &Known<'_, '_>, seen: &Seen<'_>) -> bool
    ensures { result ≡ named.pragma_known (named_by known.now) seen.now.pragma }
{
    match seen.pragma() {
        Pragma::Def(_, _) => match seen.draft() {
            Some(draft) => draft_known(known, draft),
            None => true,
        },
        Pragma::Begin(name) | Pragma::End(name) | Pragma::Next(name) => known.labels.has(name),
    }
}

/// The first pragma that names a label that isn't there, or whose definition names a label or level that isn't.
#[tactic(auto, unfolding(cl_labelling::specs::Names::not_known), using(cl_scope::proofs::Searches::searches))]
pub fn look_known(known: &Known<'_, '_>, all: &[Seen<'_>]) -> Result<(), Stop>
    ensures { Finds result (named.not_known (named_by known.now) all.now) }
{
    for seen in all {
        unless(pragma_known(known, seen), seen.line())?;
    }
    Ok(())
}
