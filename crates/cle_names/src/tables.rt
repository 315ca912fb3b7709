//! The table of labels: what definitions say, with numbers in place of names.

ghost use Rattle.std.specs.Prelude.{◌≡◌, ◌≤◌, ◌<◌, ◌^◌, ◌++◌, map, option_map, length, bytes_eq, IfOk, OnOk};
ghost use Rattle.cl_labelling.specs.Names as named;
ghost use Rattle.std.specs.List.{flat_map};
ghost use Rattle.cle_names.specs.Names.{named_by, IsSmall, facts_at, facts_of, labels_in};

use crate::copies::copy_fields;
use crate::known::Known;
use crate::seen::Seen;
use cl_base::name::{Name, NoMemory};
use cl_labelling::draft::{Draft, EntryDraft, Names, TaintsDraft};
use cl_mean::labels::{Entry, LabelFact, Mention, Mentions, Taints};
use cl_tree::token::Pragma;
use sqlite_items::Items;
use std::alloc::Global;

fn is_level(known: &Name, level: &[u8]) -> bool
    ensures { result ≡ bytes_eq known.now level.now }
{
    known.as_bytes() == level
}

/// The number of a level: behind the last where it isn't there.
fn level_number(levels: &[Name], level: &[u8]) -> usize
    ensures number { result ≡ named.number_of levels.now level.now }
    ensures within { result ≤ length levels.now }
{
    let mut number = 0;
    for known in levels {
        if is_level(known, level) {
            return number;
        }
        number += 1;
    }
    number
}

#[tactic(auto, unfolding(cl_labelling::specs::Names::mention_of))]
fn mention_of(known: &Known<'_, '_>, name: &Name) -> Mention
    requires { IsSmall (named_by known.now) }
    ensures { result ≡ named.mention_of (named_by known.now) name.now }
{
    let Some((first, rest)) = name.as_bytes().split_first() else {
        return Mention::Label(known.labels.number(name) as u32);
    };
    if *first == b'@' {
        return Mention::Level(level_number(known.levels, rest) as u32);
    }
    Mention::Label(known.labels.number(name) as u32)
}

fn mentions_of(
    alloc: Global,
    known: &Known<'_, '_>,
    names: &[Name],
) -> Result<Items<Mention>, NoMemory>
    requires { IsSmall (named_by known.now) }
    ensures { IfOk result (λ ms. ms ≡ named.mentions_of (named_by known.now) names.now) }
{
    let mut mentions = Items::new(alloc);
    for name in names {
        mentions.push(mention_of(known, name))?;
    }
    Ok(mentions)
}

fn lists_of(
    alloc: Global,
    known: &Known<'_, '_>,
    lists: &[Names],
) -> Result<Items<Mentions>, NoMemory>
    requires { IsSmall (named_by known.now) }
    ensures { IfOk result (λ ls. ls ≡ map (λ a. record { all = named.mentions_of (named_by known.now) a.all }) lists.now) }
{
    let mut found = Items::new(alloc);
    for list in lists {
        let all = mentions_of(alloc, known, list.all.as_slice())?;
        found.push(Mentions { all })?;
    }
    Ok(found)
}

fn taints_of(alloc: Global, known: &Known<'_, '_>, taints: &TaintsDraft) -> Result<Taints, NoMemory>
    requires { IsSmall (named_by known.now) }
    ensures { IfOk result (λ t. t ≡ named.taints_of (named_by known.now) taints.now) }
{
    let args = lists_of(alloc, known, taints.args.as_slice())?;
    let code = mentions_of(alloc, known, taints.code.as_slice())?;
    let result = mentions_of(alloc, known, taints.result.as_slice())?;
    Ok(Taints { args, code, result })
}

fn maybe_taints(
    alloc: Global,
    known: &Known<'_, '_>,
    taints: &Option<TaintsDraft>,
) -> Result<Option<Taints>, NoMemory>
    requires { IsSmall (named_by known.now) }
    ensures { IfOk result (λ t. t ≡ option_map (named.taints_of (named_by known.now)) taints.now) }
{
    match taints {
        Some(t) => Ok(Some(taints_of(alloc, known, t)?)),
        None => Ok(None),
    }
}

fn entry_of(alloc: Global, known: &Known<'_, '_>, entry: &EntryDraft) -> Result<Entry, NoMemory>
    requires { IsSmall (named_by known.now) }
    ensures { IfOk result (λ e. e ≡ named.entry_of (named_by known.now) entry.now) }
{
    let redact = copy_fields(alloc, entry.redact.as_slice())?;
    Ok(Entry {
        remote: level_number(known.levels, entry.remote.as_bytes()) as u32,
        direction: entry.direction,
        operation: entry.operation,
        redact,
        oneway: false,
    })
}

fn entries_of(
    alloc: Global,
    known: &Known<'_, '_>,
    entries: &[EntryDraft],
) -> Result<Items<Entry>, NoMemory>
    requires { IsSmall (named_by known.now) }
    ensures { IfOk result (λ es. es ≡ map (named.entry_of (named_by known.now)) entries.now) }
{
    let mut found = Items::new(alloc);
    for entry in entries {
        found.push(entry_of(alloc, known, entry)?)?;
    }
    Ok(found)
}

fn fact_of(
    alloc: Global,
    known: &Known<'_, '_>,
    name: &Name,
    draft: &Draft,
    line: u32,
) -> Result<LabelFact, NoMemory>
    requires { IsSmall (named_by known.now) }
    ensures { IfOk result (λ f. f ≡ facts_of (named_by known.now) name.now draft.now line) }
{
    let entries = entries_of(alloc, known, draft.entries.as_slice())?;
    let taints = maybe_taints(alloc, known, &draft.taints)?;
    Ok(LabelFact {
        name: name.copy(alloc)?,
        level: level_number(known.levels, draft.level.as_bytes()) as u32,
        entries,
        taints,
        line,
    })
}

/// The label that a pragma defines joins the table.
fn add_fact(
    alloc: Global,
    known: &Known<'_, '_>,
    facts: &mut Items<LabelFact>,
    seen: &Seen<'_>,
) -> Result<(), NoMemory>
    requires { IsSmall (named_by known.now) }
    ensures { OnOk result (facts.new ≡ facts.old ++ facts_at (named_by known.now) seen.now) }
{
    match seen.pragma() {
        Pragma::Def(name, _) => {
            if let Some(draft) = seen.draft() {
                facts.push(fact_of(alloc, known, name, draft, seen.line())?)?;
            }
            Ok(())
        }
        Pragma::Begin(_) | Pragma::End(_) | Pragma::Next(_) => Ok(()),
    }
}

fn all_facts(
    alloc: Global,
    known: &Known<'_, '_>,
    all: &[Seen<'_>],
) -> Result<Items<LabelFact>, NoMemory>
    requires { IsSmall (named_by known.now) }
    ensures { IfOk result (λ facts. facts ≡ flat_map (facts_at (named_by known.now)) all.now) }
{
    let mut facts = Items::new(alloc);
    for seen in all {
        add_fact(alloc, known, &mut facts, seen)?;
    }
    Ok(facts)
}

/// The labels that pragmas define, in their order, with the numbers of what they name. Levels and labels have numbers of
/// 32 bits.
pub fn labels_of(
    alloc: Global,
    known: &Known<'_, '_>,
    all: &[Seen<'_>],
) -> Result<Items<LabelFact>, NoMemory>
    requires { IsSmall (named_by known.now) }
    ensures { IfOk result (λ facts. facts ≡ labels_in (named_by known.now) all.now) }
{
    all_facts(alloc, known, all)
}
