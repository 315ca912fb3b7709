//! The first definition that isn't JSON, hasn't the shape of one, or defines a label again.

ghost use Rattle.std.specs.Prelude.{◌≡◌, ◌≤◌, ◌++◌, ◌∷◌, [], length, nat_le, not, IfOk, OnOk};
ghost use Rattle.cl_typing.specs.Rules as rules;
ghost use Rattle.cl_labelling.specs.Names as named;
ghost use Rattle.cl_scope.specs.Finds.{Finds};
ghost use Rattle.cle_names.specs.Finding.{FindsPlace};
ghost use Rattle.cle_names.specs.Walked as walked;
ghost use Rattle.cle_names.specs.Walked.{definitions_in};

use crate::labels::Labels;
use crate::seen::Seen;
use cl_base::limits::LEVELS;
use cl_base::name::{Name, NoMemory};
use cl_scope::search::unless;
use cl_scope::stop::Stop;
use cl_tree::token::Pragma;
use sqlite_items::Items;
use std::alloc::Global;

#[tactic(auto, unfolding(crate::specs::Walked::json_places))]
fn look_texts(all: &[Seen<'_>]) -> Result<(), Stop>
    ensures { Finds result (walked.json_places all.now) }
{
    for seen in all {
        unless(seen.has_json(), seen.line())?;
    }
    Ok(())
}

/// The first definition whose text isn't JSON.
#[tactic(auto, using(crate::proofs::Walks::json_finds))]
pub fn look_json(all: &[Seen<'_>]) -> Result<(), Stop>
    ensures { Finds result (named.not_json (definitions_in all.now)) }
{
    look_texts(all)
}

/// Whether a level is among the levels that are known.
#[tactic(auto, unfolding(cl_labelling::specs::Names::has_word))]
pub fn has_level(levels: &[Name], level: &[u8]) -> bool
    ensures { result ≡ named.has_word levels.now level.now }
{
    levels.iter().any(|known| level == known.as_bytes())
}

#[tactic(auto, using(std::proofs::lemmas::Bool::Decides::nat_tests))]
fn add_level(alloc: Global, levels: &mut Items<Name>, level: &Name, line: u32) -> Result<(), Stop>
    ensures places { Finds result (rules.unless (nat_le (length (named.with_level levels.old level.now)) 32) line) }
    ensures levels { OnOk result (levels.new ≡ named.with_level levels.old level.now) }
{
    if has_level(levels.as_slice(), level.as_bytes()) {
        return unless(levels.len() <= LEVELS as usize, line);
    }
    unless(levels.len() < LEVELS as usize, line)?;
    levels.push(level.copy(alloc)?)?;
    Ok(())
}

fn look_shape(alloc: Global, levels: &mut Items<Name>, seen: &Seen<'_>) -> Result<(), Stop>
    ensures places { Finds result (walked.shape_at levels.old seen.now.pragma seen.now.line) }
    ensures levels { OnOk result (levels.new ≡ walked.levels_past levels.old seen.now.pragma) }
{
    match seen.pragma() {
        Pragma::Def(_, _) => match seen.draft() {
            Some(draft) => add_level(alloc, levels, &draft.level, seen.line()),
            None => Err(Stop::At(seen.line())),
        },
        Pragma::Begin(_) | Pragma::End(_) | Pragma::Next(_) => Ok(()),
    }
}

#[tactic(auto, unfolding(crate::specs::Walked::shape_places, crate::specs::Walked::levels_behind), using(cl_scope::proofs::Searches::searches))]
fn look_all_shapes(alloc: Global, levels: &mut Items<Name>, all: &[Seen<'_>]) -> Result<(), Stop>
    ensures places { Finds result (walked.shape_places levels.old all.now) }
    ensures levels { OnOk result (levels.new ≡ walked.levels_behind levels.old all.now) }
{
    for seen in all {
        look_shape(alloc, levels, seen)?;
    }
    Ok(())
}

/// The levels of a program in the order in which its definitions first name them, or the first definition that hasn't
/// the shape of one or brings a level too many.
pub fn look_shapes(alloc: Global, all: &[Seen<'_>]) -> Result<Items<Name>, Stop>
    ensures places { FindsPlace result (named.misshapen [] (definitions_in all.now)) }
    ensures levels { IfOk result (λ levels. levels ≡ named.levels_in [] (definitions_in all.now)) }
    ensures few { IfOk result (λ levels. length levels ≤ 32) }
{
    let mut levels = Items::new(alloc);
    match look_all_shapes(alloc, &mut levels, all) {
        Ok(()) => Ok(levels),
        Err(stop) => Err(stop),
    }
}

fn add_label<'a>(labels: &mut Labels<'a>, name: &'a Name, line: u32) -> Result<(), Stop>
    ensures places { Finds result (rules.unless (not (named.has_word labels.old name.now)) line) }
    ensures labels { OnOk result (labels.new ≡ labels.old ++ name.now ∷ []) }
{
    if labels.has(name) {
        return Err(Stop::At(line));
    }
    labels.add(name)?;
    Ok(())
}

fn look_name<'a>(labels: &mut Labels<'a>, seen: &Seen<'a>) -> Result<(), Stop>
    ensures places { Finds result (walked.twice_at labels.old seen.now.pragma seen.now.line) }
    ensures labels { OnOk result (labels.new ≡ walked.labels_past labels.old seen.now.pragma) }
{
    match seen.pragma() {
        Pragma::Def(name, _) => add_label(labels, name, seen.line()),
        Pragma::Begin(_) | Pragma::End(_) | Pragma::Next(_) => Ok(()),
    }
}

#[tactic(auto, unfolding(crate::specs::Walked::twice_places, crate::specs::Walked::labels_behind), using(cl_scope::proofs::Searches::searches))]
fn look_all_names<'a>(labels: &mut Labels<'a>, all: &[Seen<'a>]) -> Result<(), Stop>
    ensures places { Finds result (walked.twice_places labels.old all.now) }
    ensures labels { OnOk result (labels.new ≡ walked.labels_behind labels.old all.now) }
{
    for seen in all {
        look_name(labels, seen)?;
    }
    Ok(())
}

/// The labels of a program, or the first definition of a label that is defined before.
pub fn look_names<'a>(alloc: Global, all: &[Seen<'a>]) -> Result<Labels<'a>, Stop>
    ensures places { FindsPlace result (named.defined_twice [] (definitions_in all.now)) }
    ensures labels { IfOk result (λ labels. labels ≡ named.names_of (definitions_in all.now)) }
{
    let mut labels = Labels::new(alloc);
    match look_all_names(&mut labels, all) {
        Ok(()) => Ok(labels),
        Err(stop) => Err(stop),
    }
}
