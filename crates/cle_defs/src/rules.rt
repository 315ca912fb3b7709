//! The rules of labels, each by itself.

ghost use Rattle.std.specs.Prelude.{◌≡◌, ◌≤◌, [], length, map, IfOk};
ghost use Rattle.cl_labelling.specs.Fits.{taints_misfit};
ghost use Rattle.cl_labelling.specs.Items as items;
ghost use Rattle.cl_labelling.specs.Items.{label_names, two_labels, wrong_kind};
ghost use Rattle.cl_labelling.specs.Names as names;
ghost use Rattle.cl_labelling.specs.Names.{defined_twice, labels_of, levels_of, misshapen, named_in, not_json, not_known};
ghost use Rattle.cl_labelling.specs.Pragmas.{definitions_of, pragmas_of};
ghost use Rattle.cl_labelling.specs.Regions.{bad_region, marked_of};
ghost use Rattle.cl_labelling.specs.Shareable.{not_shareable};
ghost use Rattle.cl_regions.specs.Marks.{kept_all};
ghost use Rattle.cle_items.specs.Numbered.{number_kept, numbered, numbers_of};
ghost use Rattle.cl_scope.specs.Finds.{Finds};
ghost use Rattle.cle_share.specs.Bearings.{bearings, bearings_of};
ghost use Rattle.cle_defs.specs.Answer.{RuleAnswer, stopped};

use crate::stop::CleStop;
use cl_base::name::{Name, NoMemory};
use cl_mean::checked::Typed;
use cl_mean::labels::LabelFact;
use cl_regions::marks::{Marked, marks};
use cl_regions::{places, twice};
use cl_scope::stop::Stop;
use cl_tree::tree::Program;
use cle_fits::misfits;
use cle_items::bearers::bearers;
use cle_items::functions::on_functions;
use cle_items::kinds;
use cle_items::numbers::{Numbered, numbers};
use cle_items::objects::on_objects;
use cle_names::known::{Known, look_known};
use cle_names::labels::Labels;
use cle_names::rules::{look_json, look_names, look_shapes};
use cle_names::seen::Seen;
use cle_share::bearings::Bearing;
use cle_share::share;
use sqlite_items::Items;
use std::alloc::Global;

/// How the search for a rule's first place ends, as the rule's answer.
fn of_rule(rule: u8, stop: Stop) -> CleStop
    ensures { result ≡ stopped rule stop }
{
    match stop {
        Stop::At(line) => CleStop::Rule { rule, line },
        Stop::NoMemory => CleStop::NoMemory,
    }
}

#[tactic(auto, unfolding(cl_labelling::specs::Pragmas::definitions_of))]
pub(crate) fn texts(program: &Program, all: &[Seen<'_>]) -> Result<(), CleStop>
    requires { all.now ≡ pragmas_of program.now }
    ensures { RuleAnswer 10 (not_json (definitions_of program.now)) result }
{
    match look_json(all) {
        Ok(()) => Ok(()),
        Err(stop) => Err(of_rule(10, stop)),
    }
}

#[tactic(auto, unfolding(cl_labelling::specs::Pragmas::definitions_of, cl_labelling::specs::Names::levels_of))]
pub(crate) fn levels(
    alloc: Global,
    program: &Program,
    all: &[Seen<'_>],
) -> Result<Items<Name>, CleStop>
    requires { all.now ≡ pragmas_of program.now }
    ensures places { RuleAnswer 11 (misshapen [] (definitions_of program.now)) result }
    ensures levels { IfOk result (λ levels. levels ≡ levels_of program.now) }
    ensures few { IfOk result (λ levels. length levels ≤ 32) }
{
    match look_shapes(alloc, all) {
        Ok(levels) => Ok(levels),
        Err(stop) => Err(of_rule(11, stop)),
    }
}

#[tactic(auto, unfolding(cl_labelling::specs::Pragmas::definitions_of))]
pub(crate) fn labels<'a>(
    alloc: Global,
    program: &Program,
    all: &[Seen<'a>],
) -> Result<Labels<'a>, CleStop>
    requires { all.now ≡ pragmas_of program.now }
    ensures places { RuleAnswer 12 (defined_twice [] (definitions_of program.now)) result }
    ensures labels { IfOk result (λ labels. labels ≡ label_names program.now) }
{
    match look_names(alloc, all) {
        Ok(labels) => Ok(labels),
        Err(stop) => Err(of_rule(12, stop)),
    }
}

#[tactic(auto, unfolding(cl_labelling::specs::Names::named_in))]
pub(crate) fn mentions(
    program: &Program,
    known: &Known<'_, '_>,
    all: &[Seen<'_>],
) -> Result<(), CleStop>
    requires seen { all.now ≡ pragmas_of program.now }
    requires levels { known.now.levels.now ≡ levels_of program.now }
    requires labels { known.now.labels.now ≡ label_names program.now }
    ensures { RuleAnswer 13 (not_known (named_in program.now) (pragmas_of program.now)) result }
{
    match look_known(known, all) {
        Ok(()) => Ok(()),
        Err(stop) => Err(of_rule(13, stop)),
    }
}

pub(crate) fn regions(alloc: Global, program: &Program) -> Result<(), CleStop>
    ensures { RuleAnswer 14 (bad_region program.now) result }
{
    match places::bad_region(alloc, program) {
        Ok(()) => Ok(()),
        Err(stop) => Err(of_rule(14, stop)),
    }
}

/// The numbers of labels have 32 bits; more labels than that are want of memory.
fn number_items<'a>(
    alloc: Global,
    names: &Labels<'_>,
    marks: &[Marked<'a>],
) -> Result<Vec<Numbered<'a>>, NoMemory>
    ensures { IfOk result (λ all. numbered all.items ≡ map (number_kept names.now) (kept_all marks.now)) }
{
    if names.len() > u32::MAX as usize {
        return Err(NoMemory);
    }
    numbers(alloc, names, marks)
}

/// The items with the numbers of their labels, where none has two.
pub(crate) fn items<'a>(
    alloc: Global,
    program: &'a Program,
    names: &Labels<'_>,
) -> Result<Vec<Numbered<'a>>, CleStop>
    requires { names.now ≡ label_names program.now }
    ensures places { RuleAnswer 15 (two_labels [] (marked_of program.now)) result }
    ensures items { IfOk result (λ all. numbered all.items ≡ numbers_of program.now) }
{
    let marks = marks(alloc, program)?;
    match twice::two_labels(alloc, &marks) {
        Ok(()) => Ok(number_items(alloc, names, &marks)?),
        Err(stop) => Err(of_rule(15, stop)),
    }
}

fn look_kinds(program: &Program, labels: &[LabelFact], all: &[Numbered<'_>]) -> Result<(), Stop>
    requires labels { labels.now ≡ labels_of program.now }
    requires items { numbered all.now ≡ numbers_of program.now }
    ensures { Finds result (wrong_kind program.now) }
{
    kinds::wrong_kind(labels, all)
}

pub(crate) fn kinds(
    program: &Program,
    labels: &[LabelFact],
    all: &[Numbered<'_>],
) -> Result<(), CleStop>
    requires labels { labels.now ≡ labels_of program.now }
    requires items { numbered all.now ≡ numbers_of program.now }
    ensures { RuleAnswer 16 (wrong_kind program.now) result }
{
    match look_kinds(program, labels, all) {
        Ok(()) => Ok(()),
        Err(stop) => Err(of_rule(16, stop)),
    }
}

pub(crate) fn taints(
    alloc: Global,
    program: &Program,
    labels: &[LabelFact],
    all: &[Bearing<'_>],
) -> Result<(), CleStop>
    requires labels { labels.now ≡ labels_of program.now }
    requires bearings { bearings all.now ≡ bearings_of program.now }
    ensures { RuleAnswer 17 (taints_misfit program.now) result }
{
    match misfits::taints_misfit(alloc, program, labels, all) {
        Ok(()) => Ok(()),
        Err(stop) => Err(of_rule(17, stop)),
    }
}

pub(crate) fn shared(
    alloc: Global,
    program: &Program,
    labels: &[LabelFact],
    all: &[Bearing<'_>],
) -> Result<(), CleStop>
    requires labels { labels.now ≡ labels_of program.now }
    requires bearings { bearings all.now ≡ bearings_of program.now }
    ensures { RuleAnswer 35 (not_shareable program.now) result }
{
    match share::not_shareable(alloc, program, labels, all) {
        Ok(()) => Ok(()),
        Err(stop) => Err(of_rule(35, stop)),
    }
}

/// The declarations of functions that have a label.
pub(crate) fn bearers_of<'a>(
    alloc: Global,
    program: &Program,
    all: &[Numbered<'a>],
) -> Result<Vec<Bearing<'a>>, NoMemory>
    requires { numbered all.now ≡ numbers_of program.now }
    ensures { IfOk result (λ found. bearings found.items ≡ bearings_of program.now) }
{
    bearers(alloc, all)
}

/// The label of each function.
pub(crate) fn function_labels(
    alloc: Global,
    typed: &Typed,
    all: &[Numbered<'_>],
) -> Result<Items<Option<u32>>, NoMemory>
    requires { numbered all.now ≡ numbers_of typed.now.program }
    ensures { IfOk result (λ found. found ≡ items.on_functions typed.now.program typed.now.functions) }
{
    on_functions(alloc, all, typed.functions.as_slice())
}

/// The label of each object of static duration.
pub(crate) fn object_labels(
    alloc: Global,
    program: &Program,
    all: &[Numbered<'_>],
) -> Result<Items<Option<u32>>, NoMemory>
    requires { numbered all.now ≡ numbers_of program.now }
    ensures { IfOk result (λ found. found ≡ items.on_objects program.now) }
{
    on_objects(alloc, all)
}
