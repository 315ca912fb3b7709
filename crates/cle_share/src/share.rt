//! E35.

ghost use Rattle.std.specs.Prelude.{◌≡◌};
ghost use Rattle.cl_labelling.specs.Names.{labels_of};
ghost use Rattle.cl_labelling.specs.Shareable as rule;
ghost use Rattle.cl_scope.specs.Finds.{Finds};
ghost use Rattle.cle_share.specs.Bearings.{bearings, bearings_of, flag_at, shared_by, unshared_by};

use crate::bearings::Bearing;
use crate::lending::lending;
use crate::shareable::are_shareable;
use crate::signatures::Signatures;
use cl_mean::labels::LabelFact;
use cl_scope::search::unless;
use cl_scope::stop::Stop;
use cl_tree::tree::Program;
use std::alloc::Global;

#[tactic(auto, unfolding(crate::specs::Bearings::shared_by))]
fn is_shared(labels: &[LabelFact], label: &LabelFact, lending: bool) -> bool
    ensures { result ≡ shared_by labels.now label.now lending }
{
    match &label.taints {
        Some(taints) => are_shareable(labels, label, taints) && lending,
        None => true,
    }
}

fn flag_at(flags: &[bool], k: usize) -> bool
    ensures { result ≡ flag_at flags.now k }
{
    if k < flags.len() { flags[k] } else { true }
}

fn look(labels: &[LabelFact], lending: &[bool]) -> Result<(), Stop>
    ensures { Finds result (unshared_by (flag_at lending.now) labels.now 0 labels.now) }
{
    for (k, label) in labels.iter().enumerate() {
        unless(is_shared(labels, label, flag_at(lending, k)), label.line)?;
    }
    Ok(())
}

/// The first definition of a label whose taints aren't shareable with the levels that they come to. `labels` are those of the program,
/// and `all` its declarations of functions that have a label.
pub fn not_shareable(
    alloc: Global,
    program: &Program,
    labels: &[LabelFact],
    all: &[Bearing<'_>],
) -> Result<(), Stop>
    requires labels { labels.now ≡ labels_of program.now }
    requires bearings { bearings all.now ≡ bearings_of program.now }
    ensures { Finds result (rule.not_shareable program.now) }
{
    let signatures = Signatures::of(alloc, program.items.as_slice())?;
    let lending = lending(alloc, labels, &signatures, all)?;
    look(labels, lending.as_slice())
}
