//! E16: items whose label is of the wrong kind.

ghost use Rattle.std.specs.Prelude.{◌≡◌, Some};
ghost use Rattle.cl_labelling.specs.Items as items;
ghost use Rattle.cl_mean.specs.Source.{label_at as fact_at};
ghost use Rattle.cl_regions.specs.Roles.{subject_of};
ghost use Rattle.cl_scope.specs.Finds.{Finds};
ghost use Rattle.cle_items.specs.Numbered.{numbered, wrong_kinds};

use crate::numbers::Numbered;
use cl_mean::labels::LabelFact;
use cl_regions::roles::Subject;
use cl_scope::search::unless;
use cl_scope::stop::Stop;
use cle_share::shareable::label_at;

/// Whether the label of a number is a function's, if there is one.
fn is_function_label(labels: &[LabelFact], k: u32) -> bool
    ensures { result ≡ items.is_function_label (fact_at labels.now (Some k)) }
{
    match label_at(labels, k) {
        Some(label) => label.taints.is_some(),
        None => false,
    }
}

/// Whether the label that an item has, if it has one, is of its kind.
fn suits(labels: &[LabelFact], subject: Subject<'_>, label: Option<u32>) -> bool
    ensures { result ≡ items.suits labels.now (subject_of subject.entry) label }
{
    match label {
        None => true,
        Some(k) => match subject {
            Subject::Function(_) => is_function_label(labels, k),
            Subject::Objects(_) => !is_function_label(labels, k),
        },
    }
}

/// The first item that has a label of the wrong kind.
pub fn wrong_kind(labels: &[LabelFact], all: &[Numbered<'_>]) -> Result<(), Stop>
    ensures { Finds result (wrong_kinds labels.now (numbered all.now)) }
{
    for item in all {
        unless(suits(labels, item.subject, item.label), item.line)?;
    }
    Ok(())
}
