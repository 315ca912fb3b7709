//! E17.

ghost use Rattle.std.specs.Prelude.{◌≡◌, ◌++◌, Some, IfOk, IsTrue, OnOk};
ghost use Rattle.std.specs.List.{flat_map};
ghost use Rattle.cl_tree.specs.Words.{Word};
ghost use Rattle.cl_labelling.specs.Fits as rule;
ghost use Rattle.cl_labelling.specs.Fits.{defined_by, declared_by};
ghost use Rattle.cl_labelling.specs.Names.{labels_of};
ghost use Rattle.cl_labelling.specs.Regions as regions;
ghost use Rattle.cl_scope.specs.Finds.{Finds};
ghost use Rattle.cl_scope.specs.Table.{place_at};
ghost use Rattle.cle_share.specs.Bearings.{bearings, bearings_of};
ghost use Rattle.cle_share.specs.Signatures.{known, noted_at};
ghost use Rattle.cle_fits.specs.Leaves.{AllFit, misfit_at, misfits};

use crate::fields::label_fits;
use cl_base::name::NoMemory;
use cl_mean::labels::LabelFact;
use cl_scope::latest::Latest;
use cl_scope::search::unless;
use cl_scope::stop::Stop;
use cl_tree::tree::Program;
use cle_share::bearings::Bearing;
use cle_share::shareable::label_at;
use cle_share::signatures::Signatures;
use std::alloc::Global;

/// Whether the label of a declaration fits its function.
fn fits(
    alloc: Global,
    program: &Program,
    labels: &[LabelFact],
    signatures: &Signatures<'_>,
    bearing: &Bearing<'_>,
) -> Result<bool, NoMemory>
    requires { (q : Word) → noted_at signatures.now q ≡ known (flat_map defined_by program.now.items ++ flat_map declared_by program.now.items) q }
    ensures { IfOk result (λ b. b ≡ rule.subject_fits program.now labels.now (regions.function bearing.now.function.now) (Some bearing.now.label)) }
{
    let Some(label) = label_at(labels, bearing.label) else {
        return Ok(true);
    };
    let Some(signature) = signatures.get(bearing.function) else {
        return Ok(true);
    };
    label_fits(alloc, program.items.as_slice(), signature, label)
}

/// Whether it is noted that a function's label of this number fits it.
fn is_noted(passed: &Latest, bearing: &Bearing<'_>) -> bool
    ensures { IsTrue result → place_at passed.now bearing.now.function.now ≡ Some bearing.now.label }
{
    match passed.get(bearing.function) {
        Some(label) => label == bearing.label as usize,
        None => false,
    }
}

/// Looks at a declaration, unless one of the same function with the same label was looked at.
fn look_at(
    alloc: Global,
    program: &Program,
    labels: &[LabelFact],
    signatures: &Signatures<'_>,
    passed: &mut Latest,
    bearing: &Bearing<'_>,
) -> Result<(), Stop>
    requires signatures { (q : Word) → noted_at signatures.now q ≡ known (flat_map defined_by program.now.items ++ flat_map declared_by program.now.items) q }
    requires passed { AllFit program.now labels.now passed.old }
    ensures found { Finds result (misfit_at program.now labels.now (record { function = bearing.now.function.now; label = bearing.now.label; line = bearing.now.line })) }
    ensures passed { OnOk result (AllFit program.now labels.now passed.new) }
{
    if is_noted(passed, bearing) {
        return Ok(());
    }
    unless(
        fits(alloc, program, labels, signatures, bearing)?,
        bearing.line,
    )?;
    passed.set(alloc, bearing.function, bearing.label as usize)?;
    Ok(())
}

fn look(
    alloc: Global,
    program: &Program,
    labels: &[LabelFact],
    signatures: &Signatures<'_>,
    all: &[Bearing<'_>],
) -> Result<(), Stop>
    requires { (q : Word) → noted_at signatures.now q ≡ known (flat_map defined_by program.now.items ++ flat_map declared_by program.now.items) q }
    ensures { Finds result (misfits program.now labels.now (bearings all.now)) }
{
    let mut passed = Latest::new(alloc);
    for bearing in all {
        look_at(alloc, program, labels, signatures, &mut passed, bearing)?;
    }
    Ok(())
}

/// The first declaration of a function whose label's taints don't fit it. `labels` are those of the program, and `all` its
/// declarations of functions that have a label.
pub fn taints_misfit(
    alloc: Global,
    program: &Program,
    labels: &[LabelFact],
    all: &[Bearing<'_>],
) -> Result<(), Stop>
    requires labels { labels.now ≡ labels_of program.now }
    requires bearings { bearings all.now ≡ bearings_of program.now }
    ensures { Finds result (rule.taints_misfit program.now) }
{
    let signatures = Signatures::of(alloc, program.items.as_slice())?;
    look(alloc, program, labels, &signatures, all)
}
