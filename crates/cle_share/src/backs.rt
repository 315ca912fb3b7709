//! For each label, whether the taints of its arguments are shareable with the levels that it has entries for.

ghost use Rattle.std.specs.Prelude.{◌≡◌, if◌then◌else◌, map, option_map, slice_get, true, IfOk};
ghost use Rattle.cl_tree.specs.declared.tree.CType.{out-CType};
ghost use Rattle.cl_labelling.specs.Shareable as share;
ghost use Rattle.cle_share.specs.Bearings as bearing;

use crate::shareable::{is_array, shareable_back};
use cl_base::name::NoMemory;
use cl_mean::labels::{LabelFact, Mentions};
use cl_tree::tree::Declarator;
use std::alloc::Global;

fn backs_of_args(
    alloc: Global,
    labels: &[LabelFact],
    label: &LabelFact,
    args: &[Mentions],
) -> Result<Vec<bool>, NoMemory>
    ensures { IfOk result (λ row. row.items ≡ map (λ m. share.shareable_back labels.now label.now m.all) args.now) }
{
    let mut row = Vec::new(alloc);
    for arg in args {
        row.push(shareable_back(labels, label, arg.all.as_slice()))?;
    }
    Ok(row)
}

fn backs_of(alloc: Global, labels: &[LabelFact], label: &LabelFact) -> Result<Vec<bool>, NoMemory>
    ensures { IfOk result (λ row. row.items ≡ bearing.backs labels.now label.now) }
{
    match &label.taints {
        Some(taints) => backs_of_args(alloc, labels, label, taints.args.as_slice()),
        None => Ok(Vec::new(alloc)),
    }
}

/// Of each label, for the taints of each argument, whether they are shareable with each level that the label has an entry for.
pub fn all_backs(alloc: Global, labels: &[LabelFact]) -> Result<Vec<Vec<bool>>, NoMemory>
    ensures { IfOk result (λ rows. map (λ row. row.items) rows.items ≡ bearing.all_backs labels.now) }
{
    let mut rows = Vec::new(alloc);
    for label in labels {
        rows.push(backs_of(alloc, labels, label)?)?;
    }
    Ok(rows)
}

/// The row of a label's number.
pub fn backs_at(rows: &[Vec<bool>], k: u32) -> Option<&[bool]>
    ensures { option_map (λ row. row.now) result ≡ slice_get (map (λ row. row.items) rows.now) k }
{
    match rows.get(k as usize) {
        Some(row) => Some(row.as_slice()),
        None => None,
    }
}

/// Whether the taints of a parameter are shareable as they must be, where it is an array.
fn goes_back(back: bool, param: &Declarator) -> bool
    ensures { result ≡ (if share.is_array (out-CType param.now.ctype) then back else true) }
{
    !is_array(&param.ctype) || back
}

/// Whether the taints of all array parameters are shareable as they must be.
#[tactic(auto, using(crate::proofs::Returned::one_goes, crate::proofs::Returned::one_stops), unfolding(crate::specs::Bearings::go_back))]
pub fn go_back(row: &[bool], params: &[Declarator]) -> bool
    ensures { result ≡ bearing.go_back row.now params.now }
{
    for (place, back) in row.iter().enumerate() {
        let Some(param) = params.get(place) else {
            return true;
        };
        if !goes_back(*back, param) {
            return false;
        }
    }
    true
}
