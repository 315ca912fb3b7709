//! What is lent to the functions that have a label.

ghost use Rattle.std.specs.Prelude.{◌≡◌, ℕ, ◌&&◌, ◌<◌, true, false, length, map, slice_set, IfOk};
ghost use Rattle.cl_tree.specs.Words.{Word};
ghost use Rattle.cle_share.specs.Bearings.{all_backs, all_lend, bearings, flag_at, lends};
ghost use Rattle.cle_share.specs.Bearings as bearing;
ghost use Rattle.cle_share.specs.Signatures.{noted_at};

use crate::backs::{all_backs, backs_at, go_back};
use crate::bearings::Bearing;
use crate::signatures::Signatures;
use cl_base::name::NoMemory;
use cl_mean::labels::LabelFact;
use std::alloc::Global;

/// Whether what is lent to a function that has a label is shareable with the levels that the label has entries for.
fn lends(rows: &[Vec<bool>], signatures: &Signatures<'_>, bearing: &Bearing<'_>) -> bool
    ensures { result ≡ lends (map (λ row. row.items) rows.now) (noted_at signatures.now) (record { function = bearing.now.function.now; label = bearing.now.label; line = bearing.now.line }) }
{
    let Some(row) = backs_at(rows, bearing.label) else {
        return true;
    };
    let Some(signature) = signatures.get(bearing.function) else {
        return true;
    };
    go_back(row, signature.params)
}

/// Notes that what is lent for a label isn't shareable, where that doesn't hold.
fn note(flags: &mut [bool], holds: bool, k: u32)
    ensures kept { holds ≡ true → flags.new ≡ flags.old }
    ensures cleared { holds ≡ false → k < length flags.old → flags.new ≡ slice_set flags.old k false }
    ensures long { length flags.new ≡ length flags.old }
{
    if !holds && (k as usize) < flags.len() {
        flags[k as usize] = false;
    }
}

fn note_all(
    rows: &[Vec<bool>],
    signatures: &Signatures<'_>,
    all: &[Bearing<'_>],
    flags: &mut [bool],
)
    requires { length flags.old ≡ length rows.now }
    ensures { (k : ℕ) → flag_at flags.new k ≡ (flag_at flags.old k && all_lend (map (λ row. row.items) rows.now) (noted_at signatures.now) k (bearings all.now)) }
{
    for bearing in all {
        note(flags, lends(rows, signatures, bearing), bearing.label);
    }
}

/// For each label, whether what is lent to the functions that have it is shareable with the levels that it has entries for.
pub fn lending(
    alloc: Global,
    labels: &[LabelFact],
    signatures: &Signatures<'_>,
    all: &[Bearing<'_>],
) -> Result<Vec<bool>, NoMemory>
    ensures { IfOk result (λ flags. (k : ℕ) → flag_at flags.items k ≡ all_lend (all_backs labels.now) (noted_at signatures.now) k (bearings all.now)) }
{
    let rows = all_backs(alloc, labels)?;
    let mut flags = vec![in alloc; true; rows.len()]?;
    note_all(rows.as_slice(), signatures, all, flags.as_mut_slice());
    Ok(flags)
}
