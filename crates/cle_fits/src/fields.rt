//! Whether the fields and the taints of a label fit a function.

ghost use Rattle.std.specs.Prelude.{◌≡◌, ◌&&◌, ◌==◌, length, IfOk};
ghost use Rattle.std.specs.List.{list_all, list_any};
ghost use Rattle.cl_tree.specs.declared.tree.CType.{out-CType};
ghost use Rattle.cl_mean.specs.Shape.{structs_of};
ghost use Rattle.cl_labelling.specs.Fits as rule;
ghost use Rattle.cle_fits.specs.Leaves.{leaf_fits, nameless};

use cl_base::name::NoMemory;
use cl_mean::labels::{Entry, LabelFact, Operation, RedactField, Taints};
use cl_tree::arithmetic::fits;
use cl_tree::tree::{CType, Item};
use cle_share::signatures::Signature;
use rpc_codec::leaves::Leaf;
use rpc_codec::signature::signature_leaves;
use std::alloc::Global;

fn any_chosen(leaves: &[Leaf]) -> bool
    ensures { result ≡ list_any (λ l. l.chosen) leaves.now }
{
    leaves.iter().any(|leaf| leaf.chosen)
}

fn leaf_fits(leaf: Leaf, with: i128) -> bool
    ensures { result ≡ leaf_fits with leaf }
{
    !leaf.chosen || fits(leaf.kind, with)
}

fn all_fit(leaves: &[Leaf], with: i128) -> bool
    ensures { result ≡ list_all (leaf_fits with) leaves.now }
{
    leaves.iter().all(|leaf| leaf_fits(*leaf, with))
}

/// Whether there are integers that are chosen, and each of them can hold a number.
fn chosen_fit(leaves: &[Leaf], with: i128) -> bool
    ensures { result ≡ (list_any (λ l. l.chosen) leaves.now && list_all (leaf_fits with) leaves.now) }
{
    any_chosen(leaves) && all_fit(leaves, with)
}

/// Whether a field names integers of a function's request or reply, each of which can hold its number.
fn field_fits(
    alloc: Global,
    items: &[Item],
    signature: Signature<'_>,
    field: &RedactField,
) -> Result<bool, NoMemory>
    ensures { IfOk result (λ b. b ≡ rule.field_fits (structs_of items.now) (nameless signature.entry.result.now signature.entry.params.now) field.now) }
{
    let path = field.path.as_slice();
    let leaves = signature_leaves(
        alloc,
        items,
        signature.result,
        signature.params,
        field.reply,
        path,
    )?;
    Ok(chosen_fit(&leaves, field.with))
}

fn fields_fit(
    alloc: Global,
    items: &[Item],
    signature: Signature<'_>,
    fields: &[RedactField],
) -> Result<bool, NoMemory>
    ensures { IfOk result (λ b. b ≡ list_all (rule.field_fits (structs_of items.now) (nameless signature.entry.result.now signature.entry.params.now)) fields.now) }
{
    for field in fields {
        if !field_fits(alloc, items, signature, field)? {
            return Ok(false);
        }
    }
    Ok(true)
}

fn entry_fits(
    alloc: Global,
    items: &[Item],
    signature: Signature<'_>,
    entry: &Entry,
) -> Result<bool, NoMemory>
    ensures { IfOk result (λ b. b ≡ list_all (rule.field_fits (structs_of items.now) (nameless signature.entry.result.now signature.entry.params.now)) (rule.redacted_by entry.now)) }
{
    match entry.operation {
        Operation::Redact => fields_fit(alloc, items, signature, entry.redact.as_slice()),
        Operation::Allow | Operation::Block => Ok(true),
    }
}

fn entries_fit(
    alloc: Global,
    items: &[Item],
    signature: Signature<'_>,
    entries: &[Entry],
) -> Result<bool, NoMemory>
    ensures { IfOk result (λ b. b ≡ list_all (λ e. list_all (rule.field_fits (structs_of items.now) (nameless signature.entry.result.now signature.entry.params.now)) (rule.redacted_by e)) entries.now) }
{
    for entry in entries {
        if !entry_fits(alloc, items, signature, entry)? {
            return Ok(false);
        }
    }
    Ok(true)
}

fn results(ctype: &CType) -> usize
    ensures { result ≡ rule.results (out-CType ctype.now) }
{
    match ctype {
        CType::Void => 0,
        _ => 1,
    }
}

fn are_counted(taints: &Taints, signature: Signature<'_>) -> bool
    ensures { result ≡ ((length taints.now.args == length signature.entry.params.now) && (length taints.now.result == rule.results (out-CType signature.entry.result.now))) }
{
    taints.args.len() == signature.params.len() && taints.result.len() == results(signature.result)
}

/// Whether a label's taints and fields fit a function.
#[tactic(auto, unfolding(cl_labelling::specs::Fits::label_fits))]
pub fn label_fits(
    alloc: Global,
    items: &[Item],
    signature: Signature<'_>,
    label: &LabelFact,
) -> Result<bool, NoMemory>
    ensures { IfOk result (λ b. b ≡ rule.label_fits (structs_of items.now) (nameless signature.entry.result.now signature.entry.params.now) label.now) }
{
    match &label.taints {
        Some(taints) => {
            if !are_counted(taints, signature) {
                return Ok(false);
            }
            entries_fit(alloc, items, signature, label.entries.as_slice())
        }
        None => Ok(true),
    }
}
