//! The result and the parameters of a function.

ghost use Rattle.std.specs.Prelude.{◌≡◌, ◌++◌, true, IfOk, OnOk, MatchOption, Some, None};
ghost use Rattle.cl_mean.specs.Shape.{shape_of, structs_of};
ghost use Rattle.cl_mean.specs.Source.{function_at, is_counted, label_at, label_of_function, source_of, taints_of};
ghost use Rattle.rpc_codec.specs.Leaves.{behind, leads_to, leaves, payload_by};
ghost use Rattle.rpc_codec.specs.Signature.{array_leaves, if_array, item_signature, signature_leaves, signature_of};

use crate::leaves::{Leaf, behind, leads_to, push_all, push_type};
use cl_base::name::{Name, NoMemory};
use cl_mean::checked::Checked;
use cl_mean::labels::LabelFact;
use cl_tree::tree::{CType, Declarator, Item};
use std::alloc::Global;

/// The result and the parameters of a function.
#[derive(Clone, Copy)]
struct Signature<'a> {
    result: &'a CType,
    params: &'a [Declarator],
}

/// The label of a function.
fn label_of(checked: &Checked, function: u32) -> Option<&LabelFact>
    ensures { MatchOption result (label_at checked.now.labels.labels (label_of_function checked.now function) ≡ None) (λ l. label_at checked.now.labels.labels (label_of_function checked.now function) ≡ Some l.now) }
{
    match checked.labels.on_functions.get(function as usize) {
        Some(Some(label)) => checked.labels.labels.get(*label as usize),
        Some(None) => None,
        None => None,
    }
}

/// Whether an annotated function has labels for each of its parameters.
fn is_counted(checked: &Checked, function: u32, params: &[Declarator]) -> bool
    ensures { result ≡ is_counted (taints_of (label_at checked.now.labels.labels (label_of_function checked.now function))) params.now }
{
    match label_of(checked, function) {
        Some(
            LabelFact {
                taints: Some(taints),
                ..
            },
        ) => taints.args.len() == params.len(),
        _ => true,
    }
}

/// The signature of a function, where this is an item that defines it.
fn item_signature<'a>(checked: &Checked, function: u32, item: &'a Item) -> Option<Signature<'a>>
    ensures { MatchOption result (item_signature (label_at checked.now.labels.labels (label_of_function checked.now function)) item.now ≡ None) (λ s. item_signature (label_at checked.now.labels.labels (label_of_function checked.now function)) item.now ≡ Some (record { result = s.result.now; params = s.params.now })) }
{
    let Item::Function {
        result,
        params,
        body: Some(_),
        ..
    } = item
    else {
        return None;
    };
    let params = params.as_slice();
    is_counted(checked, function, params).then_some(Signature { result, params })
}

/// The signature of a function that is defined.
fn signature_of(checked: &Checked, function: u32) -> Option<Signature>
    ensures { MatchOption result (signature_of checked.now function ≡ None) (λ s. signature_of checked.now function ≡ Some (record { result = s.result.now; params = s.params.now })) }
{
    let fact = checked.typed.functions.get(function as usize)?;
    let item = checked.typed.program.items.get(fact.item as usize)?;
    item_signature(checked, function, item)
}

/// Adds the integers of a parameter if it is an array.
fn push_if_array(
    items: &[Item],
    param: &Declarator,
    path: &[Name],
    out: &mut Vec<Leaf>,
) -> Result<(), NoMemory>
    ensures { OnOk result (out.new.items ≡ out.old.items ++ if_array (shape_of (structs_of items.now) param.now.ctype) (leads_to true path.now param.now.name) (behind path.now)) }
{
    let inside = leads_to(true, path, param.name.as_bytes());
    match &param.ctype {
        CType::Array(..) => push_type(items, &param.ctype, inside, behind(path), out),
        _ => Ok(()),
    }
}

/// Adds the integers of the parameters that are arrays.
fn push_arrays(
    items: &[Item],
    params: &[Declarator],
    path: &[Name],
    out: &mut Vec<Leaf>,
) -> Result<(), NoMemory>
    ensures { OnOk result (out.new.items ≡ out.old.items ++ array_leaves (structs_of items.now) params.now path.now) }
{
    for param in params {
        push_if_array(items, param, path, out)?;
    }
    Ok(())
}

/// The integers of the request, or of the reply, of a function with this result and these parameters, where the structs are those of
/// these items. Chosen are those that lie under a path: a parameter's name on a request, `return` or an array parameter's name on a
/// reply, and then names of members.
pub fn signature_leaves(
    alloc: Global,
    items: &[Item],
    returns: &CType,
    params: &[Declarator],
    reply: bool,
    path: &[Name],
) -> Result<Vec<Leaf>, NoMemory>
    ensures { IfOk result (λ found. found.items ≡ signature_leaves (structs_of items.now) reply (Some (record { result = returns.now; params = params.now })) path.now) }
{
    let mut out = Vec::new(alloc);
    if !reply {
        push_all(items, params, true, path, &mut out)?;
        return Ok(out);
    }
    let inside = leads_to(true, path, "return".as_bytes());
    push_type(items, returns, inside, behind(path), &mut out)?;
    push_arrays(items, params, path, &mut out)?;
    Ok(out)
}

/// The same of a function of a checked source, by its number.
pub fn leaves_of(
    alloc: Global,
    checked: &Checked,
    function: u32,
    reply: bool,
    path: &[Name],
) -> Result<Vec<Leaf>, NoMemory>
    ensures { IfOk result (λ found. found.items ≡ leaves (payload_by (function_at (source_of checked.now).functions function) reply) true path.now) }
{
    let items = checked.typed.program.items.as_slice();
    let Some(signature) = signature_of(checked, function) else {
        return Ok(Vec::new(alloc));
    };
    signature_leaves(
        alloc,
        items,
        signature.result,
        signature.params,
        reply,
        path,
    )
}
