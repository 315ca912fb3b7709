//! The result and the parameters of a function.

ghost use Rattle.std.specs.Prelude.{◌≡◌, MatchOption, Some, None};
ghost use Rattle.cl_mean.specs.Source.{is_counted, label_at, label_of_function, taints_of};
ghost use Rattle.rpc_codec.specs.Signature.{item_signature, signature_of};

use cl_mean::checked::Checked;
use cl_mean::labels::LabelFact;
use cl_tree::tree::{CType, Declarator, Item};

/// The result and the parameters of a function.
#[derive(Clone, Copy)]
pub(crate) struct Signature<'a> {
    pub(crate) result: &'a CType,
    pub(crate) params: &'a [Declarator],
}

/// The label of a function.
fn label_of(checked: &Checked, function: u32) -> Option<&LabelFact>
    ensures { MatchOption result (label_at checked.now.labels.labels (label_of_function checked.now function) ≡ None) (λ l. label_at checked.now.labels.labels (label_of_function checked.now function) ≡ Some l.now) }
{
    match checked.labels.on_functions.get(function as usize) {
        Some(Some(label)) => checked.labels.labels.get(*label as usize),
        Some(None) => None,
        None => None,
    }
}

/// Whether an annotated function has labels for each of its parameters.
fn is_counted(checked: &Checked, function: u32, params: &[Declarator]) -> bool
    ensures { result ≡ is_counted (taints_of (label_at checked.now.labels.labels (label_of_function checked.now function))) params.now }
{
    match label_of(checked, function) {
        Some(
            LabelFact {
                taints: Some(taints),
                ..
            },
        ) => taints.args.len() == params.len(),
        _ => true,
    }
}

/// The signature of a function, where this is an item that defines it.
fn item_signature<'a>(checked: &Checked, function: u32, item: &'a Item) -> Option<Signature<'a>>
    ensures { MatchOption result (item_signature (label_at checked.now.labels.labels (label_of_function checked.now function)) item.now ≡ None) (λ s. item_signature (label_at checked.now.labels.labels (label_of_function checked.now function)) item.now ≡ Some (record { result = s.result.now; params = s.params.now })) }
{
    let Item::Function {
        result,
        params,
        body: Some(_),
        ..
    } = item
    else {
        return None;
    };
    let params = params.as_slice();
    is_counted(checked, function, params).then_some(Signature { result, params })
}

/// The signature of a function that is defined.
pub(crate) fn signature_of(checked: &Checked, function: u32) -> Option<Signature>
    ensures { MatchOption result (signature_of checked.now function ≡ None) (λ s. signature_of checked.now function ≡ Some (record { result = s.result.now; params = s.params.now })) }
{
    let fact = checked.typed.functions.get(function as usize)?;
    let item = checked.typed.program.items.get(fact.item as usize)?;
    item_signature(checked, function, item)
}
