//! How the functions of a program are defined.

ghost use Rattle.std.specs.Prelude.{◌≡◌, ◌∷◌, [], MatchOption, slice_index_or};
ghost use Rattle.cl_labelling.specs.Fits as fits;
ghost use Rattle.cl_levels.specs.Levels.{no_fact};
ghost use Rattle.cl_levels.specs.Crossings.{params_of};
ghost use Rattle.cl_calls.specs.Signatures.{signatures_in};

use cl_base::name::Name;
use cl_mean::checked::{FnFact, Typed};
use cl_tree::tree::{CType, Declarator, Item};

/// The name, the result and the parameters of a function.
#[derive(Clone, Copy, Drop)]
pub struct Signature<'a> {
    pub name: &'a Name,
    pub result: &'a CType,
    pub params: &'a [Declarator],
}

/// The signature that an item defines.
fn defined_by(item: &Item) -> Option<Signature<'_>>
    ensures { MatchOption result (fits.defined_by item.now ≡ []) (λ s. fits.defined_by item.now ≡ fits.signature s.name.now s.result.now s.params.now ∷ []) }
{
    match item {
        Item::Function {
            is_static: _,
            result,
            name,
            void_word: _,
            params,
            body: Some(_),
            line: _,
            second: _,
        } => Some(Signature {
            name,
            result,
            params: params.as_slice(),
        }),
        _ => None,
    }
}

/// The index of the item of a function.
fn item_of(functions: &[FnFact], f: usize) -> usize
    ensures { result ≡ (slice_index_or functions.now f no_fact).item }
{
    match functions.get(f) {
        Some(fact) => fact.item as usize,
        None => 0,
    }
}

/// The signature of the function of a number.
pub fn signature_at(typed: &Typed, f: usize) -> Option<Signature<'_>>
    ensures { MatchOption result (signatures_in typed.now f ≡ []) (λ s. signatures_in typed.now f ≡ fits.signature s.name.now s.result.now s.params.now ∷ []) }
{
    let at = item_of(typed.functions.as_slice(), f);
    match typed.program.items.as_slice().get(at) {
        Some(item) => defined_by(item),
        None => None,
    }
}

/// The parameters of the function of a number; none of one that isn't there.
pub fn params_at(typed: &Typed, f: usize) -> &[Declarator]
    ensures { result.now ≡ params_of (signatures_in typed.now f) }
{
    match signature_at(typed, f) {
        Some(signature) => signature.params,
        None => &[],
    }
}
