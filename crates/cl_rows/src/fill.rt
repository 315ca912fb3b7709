//! What a row says of its function.

ghost use Rattle.std.specs.Prelude.{◌≡◌, ◌<◌, ◌≤◌, ◌++◌, ◌∷◌, [], ℕ, map, IfOk, MatchOption, None, Some, true, false};
ghost use Rattle.cl_calls.specs.Calls as calls;
ghost use Rattle.cl_calls.specs.Signatures.{signatures_in};
ghost use Rattle.cl_labelling.specs.Fits as fits;
ghost use Rattle.cl_levels.specs.Crossings as crossing;
ghost use Rattle.cl_mean.specs.Judging as judging;
ghost use Rattle.cl_mean.specs.Source.{entries_of};
ghost use Rattle.cl_rows.specs.Bytes.{IsKnown, structs_in};
ghost use Rattle.cl_rows.specs.Capped.{capped, most};
ghost use Rattle.cl_rows.specs.Rows.{IsFilled, IsReady};
ghost use Rattle.cl_rows.specs.Wide.{size_in};

use crate::bytes::Bytes;
use crate::wide::sizes_at;
use cl_base::name::{Name, NoMemory};
use cl_calls::entries::{entry_for, label_for};
use cl_calls::signatures::{Signature, signature_at};
use cl_mean::checked::{GedlArg, GedlRow, Typed};
use cl_mean::labels::{Entry, LabelFact, LabelTable};
use cl_tree::tree::{CType, Declarator};
use sqlite_items::{Boxed, Items};
use std::alloc::Global;

/// Another value of the same type.
fn copy_type(alloc: Global, t: &CType) -> Result<CType, NoMemory>
    ensures { IfOk result (λ c. c ≡ t.now) }
{
    match t {
        CType::Void => Ok(CType::Void),
        CType::Integer(kind) => Ok(CType::Integer(*kind)),
        CType::Struct(tag) => Ok(CType::Struct(tag.copy(alloc)?)),
        CType::Array(inner, n) => Ok(CType::Array(
            Boxed::new(alloc, copy_type(alloc, inner.get())?)?,
            *n,
        )),
        CType::Pointer(inner) => Ok(CType::Pointer(Boxed::new(
            alloc,
            copy_type(alloc, inner.get())?,
        )?)),
        CType::Floating => Ok(CType::Floating),
    }
}

/// Names and types of parameters.
fn args_of(alloc: Global, params: &[Declarator]) -> Result<Items<GedlArg>, NoMemory>
    ensures { IfOk result (λ args. args ≡ crossing.args_of params.now) }
{
    let mut args = Items::new(alloc);
    for param in params {
        args.push(GedlArg {
            name: param.name.copy(alloc)?,
            ctype: copy_type(alloc, &param.ctype)?,
        })?;
    }
    Ok(args)
}

/// The label of a function that has one.
fn label_of(labels: &LabelTable, f: usize) -> &LabelFact
    requires { calls.label_for labels.now f ≡ None → ⊥ }
    ensures { calls.label_for labels.now f ≡ Some result.now }
{
    match label_for(labels, f) {
        Some(label) => label,
        None => unreachable!(),
    }
}

/// The first entry of a function's label for a level, if there is one.
#[tactic(auto, unfolding(cl_mean::specs::Judging::entry_for))]
fn maybe_entry(labels: &LabelTable, f: usize, from: u32) -> Option<&Entry>
    ensures { MatchOption result (judging.entry_for (entries_of (calls.label_for labels.now f)) from ≡ None)
        (λ e. judging.entry_for (entries_of (calls.label_for labels.now f)) from ≡ Some e.now) }
{
    match label_for(labels, f) {
        Some(label) => entry_for(label.entries.as_slice(), from),
        None => None,
    }
}

/// The first entry of a function's label for a level that it has one for.
fn entry_at(labels: &LabelTable, f: usize, from: u32) -> &Entry
    requires { judging.entry_for (entries_of (calls.label_for labels.now f)) from ≡ None → ⊥ }
    ensures { judging.entry_for (entries_of (calls.label_for labels.now f)) from ≡ Some result.now }
{
    match maybe_entry(labels, f, from) {
        Some(entry) => entry,
        None => unreachable!(),
    }
}

/// The signature of a function that is defined.
fn defined_at(typed: &Typed, f: usize) -> Signature<'_>
    requires { signatures_in typed.now f ≡ [] → ⊥ }
    ensures { signatures_in typed.now f ≡ fits.signature result.name.now result.result.now result.params.now ∷ [] }
{
    match signature_at(typed, f) {
        Some(signature) => signature,
        None => unreachable!(),
    }
}

/// A number of bytes that isn't great.
fn narrow(size: u64) -> u32
    requires { size ≤ most }
    ensures { (n : ℕ) → n ≤ 4096 → size ≡ capped n → result ≡ n }
{
    size as u32
}

/// The bytes of a request that isn't wide.
#[tactic(auto, using(crate::proofs::Caps::capped_most))]
fn request_of(bytes: &Bytes<'_>, typed: &Typed, f: usize) -> u32
    requires known { IsKnown bytes.now }
    requires small { size_in (structs_in bytes.now) (signatures_in typed.now f) false ≤ 4096 }
    ensures { result ≡ size_in (structs_in bytes.now) (signatures_in typed.now f) false }
{
    let sizes = sizes_at(bytes, typed, f);
    narrow(sizes.request)
}

/// The bytes of a reply that isn't wide.
#[tactic(auto, using(crate::proofs::Caps::capped_most))]
fn reply_of(bytes: &Bytes<'_>, typed: &Typed, f: usize) -> u32
    requires known { IsKnown bytes.now }
    requires small { size_in (structs_in bytes.now) (signatures_in typed.now f) true ≤ 4096 }
    ensures { result ≡ size_in (structs_in bytes.now) (signatures_in typed.now f) true }
{
    let sizes = sizes_at(bytes, typed, f);
    narrow(sizes.reply)
}

/// What a row has to have copied.
#[derive(Drop)]
struct Copied {
    name: Name,
    label: Name,
    args: Items<GedlArg>,
    result: CType,
}

fn copy_all(alloc: Global, label: &LabelFact, signature: &Signature<'_>) -> Result<Copied, NoMemory>
    ensures name { IfOk result (λ d. d.name ≡ signature.now.name.now) }
    ensures label { IfOk result (λ d. d.label ≡ label.now.name) }
    ensures args { IfOk result (λ d. d.args ≡ crossing.args_of signature.now.params.now) }
    ensures result { IfOk result (λ d. d.result ≡ signature.now.result.now) }
{
    Ok(Copied {
        name: signature.name.copy(alloc)?,
        label: label.name.copy(alloc)?,
        args: args_of(alloc, signature.params)?,
        result: copy_type(alloc, signature.result)?,
    })
}

/// A program with its labels and the bytes of its structs.
#[derive(Clone, Copy, Drop)]
pub struct Sources<'a> {
    pub typed: &'a Typed,
    pub labels: &'a LabelTable,
    pub bytes: &'a Bytes<'a>,
}

/// The row by which a level calls a function of another.
pub fn row_of(
    alloc: Global,
    sources: &Sources<'_>,
    from: u32,
    to: u32,
    f: u32,
) -> Result<GedlRow, NoMemory>
    requires known { IsKnown sources.now.bytes.now }
    requires items { sources.now.bytes.now.items.now ≡ sources.now.typed.now.program.items }
    requires ready { IsReady sources.now.typed.now sources.now.labels.now from f }
    ensures { IfOk result (λ r. IsFilled sources.now.typed.now sources.now.labels.now from to f r) }
{
    let label = label_of(sources.labels, f as usize);
    let entry = entry_at(sources.labels, f as usize, from);
    let signature = defined_at(sources.typed, f as usize);
    let request = request_of(sources.bytes, sources.typed, f as usize);
    let reply = reply_of(sources.bytes, sources.typed, f as usize);
    let copied = copy_all(alloc, label, &signature)?;
    Ok(GedlRow {
        from,
        to,
        function: f,
        name: copied.name,
        label: copied.label,
        operation: entry.operation,
        args: copied.args,
        result: copied.result,
        request,
        reply,
        oneway: entry.oneway,
    })
}
