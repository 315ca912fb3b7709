//! E30: a function that other levels call has a wide payload.

ghost use Rattle.std.specs.Prelude.{◌≡◌, ◌≤◌, ◌<◌, ◌&&◌, ℕ, All, IfOk, not, nat_le, slice_index_or, true, false};
ghost use Rattle.cl_calls.specs.Signatures.{signatures_in};
ghost use Rattle.cl_rows.specs.Bytes.{IsKnown, structs_in};
ghost use Rattle.cl_rows.specs.Capped.{capped};
ghost use Rattle.cl_rows.specs.Wide.{size_in, is_wide_in, wide_by, too_wide_in};
ghost use Rattle.cl_scope.specs.Finds.{Finds};
ghost use Rattle.cl_typing.specs.Rules as rules;

use crate::bytes::Bytes;
use crate::marks::{called, mark_at};
use cl_base::limits::FUNCTIONS;
use cl_calls::signatures::signature_at;
use cl_levels::uses::Call;
use cl_mean::checked::{FnFact, Typed};
use cl_scope::search::unless;
use cl_scope::stop::Stop;
use std::alloc::Global;

/// The bytes of a function's request and of its reply. A number that is greater than any limit is kept as a great one.
#[derive(Clone, Copy, Drop)]
pub struct Sizes {
    pub request: u64,
    pub reply: u64,
}

/// The bytes of the payloads of the function of a number.
#[tactic(auto, using(crate::proofs::Sums::request_is, crate::proofs::Sums::reply_is))]
pub fn sizes_at(bytes: &Bytes<'_>, typed: &Typed, f: usize) -> Sizes
    requires { IsKnown bytes.now }
    ensures request { result.request ≡ capped (size_in (structs_in bytes.now) (signatures_in typed.now f) false) }
    ensures reply { result.reply ≡ capped (size_in (structs_in bytes.now) (signatures_in typed.now f) true) }
{
    match signature_at(typed, f) {
        Some(signature) => Sizes {
            request: bytes.of_all(signature.params),
            reply: bytes.of_reply(signature.result, signature.params),
        },
        None => Sizes {
            request: 0,
            reply: 0,
        },
    }
}

/// Whether a payload has more bytes than it may have.
fn is_over(size: u64) -> bool
    ensures { (n : ℕ) → size ≡ capped n → result ≡ not (nat_le n 4096) }
{
    size > 4096
}

fn is_wide(bytes: &Bytes<'_>, typed: &Typed, f: usize) -> bool
    requires { IsKnown bytes.now }
    ensures { result ≡ is_wide_in (structs_in bytes.now) (signatures_in typed.now f) }
{
    let sizes = sizes_at(bytes, typed, f);
    is_over(sizes.request) || is_over(sizes.reply)
}

fn both(a: bool, b: bool) -> bool
    ensures { result ≡ (a && b) }
{
    a && b
}

fn look_at(
    bytes: &Bytes<'_>,
    typed: &Typed,
    called: &[bool],
    f: usize,
    line: u32,
) -> Result<(), Stop>
    requires { IsKnown bytes.now }
    ensures { Finds result (rules.unless (not (is_wide_in (structs_in bytes.now) (signatures_in typed.now f) && slice_index_or called.now f false)) line) }
{
    let fails = both(is_wide(bytes, typed, f), mark_at(called, f));
    unless(!fails, line)
}

/// The first of these functions, by its number, that is marked and has a wide payload.
fn look(bytes: &Bytes<'_>, typed: &Typed, called: &[bool], functions: &[FnFact]) -> Result<(), Stop>
    requires { IsKnown bytes.now }
    ensures { Finds result (wide_by (structs_in bytes.now) typed.now called.now 0 functions.now) }
{
    for (f, fact) in functions.iter().enumerate() {
        look_at(bytes, typed, called, f, fact.line)?;
    }
    Ok(())
}

/// E30: the first function, by its number, that one of these calls calls and that has a wide payload: a request or a reply of
/// more than 4,096 bytes.
pub fn too_wide(alloc: Global, typed: &Typed, crossings: &[Call]) -> Result<(), Stop>
    requires callees { All (λ c. c.callee < FUNCTIONS) crossings.now }
    ensures { Finds result (too_wide_in typed.now crossings.now) }
{
    let bytes = Bytes::of_program(alloc, typed)?;
    let marks = called(alloc, crossings)?;
    look(&bytes, typed, marks.as_slice(), typed.functions.as_slice())
}
