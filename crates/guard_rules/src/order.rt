//! Guards that are asked one after the other.

ghost use Rattle.std.specs.Prelude.{◌≡◌, map};
ghost use Rattle.cl_mean.specs.Judging.{judge, laws_judge};
ghost use Rattle.guard_rules.specs.Guards.{fitted};

use crate::guards::Guard;
use cl_mean::law::{Asked, Ruling};
use cl_tree::arithmetic::convert;
use cl_tree::kinds::IntKind;

/// Puts each value into the kind of its place.
#[tactic(auto, using(crate::proofs::Fitting::one_more))]
fn fit(kinds: &[IntKind], values: &mut [i128])
    ensures { values.new ≡ fitted kinds.now values.old }
{
    for (place, kind) in kinds.iter().enumerate() {
        if place >= values.len() {
            return;
        }
        values[place] = convert(*kind, values[place]);
    }
}

fn inspect_one(guard: &mut Box<dyn Guard + Send>, asked: Asked, values: &mut [i128]) -> Ruling
    ensures { judge (λ n. n) (law guard.old) asked values.old ≡ record { ruling = result; law = law guard.new; values = values.new } }
{
    guard.inspect(asked, values)
}

/// Asks guards in order about the values of a request or of a reply, whose places have these kinds. Each sees what the
/// one before left, in the kinds of the places. The first that blocks ends it, and a guard that isn't asked stays as it
/// was.
pub fn inspect_in_order(
    guards: &mut [Box<dyn Guard + Send>],
    kinds: &[IntKind],
    asked: Asked,
    values: &mut [i128],
) -> Ruling
    ensures { laws_judge (λ n. n) (fitted kinds.now) (map (λ g. law g) guards.old) asked values.old ≡ record { ruling = result; law = map (λ g. law g) guards.new; values = values.new } }
{
    for place in 0..guards.len() {
        match inspect_one(&mut guards[place], asked, values) {
            Ruling::Block => return Ruling::Block,
            Ruling::Pass => fit(kinds, values),
        }
    }
    Ruling::Pass
}
