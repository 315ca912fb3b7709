//! Whether what is carried exceeds a bound.

ghost use Rattle.std.specs.Prelude.{◌↔◌, IsTrue};
ghost use Rattle.cle_ways.specs.Flow.{Admits, Exceeds};
ghost use Rattle.cle_flow.specs.Judged.{Knows, OneRefused, OriginExceeds, OneExceeds};

use cl_mean::labels::Mention;
use cle_table::table::Table;
use cle_ways::facts::Program;
use cle_ways::ways::{Admitted, Bound, Holder, Origin};

/// A program, the labels that its holders carry, and those that its taints admit.
#[derive(Drop)]
pub struct Judge<'a> {
    pub program: Program<'a>,
    pub carried: Table,
    pub admitted: Table,
}

/// Whether a label is admitted.
fn admits(judge: &Judge<'_>, admitted: Admitted, m: Mention) -> bool
    requires { Knows judge.now }
    ensures { IsTrue result ↔ Admits judge.now.program admitted m }
{
    match admitted {
        Admitted::Argument(f, k) => judge.admitted.has(Holder::Local(f, k), m),
        Admitted::Body(f) => judge.admitted.has(Holder::Result(f), m),
        Admitted::OfLevel(level) => judge.program.mention_level(m) == Some(level),
        Admitted::Own(label) => m == Mention::Label(label),
    }
}

/// Whether a label among some isn't admitted.
fn one_refused(judge: &Judge<'_>, admitted: Admitted, labels: &[Mention]) -> bool
    requires { Knows judge.now }
    ensures { IsTrue result ↔ OneRefused judge.now.program admitted labels.now }
{
    for m in labels {
        if !admits(judge, admitted, *m) {
            return true;
        }
    }
    false
}

/// Whether an origin gives a label that isn't admitted.
fn origin_exceeds(judge: &Judge<'_>, admitted: Admitted, origin: Origin) -> bool
    requires { Knows judge.now }
    ensures { IsTrue result ↔ OriginExceeds judge.now.program admitted origin }
{
    match origin {
        Origin::Just(m) => !admits(judge, admitted, m),
        Origin::AllOf(x) => one_refused(judge, admitted, judge.carried.labels(x)),
    }
}

/// Whether one of some origins does.
fn one_exceeds(judge: &Judge<'_>, admitted: Admitted, origins: &[Origin]) -> bool
    requires { Knows judge.now }
    ensures { IsTrue result ↔ OneExceeds judge.now.program admitted origins.now }
{
    for origin in origins {
        if origin_exceeds(judge, admitted, *origin) {
            return true;
        }
    }
    false
}

/// Whether what is bounded carries a label that isn't admitted.
pub fn exceeds(judge: &Judge<'_>, bound: &Bound) -> bool
    requires { Knows judge.now }
    ensures { IsTrue result ↔ Exceeds judge.now.program bound.now }
{
    one_exceeds(judge, bound.admitted, bound.origins.as_slice())
}
