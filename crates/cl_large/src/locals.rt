//! How many integers the locals of a function have.

ghost use Rattle.std.specs.Prelude.{◌≡◌, ◌+◌, map, option_map, sum};
ghost use Rattle.cl_typing.specs.Sizes as sized;
ghost use Rattle.cl_large.specs.Capped.{capped};

use crate::sizes::{Sizes, add};
use cl_tree::tree::{Act, Declaration, Declarator, Stmt};
use sqlite_items::Boxed;

/// An object of static duration is no local.
#[tactic(auto, unfolding(cl_typing::specs::Sizes::declared_size))]
fn declared_size(sizes: &Sizes<'_>, d: &Declaration) -> u64
    ensures { result ≡ capped (sized.declared_size sizes.now d.now) }
{
    if d.is_static {
        return 0;
    }
    sizes.of_all(d.names.as_slice())
}

#[cycle(stmt)]
#[tactic(auto, unfolding(cl_typing::specs::Sizes::stmt_locals), using(crate::proofs::Caps::caps))]
fn locals_in(sizes: &Sizes<'_>, s: &Stmt) -> u64
    ensures { result ≡ capped (sized.stmt_locals sizes.now s.now) }
{
    match &s.node {
        Act::Block(ss) => locals_of(sizes, ss.as_slice()),
        Act::If(_, body, other) => add(locals_in(sizes, body.get()), locals_at(sizes, other)),
        Act::While(_, body) => locals_in(sizes, body.get()),
        Act::DoWhile(body, _) => locals_in(sizes, body.get()),
        Act::For {
            first,
            test: _,
            next,
            body,
        } => add(
            locals_at(sizes, first),
            add(locals_at(sizes, next), locals_in(sizes, body.get())),
        ),
        Act::Declare(d) => declared_size(sizes, d),
        Act::Empty
        | Act::Set {
            op: _,
            place: _,
            value: _,
        }
        | Act::Bump {
            up: _,
            prefix: _,
            place: _,
        }
        | Act::Call(_)
        | Act::Return(_)
        | Act::Break
        | Act::Continue
        | Act::Cle(_) => 0,
    }
}

#[cycle(stmt)]
fn locals_at(sizes: &Sizes<'_>, s: &Option<Boxed<Stmt>>) -> u64
    ensures { result ≡ capped (sized.maybe_size (option_map (sized.stmt_locals sizes.now) s.now)) }
{
    match s {
        Some(s) => locals_in(sizes, s.get()),
        None => 0,
    }
}

#[cycle(stmt)]
#[tactic(auto, using(crate::proofs::Caps::caps))]
fn locals_of(sizes: &Sizes<'_>, all: &[Stmt]) -> u64
    ensures { result ≡ capped (sum (map (sized.stmt_locals sizes.now) all.now)) }
{
    let mut total = 0u64;
    for s in all {
        total = add(total, locals_in(sizes, s));
    }
    total
}

/// The integers of the parameters and the locals of a function, all declarations together.
#[tactic(auto, unfolding(cl_typing::specs::Sizes::body_size), using(crate::proofs::Caps::caps))]
pub fn body_size(sizes: &Sizes<'_>, params: &[Declarator], body: &[Stmt]) -> u64
    ensures { result ≡ capped (sized.body_size sizes.now params.now body.now) }
{
    add(sizes.of_all(params), locals_of(sizes, body))
}
