//! What the limits count.

ghost use Rattle.std.specs.Prelude.{◌≡◌, ◌∷◌, ◌++◌, [], map, option_map, OnOk};
ghost use Rattle.std.specs.List.{flat_map};
ghost use Rattle.cl_typing.specs.Sizes as sized;
ghost use Rattle.cl_scope.specs.Finds.{Finds};
ghost use Rattle.cl_large.specs.Counts.{after_all, one_over};

use crate::locals::body_size;
use crate::sizes::Sizes;
use cl_base::limits::{
    DEFINITIONS, FUNCTIONS, LOCAL_INTEGERS, OBJECT_INTEGERS, OBJECTS, STATIC_INTEGERS, STRUCTS,
};
use cl_scope::stop::Stop;
use cl_tree::token::Pragma;
use cl_tree::tree::{Act, Declaration, Declarator, Expr, Stmt};
use cl_typing::totals::Totals;
use sqlite_items::{Boxed, Items};

#[tactic(auto, using(std::proofs::lemmas::Bool::Decides::nat_tests))]
pub fn count_struct(totals: &mut Totals, line: u32) -> Result<(), Stop>
    ensures places { Finds result (one_over totals.old (sized.a_struct line)) }
    ensures totals { OnOk result (totals.new ≡ sized.totals_after totals.old (sized.a_struct line)) }
{
    if totals.structs >= u64::from(STRUCTS) {
        return Err(Stop::At(line));
    }
    totals.structs += 1;
    Ok(())
}

#[tactic(auto, using(std::proofs::lemmas::Bool::Decides::nat_tests))]
fn count_definition(totals: &mut Totals, line: u32) -> Result<(), Stop>
    ensures places { Finds result (one_over totals.old (sized.a_label line)) }
    ensures totals { OnOk result (totals.new ≡ sized.totals_after totals.old (sized.a_label line)) }
{
    if totals.definitions >= u64::from(DEFINITIONS) {
        return Err(Stop::At(line));
    }
    totals.definitions += 1;
    Ok(())
}

#[tactic(auto, using(std::proofs::lemmas::Bool::Decides::nat_tests))]
fn count_function(
    totals: &mut Totals,
    sizes: &Sizes<'_>,
    params: &[Declarator],
    body: &[Stmt],
    line: u32,
) -> Result<(), Stop>
    ensures places { Finds result (one_over totals.old
        (sized.a_function line (sized.body_size sizes.now params.now body.now))) }
    ensures totals { OnOk result (totals.new ≡ sized.totals_after totals.old
        (sized.a_function line (sized.body_size sizes.now params.now body.now))) }
{
    if totals.functions >= u64::from(FUNCTIONS) {
        return Err(Stop::At(line));
    }
    if body_size(sizes, params, body) > u64::from(LOCAL_INTEGERS) {
        return Err(Stop::At(line));
    }
    totals.functions += 1;
    Ok(())
}

#[tactic(auto, using(std::proofs::lemmas::Bool::Decides::nat_tests))]
fn count_object(totals: &mut Totals, sizes: &Sizes<'_>, d: &Declarator) -> Result<(), Stop>
    ensures places { Finds result (one_over totals.old
        (sized.an_object d.now.second (sized.size_of sizes.now d.now.ctype))) }
    ensures totals { OnOk result (totals.new ≡ sized.totals_after totals.old
        (sized.an_object d.now.second (sized.size_of sizes.now d.now.ctype))) }
{
    let size = sizes.of(&d.ctype);
    if totals.objects >= u64::from(OBJECTS) {
        return Err(Stop::At(d.second));
    }
    if size > u64::from(OBJECT_INTEGERS) {
        return Err(Stop::At(d.second));
    }
    if totals.integers > u64::from(STATIC_INTEGERS) - size {
        return Err(Stop::At(d.second));
    }
    totals.objects += 1;
    totals.integers += size;
    Ok(())
}

#[tactic(auto, unfolding(cl_typing::specs::Sizes::objects, cl_typing::specs::Sizes::over, crate::specs::Counts::after_all), using(cl_scope::proofs::Searches::searches))]
pub fn count_objects(totals: &mut Totals, sizes: &Sizes<'_>, ds: &[Declarator]) -> Result<(), Stop>
    ensures places { Finds result (sized.over totals.old (sized.objects sizes.now ds.now)) }
    ensures totals { OnOk result (totals.new ≡ after_all totals.old (sized.objects sizes.now ds.now)) }
{
    for d in ds {
        count_object(totals, sizes, d)?;
    }
    Ok(())
}

#[tactic(auto, unfolding(cl_typing::specs::Sizes::declared_objects, cl_typing::specs::Sizes::over, crate::specs::Counts::after_all))]
fn count_declaration(totals: &mut Totals, sizes: &Sizes<'_>, d: &Declaration) -> Result<(), Stop>
    ensures places { Finds result (sized.over totals.old (sized.declared_objects sizes.now d.now)) }
    ensures totals { OnOk result (totals.new ≡ after_all totals.old (sized.declared_objects sizes.now d.now)) }
{
    if !d.is_static {
        return Ok(());
    }
    count_objects(totals, sizes, d.names.as_slice())
}

#[tactic(auto, unfolding(cl_typing::specs::Sizes::of_pragma, cl_typing::specs::Sizes::over, crate::specs::Counts::after_all), using(crate::proofs::Overs::finds_alone))]
pub fn count_pragma(totals: &mut Totals, pragma: &Pragma, line: u32) -> Result<(), Stop>
    ensures places { Finds result (sized.over totals.old (sized.of_pragma pragma.now line)) }
    ensures totals { OnOk result (totals.new ≡ after_all totals.old (sized.of_pragma pragma.now line)) }
{
    match pragma {
        Pragma::Def(_, _) => count_definition(totals, line),
        Pragma::Begin(_) | Pragma::End(_) | Pragma::Next(_) => Ok(()),
    }
}

#[cycle(stmt)]
#[tactic(auto, unfolding(cl_typing::specs::Sizes::stmt_counted, cl_typing::specs::Sizes::over, crate::specs::Counts::after_all))]
fn count_stmt(totals: &mut Totals, sizes: &Sizes<'_>, s: &Stmt) -> Result<(), Stop>
    ensures places { Finds result (sized.over totals.old (sized.stmt_counted sizes.now s.now)) }
    ensures totals { OnOk result (totals.new ≡ after_all totals.old (sized.stmt_counted sizes.now s.now)) }
{
    match &s.node {
        Act::Block(ss) => count_all(totals, sizes, ss.as_slice()),
        Act::If(test, body, other) => { count_branches(totals, sizes, &s.node, test, body, other) }
        Act::While(_, body) => count_stmt(totals, sizes, body.get()),
        Act::DoWhile(body, _) => count_stmt(totals, sizes, body.get()),
        Act::For {
            first,
            test,
            next,
            body,
        } => count_loop(totals, sizes, &s.node, first, test, next, body),
        Act::Declare(d) => count_declaration(totals, sizes, d),
        Act::Cle(pragma) => count_pragma(totals, pragma, s.line),
        Act::Empty
        | Act::Set {
            op: _,
            place: _,
            value: _,
        }
        | Act::Bump {
            up: _,
            prefix: _,
            place: _,
        }
        | Act::Call(_)
        | Act::Return(_)
        | Act::Break
        | Act::Continue => Ok(()),
    }
}

/// The two branches of an `if`, which is taken whole.
#[cycle(stmt)]
#[tactic(auto, using(crate::proofs::Overs::overs))]
fn count_branches(
    totals: &mut Totals,
    sizes: &Sizes<'_>,
    whole: &Act,
    test: &Expr,
    body: &Boxed<Stmt>,
    other: &Option<Boxed<Stmt>>,
) -> Result<(), Stop>
    requires { whole.now ≡ Act.If test.now body.now other.now }
    ensures places { Finds result (sized.over totals.old (sized.stmt_counted sizes.now body.now ++
        sized.maybe_counted (option_map (sized.stmt_counted sizes.now) other.now))) }
    ensures totals { OnOk result (totals.new ≡ after_all totals.old (sized.stmt_counted sizes.now body.now ++
        sized.maybe_counted (option_map (sized.stmt_counted sizes.now) other.now))) }
{
    count_stmt(totals, sizes, body.get())?;
    count_optional(totals, sizes, other)
}

/// The head and the body of a `for`, which is taken whole.
#[cycle(stmt)]
#[tactic(auto, using(crate::proofs::Overs::overs))]
fn count_loop(
    totals: &mut Totals,
    sizes: &Sizes<'_>,
    whole: &Act,
    first: &Option<Boxed<Stmt>>,
    test: &Option<Expr>,
    next: &Option<Boxed<Stmt>>,
    body: &Boxed<Stmt>,
) -> Result<(), Stop>
    requires { whole.now ≡ Act.For first.now test.now next.now body.now }
    ensures places { Finds result (sized.over totals.old (
        sized.maybe_counted (option_map (sized.stmt_counted sizes.now) first.now) ++
        (sized.maybe_counted (option_map (sized.stmt_counted sizes.now) next.now) ++
        sized.stmt_counted sizes.now body.now))) }
    ensures totals { OnOk result (totals.new ≡ after_all totals.old (
        sized.maybe_counted (option_map (sized.stmt_counted sizes.now) first.now) ++
        (sized.maybe_counted (option_map (sized.stmt_counted sizes.now) next.now) ++
        sized.stmt_counted sizes.now body.now))) }
{
    count_optional(totals, sizes, first)?;
    count_optional(totals, sizes, next)?;
    count_stmt(totals, sizes, body.get())
}

#[cycle(stmt)]
#[tactic(auto, unfolding(cl_typing::specs::Sizes::over, crate::specs::Counts::after_all))]
fn count_optional(
    totals: &mut Totals,
    sizes: &Sizes<'_>,
    s: &Option<Boxed<Stmt>>,
) -> Result<(), Stop>
    ensures places { Finds result (sized.over totals.old (sized.maybe_counted
        (option_map (sized.stmt_counted sizes.now) s.now))) }
    ensures totals { OnOk result (totals.new ≡ after_all totals.old
        (sized.maybe_counted (option_map (sized.stmt_counted sizes.now) s.now))) }
{
    match s {
        Some(s) => count_stmt(totals, sizes, s.get()),
        None => Ok(()),
    }
}

#[cycle(stmt)]
#[tactic(auto, unfolding(cl_typing::specs::Sizes::over, crate::specs::Counts::after_all))]
fn count_all(totals: &mut Totals, sizes: &Sizes<'_>, all: &[Stmt]) -> Result<(), Stop>
    ensures places { Finds result (sized.over totals.old (flat_map (λ cs. cs)
        (map (sized.stmt_counted sizes.now) all.now))) }
    ensures totals { OnOk result (totals.new ≡ after_all totals.old
        (flat_map (λ cs. cs) (map (sized.stmt_counted sizes.now) all.now))) }
{
    for s in all {
        count_stmt(totals, sizes, s)?;
    }
    Ok(())
}

/// A function, which is counted where it is defined.
#[tactic(auto, unfolding(cl_typing::specs::Sizes::body_counted, cl_typing::specs::Sizes::over, crate::specs::Counts::after_all), using(cl_scope::proofs::Searches::searches))]
pub fn count_body(
    totals: &mut Totals,
    sizes: &Sizes<'_>,
    params: &[Declarator],
    body: &Option<Items<Stmt>>,
    line: u32,
) -> Result<(), Stop>
    ensures places { Finds result (sized.over totals.old (sized.body_counted sizes.now params.now body.now line)) }
    ensures totals { OnOk result (totals.new ≡ after_all totals.old
        (sized.body_counted sizes.now params.now body.now line)) }
{
    match body {
        Some(ss) => {
            count_function(totals, sizes, params, ss.as_slice(), line)?;
            count_all(totals, sizes, ss.as_slice())
        }
        None => Ok(()),
    }
}
