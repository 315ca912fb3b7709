//! Types of initialisers and of what declarations declare.

ghost use Rattle.std.specs.Prelude.{◌≡◌, ◌∷◌, ◌&&◌, ◌||◌, not, map, OnOk};
ghost use Rattle.cl_typing.specs.Scope.{with_names, bound};
ghost use Rattle.cl_typing.specs.Types as types;
ghost use Rattle.cl_typing.specs.Wrong as wrong;
ghost use Rattle.cl_scope.specs.Finds.{Finds};

use cl_members::fields::Fields;
use cl_members::tags::Tags;
use cl_scope::scopes::{Meaning, Scopes};
use cl_scope::search::unless;
use cl_scope::stop::Stop;
use cl_tree::tree::{CType, Declaration, Declarator, Expr, Init};
use cl_types::constants::is_settled;
use cl_types::exprs::judge;
use cl_types::types::{is_object_type, takes};

/// Whether an expression may initialise an object of a type. What an object of static duration starts
/// with is settled before the run.
fn expr_fits<'a>(
    tags: &Tags<'a>,
    names: &Scopes<'a>,
    is_static: bool,
    e: &'a Expr,
    t: &CType,
) -> bool
    ensures { result ≡ (types.takes t.now (types.judged tags.now names.now e.now) &&
        (not is_static || types.is_settled e.now)) }
{
    if !takes(t, judge(tags, names, e)) {
        return false;
    }
    !is_static || is_settled(e)
}

/// Whether an initialiser fits a type: braces initialise structs and arrays, with at most as many
/// parts as there are.
#[cycle(init)]
#[tactic(auto, unfolding(cl_typing::specs::Wrong::init_fits))]
pub fn init_fits<'a>(
    tags: &Tags<'a>,
    names: &Scopes<'a>,
    is_static: bool,
    init: &'a Init,
    t: &'a CType,
) -> bool
    ensures { result ≡ wrong.init_fits tags.now names.now is_static init.now t.now }
{
    match init {
        Init::One(e) => expr_fits(tags, names, is_static, e, t),
        Init::Many(parts) => match t {
            CType::Array(inner, n) => {
                if parts.as_slice().len() as u64 > *n {
                    return false;
                }
                all_fit(tags, names, is_static, parts.as_slice(), inner.get())
            }
            CType::Struct(tag) => {
                let Some(fields) = tags.find(tag) else {
                    return false;
                };
                members_fit(tags, names, is_static, parts.as_slice(), fields)
            }
            CType::Void | CType::Integer(_) | CType::Pointer(_) | CType::Floating => false,
        },
    }
}

/// The parts of an array.
#[cycle(init)]
#[tactic(auto, unfolding(cl_typing::specs::Wrong::all_fit))]
fn all_fit<'a>(
    tags: &Tags<'a>,
    names: &Scopes<'a>,
    is_static: bool,
    parts: &'a [Init],
    t: &'a CType,
) -> bool
    ensures { result ≡ wrong.all_fit t.now (map (wrong.init_fits tags.now names.now is_static) parts.now) }
{
    for p in parts {
        if !init_fits(tags, names, is_static, p, t) {
            return false;
        }
    }
    true
}

/// The parts of a struct.
#[cycle(init)]
#[tactic(auto, unfolding(cl_typing::specs::Wrong::members_fit))]
fn members_fit<'a>(
    tags: &Tags<'a>,
    names: &Scopes<'a>,
    is_static: bool,
    parts: &'a [Init],
    fields: &Fields<'a>,
) -> bool
    ensures { result ≡ wrong.members_fit fields.now (map (wrong.init_fits tags.now names.now is_static) parts.now) }
{
    for (i, p) in parts.iter().enumerate() {
        let Some(t) = fields.get(i) else {
            return false;
        };
        if !init_fits(tags, names, is_static, p, t) {
            return false;
        }
    }
    true
}

fn may_start<'a>(
    tags: &Tags<'a>,
    names: &Scopes<'a>,
    is_static: bool,
    t: &'a CType,
    init: &'a Option<Init>,
) -> bool
    ensures { result ≡ wrong.may_start tags.now names.now is_static t.now init.now }
{
    match init {
        Some(i) => init_fits(tags, names, is_static, i, t),
        None => true,
    }
}

/// One declarator, whose name is known in its own initialiser.
fn look_name<'a>(
    tags: &Tags<'a>,
    names: &mut Scopes<'a>,
    is_static: bool,
    d: &'a Declarator,
) -> Result<(), Stop>
    ensures places { Finds result (wrong.name_wrong tags.now names.old is_static d.now) }
    ensures names { OnOk result (names.new ≡ bound d.now ∷ names.old) }
{
    names.bind(&d.name, Meaning::Variable(&d.ctype))?;
    let right = is_object_type(&d.ctype) && may_start(tags, names, is_static, &d.ctype, &d.init);
    unless(right, d.second)
}

#[tactic(auto, unfolding(cl_typing::specs::Wrong::names_wrong, cl_typing::specs::Scope::with_names), using(cl_scope::proofs::Searches::searches))]
pub fn look_names<'a>(
    tags: &Tags<'a>,
    names: &mut Scopes<'a>,
    is_static: bool,
    ds: &'a [Declarator],
) -> Result<(), Stop>
    ensures places { Finds result (wrong.names_wrong tags.now names.old is_static ds.now) }
    ensures names { OnOk result (names.new ≡ with_names ds.now names.old) }
{
    for d in ds {
        look_name(tags, names, is_static, d)?;
    }
    Ok(())
}

/// The types of members or parameters.
#[tactic(auto, unfolding(cl_typing::specs::Wrong::types_wrong), using(cl_scope::proofs::Searches::searches))]
pub fn look_types(ds: &[Declarator]) -> Result<(), Stop>
    ensures { Finds result (wrong.types_wrong ds.now) }
{
    for d in ds {
        unless(is_object_type(&d.ctype), d.second)?;
    }
    Ok(())
}

#[tactic(auto, unfolding(cl_typing::specs::Wrong::members_wrong), using(cl_scope::proofs::Searches::searches))]
pub fn look_members(members: &[Declaration]) -> Result<(), Stop>
    ensures { Finds result (wrong.members_wrong members.now) }
{
    for m in members {
        look_types(m.names.as_slice())?;
    }
    Ok(())
}
