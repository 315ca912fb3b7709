//! Types of expressions.

ghost use Rattle.std.specs.Prelude.{◌≡◌, ◌&&◌, not, if◌then◌else◌, option_map, None, Some, bytes_eq, codes};
ghost use Rattle.cl_tree.specs.declared.kinds.IntKind.TheVariants.{I32};
ghost use Rattle.cl_typing.specs.Scope.{types_of};
ghost use Rattle.cl_typing.specs.Types as types;
ghost use Rattle.cl_scope.specs.Table.{entry_of};
ghost use Rattle.cl_types.specs.Views.{ctype_of, judged_of};

use cl_base::name::Name;
use cl_scope::scopes::Meaning;
use cl_tree::kinds::{BinOp, IntKind, UnOp};
use cl_tree::tree::{CType, Declarator};

/// A type: that of what an operator gives, or one that the program writes.
#[derive(Clone, Copy, Drop)]
pub enum Kind<'a> {
    Integer(IntKind),
    Written(&'a CType),
}

/// What is known of an expression: its type, if no rule fails in it, and whether it is a variable, or an
/// element or a member of one.
#[derive(Clone, Copy, Drop)]
pub struct Judged<'a> {
    pub ctype: Option<Kind<'a>>,
    pub is_place: bool,
}

#[tactic(auto, unfolding(cl_typing::specs::Types::same_type))]
pub fn same_type(a: &CType, b: &CType) -> bool
    ensures { result ≡ types.same_type a.now b.now }
{
    match (a, b) {
        (CType::Void, CType::Void) => true,
        (CType::Integer(k), CType::Integer(l)) => *k == *l,
        (CType::Struct(s), CType::Struct(t)) => s == t,
        (CType::Array(s, n), CType::Array(t, m)) => *n == *m && same_type(s.get(), t.get()),
        (CType::Pointer(s), CType::Pointer(t)) => same_type(s.get(), t.get()),
        (CType::Floating, CType::Floating) => true,
        _ => false,
    }
}

#[tactic(auto, unfolding(cl_typing::specs::Types::is_object_type))]
pub fn is_object_type(t: &CType) -> bool
    ensures { result ≡ types.is_object_type t.now }
{
    match t {
        CType::Integer(_) | CType::Struct(_) => true,
        CType::Array(inner, n) => 1 <= *n && is_object_type(inner.get()),
        CType::Void | CType::Pointer(_) | CType::Floating => false,
    }
}

#[tactic(auto, unfolding(cl_typing::specs::Types::is_result_type))]
pub fn is_result_type(t: &CType) -> bool
    ensures { result ≡ types.is_result_type t.now }
{
    matches!(t, CType::Integer(_) | CType::Struct(_) | CType::Void)
}

#[tactic(auto, unfolding(cl_typing::specs::Types::is_void))]
pub fn is_void(t: &CType) -> bool
    ensures { result ≡ types.is_void t.now }
{
    matches!(t, CType::Void)
}

#[tactic(auto, unfolding(cl_typing::specs::Types::is_array))]
pub fn is_array(t: &CType) -> bool
    ensures { result ≡ types.is_array t.now }
{
    matches!(t, CType::Array(_, _))
}

#[tactic(auto, unfolding(cl_typing::specs::Types::kind_of))]
pub fn kind_of(t: &CType) -> Option<IntKind>
    ensures { result ≡ types.kind_of t.now }
{
    match t {
        CType::Integer(kind) => Some(*kind),
        _ => None,
    }
}

/// The kind of an operand, which is an integer.
#[tactic(auto, unfolding(cl_typing::specs::Types::operand, cl_typing::specs::Types::kind_of))]
pub fn operand(j: Judged<'_>) -> Option<IntKind>
    ensures { result ≡ types.operand (judged_of j.entry) }
{
    match j.ctype {
        Some(Kind::Integer(kind)) => Some(kind),
        Some(Kind::Written(t)) => kind_of(t),
        None => None,
    }
}

/// Whether it is an operand, a condition or an index.
#[tactic(auto, unfolding(cl_typing::specs::Types::is_integer))]
pub fn is_integer(j: Judged<'_>) -> bool
    ensures { result ≡ types.is_integer (judged_of j.entry) }
{
    operand(j).is_some()
}

pub fn nothing<'a>() -> Judged<'a>
    ensures { judged_of result ≡ types.value_of None }
{
    Judged {
        ctype: None,
        is_place: false,
    }
}

pub fn integer<'a>(kind: IntKind) -> Judged<'a>
    ensures { judged_of result ≡ types.value_of (Some (types.integer kind)) }
{
    Judged {
        ctype: Some(Kind::Integer(kind)),
        is_place: false,
    }
}

#[tactic(auto, unfolding(cl_typing::specs::Types::unary_kind))]
pub fn of_one<'a>(op: UnOp, kind: Option<IntKind>) -> Judged<'a>
    ensures { judged_of result ≡ types.made_of (types.unary_kind op) kind }
{
    match (op, kind) {
        (UnOp::Minus | UnOp::Plus | UnOp::Flip, Some(kind)) => integer(kind.promoted()),
        (UnOp::Not, Some(_)) => integer(IntKind::I32),
        (UnOp::Star | UnOp::Amp, Some(_)) => nothing(),
        (_, None) => nothing(),
    }
}

#[tactic(auto, unfolding(cl_typing::specs::Types::binary_kind))]
pub fn binary_kind(op: BinOp, a: IntKind, b: IntKind) -> IntKind
    ensures { result ≡ types.binary_kind op a b }
{
    match op {
        BinOp::Or
        | BinOp::And
        | BinOp::Equal
        | BinOp::Unequal
        | BinOp::Less
        | BinOp::Greater
        | BinOp::AtMost
        | BinOp::AtLeast => IntKind::I32,
        BinOp::Left | BinOp::Right => a.promoted(),
        BinOp::BitOr
        | BinOp::Xor
        | BinOp::BitAnd
        | BinOp::Add
        | BinOp::Sub
        | BinOp::Mul
        | BinOp::Div
        | BinOp::Rem => a.common(b),
    }
}

pub fn of_two<'a>(op: BinOp, a: Option<IntKind>, b: Option<IntKind>) -> Judged<'a>
    ensures { judged_of result ≡ types.of_two (types.binary_kind op) a b }
{
    match (a, b) {
        (Some(a), Some(b)) => integer(binary_kind(op, a, b)),
        _ => nothing(),
    }
}

pub fn of_three<'a>(c: Option<IntKind>, a: Option<IntKind>, b: Option<IntKind>) -> Judged<'a>
    ensures { judged_of result ≡ types.of_three c a b }
{
    match (c, a, b) {
        (Some(_), Some(a), Some(b)) => integer(a.common(b)),
        _ => nothing(),
    }
}

pub fn cast_to<'a>(t: &'a CType, kind: Option<IntKind>) -> Judged<'a>
    ensures { judged_of result ≡ types.cast_to t.now (types.kind_of t.now) kind }
{
    match (kind_of(t), kind) {
        (Some(_), Some(_)) => Judged {
            ctype: Some(Kind::Written(t)),
            is_place: false,
        },
        _ => nothing(),
    }
}

pub fn of_name<'a>(found: Option<Meaning<'a>>) -> Judged<'a>
    ensures { judged_of result ≡ types.of_name (option_map entry_of found.entry) }
{
    match found {
        Some(Meaning::Variable(t)) => Judged {
            ctype: Some(Kind::Written(t)),
            is_place: true,
        },
        _ => nothing(),
    }
}

/// What a store, an initialiser, an argument or a result takes: an integer for an integer, or the same struct.
#[tactic(auto, unfolding(cl_typing::specs::Types::takes))]
pub fn takes(t: &CType, j: Judged<'_>) -> bool
    ensures { result ≡ types.takes t.now (judged_of j.entry) }
{
    match (t, j.ctype) {
        (CType::Integer(_), Some(Kind::Integer(_))) => true,
        (CType::Integer(_), Some(Kind::Written(CType::Integer(_)))) => true,
        (CType::Struct(s), Some(Kind::Written(CType::Struct(t)))) => s == t,
        _ => false,
    }
}

/// The same for an integer of a kind.
#[tactic(auto, unfolding(cl_typing::specs::Types::takes))]
fn integer_takes(kind: IntKind, j: Judged<'_>) -> bool
    ensures { result ≡ types.takes (types.integer kind) (judged_of j.entry) }
{
    matches!(
        j.ctype,
        Some(Kind::Integer(_)) | Some(Kind::Written(CType::Integer(_)))
    )
}

/// Whether a place takes a value.
pub fn place_takes(place: Judged<'_>, j: Judged<'_>) -> bool
    ensures { result ≡ types.place_takes (judged_of place.entry) (judged_of j.entry) }
{
    match place.ctype {
        Some(Kind::Written(t)) => takes(t, j),
        Some(Kind::Integer(kind)) => integer_takes(kind, j),
        None => false,
    }
}

#[tactic(auto, unfolding(cl_typing::specs::Types::same_type))]
fn is_integer_of(t: &CType, kind: IntKind) -> bool
    ensures { result ≡ types.same_type t.now (types.integer kind) }
{
    match t {
        CType::Integer(k) => *k == kind,
        _ => false,
    }
}

fn is_of_type(t: &CType, u: Option<Kind<'_>>) -> bool
    ensures { result ≡ types.is_of_type t.now (option_map ctype_of u.entry) }
{
    match u {
        Some(Kind::Written(u)) => same_type(t, u),
        Some(Kind::Integer(kind)) => is_integer_of(t, kind),
        None => false,
    }
}

#[tactic(auto, unfolding(cl_typing::specs::Types::argument_fits))]
pub fn argument_fits(t: &CType, j: Judged<'_>) -> bool
    ensures { result ≡ types.argument_fits t.now (judged_of j.entry) }
{
    if is_array(t) {
        j.is_place && is_of_type(t, j.ctype)
    } else {
        takes(t, j)
    }
}

/// The parameters of what is called; `getchar` has none.
pub fn params_in<'a>(found: Option<Meaning<'a>>) -> &'a [Declarator]
    ensures { types_of result.now ≡ types.params_in (option_map entry_of found.entry) }
{
    match found {
        Some(Meaning::Function(_, params)) => params.as_slice(),
        Some(Meaning::Variable(_)) => &[],
        Some(Meaning::Structure(_)) => &[],
        None => &[],
    }
}

/// Whether a function is called as it may be: `main` isn't called.
fn may_call(name: &Name, fits: bool) -> bool
    ensures { result ≡ (not (bytes_eq name.now (codes "main")) && fits) }
{
    if name.text() == "main" {
        return false;
    }
    fits
}

/// What a call gives whose name the program doesn't declare.
fn of_known<'a>(name: &Name, fits: bool) -> Judged<'a>
    ensures { judged_of result ≡ types.value_of (if bytes_eq name.now (codes "getchar") && fits then Some
        (types.integer I32) else None) }
{
    if name.text() != "getchar" {
        return nothing();
    }
    if !fits {
        return nothing();
    }
    integer(IntKind::I32)
}

fn of_result<'a>(means: Meaning<'a>) -> Judged<'a>
    ensures { judged_of result ≡ types.of_result (entry_of means.entry) }
{
    match means {
        Meaning::Function(gives, _) => Judged {
            ctype: Some(Kind::Written(gives)),
            is_place: false,
        },
        _ => nothing(),
    }
}

/// What a call gives, where `fits` says whether the arguments fit.
pub fn of_found<'a>(name: &Name, fits: bool, found: Option<Meaning<'a>>) -> Judged<'a>
    ensures { judged_of result ≡ types.of_found name.now fits (option_map entry_of found.entry) }
{
    let Some(means) = found else {
        return of_known(name, fits);
    };
    if !may_call(name, fits) {
        return nothing();
    }
    of_result(means)
}

#[tactic(auto, unfolding(cl_typing::specs::Types::element_of))]
fn element_of<'a>(t: &'a CType) -> Option<&'a CType>
    ensures { option_map (λ t. t.now) result ≡ types.element_of t.now }
{
    match t {
        CType::Array(inner, _) => Some(inner.get()),
        _ => None,
    }
}

#[tactic(auto, unfolding(cl_typing::specs::Types::element_of))]
fn element_kind<'a>(t: Option<Kind<'a>>) -> Option<Kind<'a>>
    ensures { option_map ctype_of result ≡ types.given (option_map ctype_of t.entry) types.element_of }
{
    match t {
        Some(Kind::Written(u)) => match element_of(u) {
            Some(e) => Some(Kind::Written(e)),
            None => None,
        },
        Some(Kind::Integer(_)) => None,
        None => None,
    }
}

pub fn of_index<'a>(a: Judged<'a>, kind: Option<IntKind>) -> Judged<'a>
    ensures { judged_of result ≡ types.of_index (judged_of a.entry) kind }
{
    match kind {
        Some(_) => Judged {
            ctype: element_kind(a.ctype),
            is_place: a.is_place,
        },
        None => nothing(),
    }
}
