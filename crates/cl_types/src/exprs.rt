//! The types of expressions.

ghost use Rattle.std.specs.Prelude.{◌≡◌, map, option_map};
ghost use Rattle.cl_typing.specs.Scope.{types_of};
ghost use Rattle.cl_typing.specs.Types as types;
ghost use Rattle.cl_types.specs.Views.{ctype_of, judged_of};

use crate::types::{
    Judged, Kind, argument_fits, cast_to, integer, nothing, of_found, of_index, of_name, of_one,
    of_three, of_two, operand, params_in,
};
use cl_base::name::Name;
use cl_members::tags::Tags;
use cl_scope::scopes::Scopes;
use cl_tree::kinds::IntKind;
use cl_tree::tree::{CType, Declarator, Expr, Node};

#[tactic(auto, unfolding(cl_typing::specs::Types::member_of))]
fn member_of<'a>(tags: &Tags<'a>, t: &CType, name: &Name) -> Option<&'a CType>
    ensures { option_map (λ t. t.now) result ≡ types.member_of tags.now name.now t.now }
{
    match t {
        CType::Struct(tag) => match tags.find(tag) {
            Some(fields) => fields.find(name),
            None => None,
        },
        _ => None,
    }
}

#[tactic(auto, unfolding(cl_typing::specs::Types::member_of))]
fn member_kind<'a>(tags: &Tags<'a>, t: Option<Kind<'a>>, name: &Name) -> Option<Kind<'a>>
    ensures { option_map ctype_of result ≡ types.given (option_map ctype_of t.entry)
        (types.member_of tags.now name.now) }
{
    match t {
        Some(Kind::Written(u)) => match member_of(tags, u, name) {
            Some(m) => Some(Kind::Written(m)),
            None => None,
        },
        Some(Kind::Integer(_)) => None,
        None => None,
    }
}

fn of_member<'a>(tags: &Tags<'a>, a: Judged<'a>, name: &Name) -> Judged<'a>
    ensures { judged_of result ≡ types.of_member tags.now name.now (judged_of a.entry) }
{
    Judged {
        ctype: member_kind(tags, a.ctype, name),
        is_place: a.is_place,
    }
}

#[cycle(expr)]
#[tactic(auto, unfolding(cl_typing::specs::Types::judged))]
pub fn judge<'a>(tags: &Tags<'a>, names: &Scopes<'a>, e: &'a Expr) -> Judged<'a>
    ensures { judged_of result ≡ types.judged tags.now names.now e.now }
{
    match &e.node {
        Node::Number { value: _, kind } => integer(*kind),
        Node::Letter(_) => integer(IntKind::I32),
        Node::Real | Node::Text(_) | Node::Arrow(_, _) => nothing(),
        Node::Variable(name) => of_name(names.find(name)),
        Node::Unary(op, inner) => of_one(*op, operand(judge(tags, names, inner.get()))),
        Node::Binary(op, a, b) => of_two(
            *op,
            operand(judge(tags, names, a.get())),
            operand(judge(tags, names, b.get())),
        ),
        Node::Choice(c, a, b) => of_three(
            operand(judge(tags, names, c.get())),
            operand(judge(tags, names, a.get())),
            operand(judge(tags, names, b.get())),
        ),
        Node::Cast(t, inner) => cast_to(t, operand(judge(tags, names, inner.get()))),
        Node::Call(name, arguments) => {
            let found = names.find(name);
            let fits = arguments_fit(tags, names, params_in(found), arguments.as_slice());
            of_found(name, fits, found)
        }
        Node::Index(a, i) => of_index(
            judge(tags, names, a.get()),
            operand(judge(tags, names, i.get())),
        ),
        Node::Member(a, name) => of_member(tags, judge(tags, names, a.get()), name),
        Node::Paren(inner) => judge(tags, names, inner.get()),
    }
}

/// As many arguments as parameters, each of which fits.
#[cycle(expr)]
#[tactic(auto, unfolding(cl_typing::specs::Types::arguments_fit))]
fn arguments_fit<'a>(
    tags: &Tags<'a>,
    names: &Scopes<'a>,
    params: &'a [Declarator],
    arguments: &'a [Expr],
) -> bool
    ensures { result ≡ types.arguments_fit (types_of params.now) (map (types.judged tags.now names.now) arguments.now) }
{
    for (i, e) in arguments.iter().enumerate() {
        let Some(p) = params.get(i) else {
            return false;
        };
        if !argument_fits(&p.ctype, judge(tags, names, e)) {
            return false;
        }
    }
    arguments.len() == params.len()
}
