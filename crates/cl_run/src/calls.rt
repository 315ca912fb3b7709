//! Which function a call names.

ghost use Rattle.std.specs.Prelude.{◌≡◌, ◌<◌, ◌+◌, ◌^◌, ◌==◌, ◌&&◌, bytes_eq, length, MatchOption, None, Some, slice_get};
ghost use Rattle.cl_run.specs.FormCalls.{cost_of, definition, defined, kind_of, row_from};

use cl_base::name::Name;
use cl_mean::checked::GedlRow;
use cl_tree::kinds::IntKind;
use cl_tree::tree::{CType, Item, Stmt};

/// The row of a call, and its number.
#[derive(Clone, Copy)]
pub struct Route<'a> {
    pub number: u32,
    pub row: &'a GedlRow,
}

/// Is this the row by which a level calls a function?
fn is_called(row: &GedlRow, level: u32, name: &Name) -> bool
    ensures { result ≡ ((row.now.from == level) && bytes_eq row.now.name name.now) }
{
    row.from == level && row.name.as_bytes() == name.as_bytes()
}

/// The row by which a level calls a function.
#[tactic(auto, unfolding(crate::specs::FormCalls::row_from), using(std::proofs::lemmas::Option::slice_get_read))]
pub fn route_of<'a>(rows: &'a [GedlRow], level: u32, name: &Name) -> Option<Route<'a>>
    requires { length rows.now < 2 ^ 31 }
    ensures row { MatchOption result (row_from 0 rows.now level name.now ≡ None) (λ route. row_from 0 rows.now level name.now ≡ Some (route.number, route.row.now)) }
    ensures place { MatchOption result Unit (λ route. slice_get rows.now route.number ≡ Some route.row.now) }
{
    for (number, row) in rows.iter().enumerate() {
        if is_called(row, level, name) {
            let number = number as u32;
            return Some(Route { number, row });
        }
    }
    None
}

/// The definition of a function with a result: its statements, the kind of the result, and the line of its name.
#[derive(Clone, Copy)]
pub struct Body<'a> {
    pub statements: &'a [Stmt],
    pub returns: IntKind,
    pub line: u32,
}

#[tactic(auto, unfolding(crate::specs::FormCalls::definition))]
fn definition<'a>(name: &str, item: &'a Item) -> Option<Body<'a>>
    ensures { MatchOption result (definition name.now item.now ≡ None) (λ b. definition name.now item.now ≡ Some (record { statements = b.statements.now; returns = b.returns; line = b.line })) }
{
    match item {
        Item::Function {
            result: CType::Integer(returns),
            name: called,
            body: Some(body),
            second,
            ..
        } if called.text() == name => Some(Body {
            statements: body.as_slice(),
            returns: *returns,
            line: *second,
        }),
        _ => None,
    }
}

/// The first definition of a name.
pub fn defined<'a>(name: &str, items: &'a [Item]) -> Option<Body<'a>>
    ensures { MatchOption result (defined name.now items.now ≡ None) (λ b. defined name.now items.now ≡ Some (record { statements = b.statements.now; returns = b.returns; line = b.line })) }
{
    for item in items {
        if let Some(body) = definition(name, item) {
            return Some(body);
        }
    }
    None
}

/// The kind of a result.
#[tactic(auto, unfolding(crate::specs::FormCalls::kind_of))]
pub fn kind_of(ctype: &CType) -> IntKind
    ensures { result ≡ kind_of ctype.now }
{
    match ctype {
        CType::Integer(kind) => *kind,
        _ => IntKind::I32,
    }
}

/// What the two frames of a call cost the level that makes it.
pub fn cost_of(row: &GedlRow) -> u32
    requires { row.now.request + row.now.reply < 2 ^ 31 }
    ensures { result ≡ cost_of row.now }
{
    50 + (row.request + row.reply)
}
