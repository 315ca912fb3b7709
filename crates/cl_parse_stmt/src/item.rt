//! Items.

ghost use Rattle.std.specs.Prelude.{◌≡◌, ◌∷◌, [], length, suc, IfOk, Some, None};
ghost use Rattle.cl_tree.specs.Spelling.{is_void};
ghost use Rattle.cl_tree.specs.Words.{comes};
ghost use Rattle.cl_parse_expr.specs.Cursor.{Gives, Finds};
ghost use Rattle.cl_parse_expr.specs.Reading.{expr_at};
ghost use Rattle.cl_parse_stmt.specs.Declaring.{init_at, declared_as};
ghost use Rattle.cl_parse_stmt.specs.Stating.{block_at, listed_of, stmt_at};
ghost use Rattle.cl_parse_stmt.specs.Itemising.{member_at, members_at, struct_from, parameter_at, more_parameters, parameters_at, body_at, function_from, variables_from, called_at, plain_from, plain_at, struct_at, unmarked_at, item_step, item_of};

use crate::declare::{declarator_at, names_of};
use crate::stmt::block_at;
use cl_base::name::{Name, NoMemory};
use cl_parse_expr::cursor::{Fixed, after, line_of, name_at, wanted};
use cl_parse_expr::stop::Stop;
use cl_parse_expr::types::{base_at, pointers_at, second_at, type_of};
use cl_terminals::terminals::copy_pragma;
use cl_tree::grammar::{Base, Keyword, Sign, Terminal};
use cl_tree::token::{Mark, Pragma};
use cl_tree::tree::{CType, Declaration, Declarator, Item, Stmt};
use sqlite_items::{Boxed, Items};
use std::alloc::Global;

/// The members of one base, with their `;`.
#[tactic(auto, unfolding(crate::specs::Itemising::member_at))]
fn member_at(
    alloc: Global,
    room: usize,
    first: u32,
    terminals: &[Terminal],
) -> Result<(Declaration, &[Terminal]), Stop>
    ensures { Gives (λ x. (x.0, x.1.now)) result (member_at (init_at room (expr_at room)) first terminals.now) }
{
    let Some((base, floating, rest)) = base_at(alloc, terminals)? else {
        return Err(Stop::Unread)
    };
    let (names, rest) = names_of(alloc, room, false, &base, floating, first, rest)?;
    let (_, rest) = wanted(Fixed::Mark(Mark::Semicolon), rest)?;
    Ok((
        Declaration {
            is_static: false,
            names,
        },
        rest,
    ))
}

#[tactic(auto, unfolding(crate::specs::Itemising::members_at), using(crate::proofs::ItemTurns::members_go))]
fn members_at(
    alloc: Global,
    room: usize,
    first: u32,
    members: Items<Declaration>,
    start: &[Terminal],
) -> Result<(Items<Declaration>, &[Terminal]), Stop>
    ensures { Gives (λ x. (x.0, x.1.now)) result (members_at (init_at room (expr_at room)) first (suc (length start.now)) members start.now) }
{
    let mut done = members;
    let mut terminals = start;
    let mut turns = start.len();
    'members: loop {
        if let Some((_, rest)) = after(Fixed::Mark(Mark::CloseBrace), terminals) {
            return Ok((done, rest));
        }
        let (next, rest) = member_at(alloc, room, first, terminals)?;
        done.push(next)?;
        terminals = rest;
        if turns == 0 {
            return Err(Stop::Unread);
        }
        turns -= 1;
    }
}

fn structure(
    alloc: Global,
    tag: &Name,
    members: Items<Declaration>,
    line: u32,
) -> Result<Boxed<Item>, NoMemory>
    ensures { IfOk result (λ i. i ≡ Item.Struct tag.now members line) }
{
    let name = tag.copy(alloc)?;
    Ok(Boxed::new(
        alloc,
        Item::Struct {
            name,
            members,
            line,
        },
    )?)
}

/// A struct behind its `{`.
#[tactic(auto, unfolding(crate::specs::Itemising::struct_from))]
fn struct_from<'a>(
    alloc: Global,
    room: usize,
    line: u32,
    tag: &Name,
    terminals: &'a [Terminal],
) -> Result<(Boxed<Item>, &'a [Terminal]), Stop>
    ensures { Gives (λ x. (x.0, x.1.now)) result (struct_from (init_at room (expr_at room)) line tag.now terminals.now) }
{
    let (first, rest) = member_at(alloc, room, line, terminals)?;
    let mut members = Items::new(alloc);
    members.push(first)?;
    let (members, rest) = members_at(alloc, room, line, members, rest)?;
    let (_, rest) = wanted(Fixed::Mark(Mark::Semicolon), rest)?;
    Ok((structure(alloc, tag, members, line)?, rest))
}

#[tactic(auto, unfolding(crate::specs::Itemising::parameter_at))]
fn parameter_at(
    alloc: Global,
    room: usize,
    first: u32,
    terminals: &[Terminal],
) -> Result<(Boxed<Declarator>, &[Terminal]), Stop>
    ensures { Gives (λ x. (x.0, x.1.now)) result (parameter_at (init_at room (expr_at room)) first terminals.now) }
{
    let Some((base, floating, rest)) = base_at(alloc, terminals)? else {
        return Err(Stop::Unread)
    };
    if let Base::Void = &base {
        return Err(Stop::Unread);
    }
    declarator_at(alloc, room, false, &base, floating, first, rest)
}

#[tactic(auto, unfolding(crate::specs::Itemising::more_parameters), using(crate::proofs::ItemTurns::parameters_go))]
fn more_parameters(
    alloc: Global,
    room: usize,
    first: u32,
    params: Items<Declarator>,
    start: &[Terminal],
) -> Result<(Items<Declarator>, &[Terminal]), Stop>
    ensures { Gives (λ x. (x.0, x.1.now)) result (more_parameters (init_at room (expr_at room)) first (length start.now) params start.now) }
{
    let mut done = params;
    let mut terminals = start;
    let mut turns = start.len();
    'parameters: while turns != 0 {
        match after(Fixed::Mark(Mark::Comma), terminals) {
            None => {
                let (_, rest) = wanted(Fixed::Mark(Mark::CloseParen), terminals)?;
                return Ok((done, rest));
            }
            Some((_, rest)) => {
                let (next, rest) = parameter_at(alloc, room, first, rest)?;
                done.push(next.into_inner())?;
                terminals = rest;
            }
        }
        turns -= 1;
    }
    Err(Stop::Unread)
}

/// Whether `void` stands for the parameters, the parameters, and what follows their `)`.
#[tactic(auto, unfolding(crate::specs::Itemising::parameters_at))]
fn parameters_at(
    alloc: Global,
    room: usize,
    first: u32,
    terminals: &[Terminal],
) -> Result<(bool, Items<Declarator>, &[Terminal]), Stop>
    ensures { Gives (λ x. (x.0, x.1, x.2.now)) result (parameters_at (init_at room (expr_at room)) first terminals.now) }
{
    if let Some((_, rest)) = after(Fixed::Mark(Mark::CloseParen), terminals) {
        return Ok((false, Items::new(alloc), rest));
    }
    if let Some((_, rest)) = after(Fixed::Key(Keyword::Void), terminals) {
        let (_, rest) = wanted(Fixed::Mark(Mark::CloseParen), rest)?;
        return Ok((true, Items::new(alloc), rest));
    }
    let (next, rest) = parameter_at(alloc, room, first, terminals)?;
    let mut params = Items::new(alloc);
    params.push(next.into_inner())?;
    let (params, rest) = more_parameters(alloc, room, first, params, rest)?;
    Ok((false, params, rest))
}

#[tactic(auto, unfolding(crate::specs::Itemising::body_at))]
fn body_at(
    alloc: Global,
    room: usize,
    terminals: &[Terminal],
) -> Result<(Option<Items<Stmt>>, &[Terminal]), Stop>
    ensures { Gives (λ x. (x.0, x.1.now)) result (body_at (listed_of (stmt_at room (expr_at room) (init_at room (expr_at room))) (init_at room (expr_at room))) terminals.now) }
{
    match after(Fixed::Mark(Mark::Semicolon), terminals) {
        Some((_, rest)) => Ok((None, rest)),
        None => {
            let (_, rest) = wanted(Fixed::Mark(Mark::OpenBrace), terminals)?;
            let (all, rest) = block_at(alloc, room, room, rest)?;
            Ok((Some(all), rest))
        }
    }
}

fn function(
    alloc: Global,
    is_static: bool,
    given: Boxed<CType>,
    name: &Name,
    params: (bool, Items<Declarator>),
    body: Option<Items<Stmt>>,
    line: u32,
    second: u32,
) -> Result<Boxed<Item>, NoMemory>
    ensures { IfOk result (λ i. i ≡ Item.Function is_static given name.now params.0 params.1 body line second) }
{
    let name = name.copy(alloc)?;
    let (void_word, params) = params;
    Ok(Boxed::new(
        alloc,
        Item::Function {
            is_static,
            result: given.into_inner(),
            name,
            void_word,
            params,
            body,
            line,
            second,
        },
    )?)
}

/// A function behind its `(`.
#[tactic(auto, unfolding(crate::specs::Itemising::function_from))]
fn function_from<'a>(
    alloc: Global,
    room: usize,
    is_static: bool,
    given: Boxed<CType>,
    name: &Name,
    first: u32,
    second: u32,
    terminals: &'a [Terminal],
) -> Result<(Boxed<Item>, &'a [Terminal]), Stop>
    ensures { Gives (λ x. (x.0, x.1.now)) result (function_from (listed_of (stmt_at room (expr_at room) (init_at room (expr_at room))) (init_at room (expr_at room))) (init_at room (expr_at room)) is_static given name.now first second terminals.now) }
{
    let (void_word, params, rest) = parameters_at(alloc, room, first, terminals)?;
    let (body, rest) = body_at(alloc, room, rest)?;
    Ok((
        function(
            alloc,
            is_static,
            given,
            name,
            (void_word, params),
            body,
            first,
            second,
        )?,
        rest,
    ))
}

fn variables(
    alloc: Global,
    is_static: bool,
    names: Items<Declarator>,
) -> Result<Boxed<Item>, NoMemory>
    ensures { IfOk result (λ i. i ≡ Item.Variables (declared_as is_static names)) }
{
    Ok(Boxed::new(alloc, Item::Variables(Declaration { is_static, names }))?)
}

#[tactic(auto, unfolding(crate::specs::Itemising::variables_from))]
fn variables_from<'a>(
    alloc: Global,
    room: usize,
    is_static: bool,
    base: &Base,
    floating: u32,
    first: u32,
    terminals: &'a [Terminal],
) -> Result<(Boxed<Item>, &'a [Terminal]), Stop>
    ensures { Gives (λ x. (x.0, x.1.now)) result (variables_from (init_at room (expr_at room)) is_static base.now floating first terminals.now) }
{
    let (names, rest) = names_of(alloc, room, true, base, floating, first, terminals)?;
    let (_, rest) = wanted(Fixed::Mark(Mark::Semicolon), rest)?;
    Ok((variables(alloc, is_static, names)?, rest))
}

/// A name and a `(`, which make a function.
#[tactic(auto, unfolding(crate::specs::Itemising::called_at))]
fn called_at(terminals: &[Terminal]) -> Option<(&Name, u32, &[Terminal])>
    ensures { Finds (λ x. (x.0.now, x.1, x.2.now)) result (called_at terminals.now) }
{
    let Some((name, line, rest)) = name_at(terminals) else {
        return None
    };
    match after(Fixed::Mark(Mark::OpenParen), rest) {
        Some((_, rest)) => Some((name, line, rest)),
        None => None,
    }
}

#[tactic(auto, unfolding(crate::specs::Itemising::plain_from))]
fn plain_from<'a>(
    alloc: Global,
    room: usize,
    is_static: bool,
    first: u32,
    base: &Base,
    floating: u32,
    terminals: &'a [Terminal],
) -> Result<(Boxed<Item>, &'a [Terminal]), Stop>
    ensures { Gives (λ x. (x.0, x.1.now)) result (plain_from (listed_of (stmt_at room (expr_at room) (init_at room (expr_at room))) (init_at room (expr_at room))) (init_at room (expr_at room)) is_static first (base.now, floating, terminals.now)) }
{
    let plain = type_of(alloc, base)?;
    let (ctype, rest) = pointers_at(alloc, plain, terminals)?;
    match called_at(rest) {
        Some((name, line, rest)) => function_from(
            alloc,
            room,
            is_static,
            ctype,
            name,
            first,
            second_at(base, floating, line, terminals),
            rest,
        ),
        None => variables_from(alloc, room, is_static, base, floating, first, terminals),
    }
}

/// A function or variables, behind `static`.
#[tactic(auto, unfolding(crate::specs::Itemising::plain_at))]
fn plain_at(
    alloc: Global,
    room: usize,
    is_static: bool,
    first: u32,
    terminals: &[Terminal],
) -> Result<(Boxed<Item>, &[Terminal]), Stop>
    ensures { Gives (λ x. (x.0, x.1.now)) result (plain_at (listed_of (stmt_at room (expr_at room) (init_at room (expr_at room))) (init_at room (expr_at room))) (init_at room (expr_at room)) is_static first terminals.now) }
{
    let Some((base, floating, rest)) = base_at(alloc, terminals)? else {
        return Err(Stop::Unread)
    };
    plain_from(alloc, room, is_static, first, &base, floating, rest)
}

/// `struct`, a tag and a `{`.
#[tactic(auto, unfolding(crate::specs::Itemising::struct_at))]
fn struct_at(terminals: &[Terminal]) -> Option<(&Name, &[Terminal])>
    ensures { Finds (λ x. (x.0.now, x.1.now)) result (struct_at terminals.now) }
{
    let Some((_, rest)) = after(Fixed::Key(Keyword::Struct), terminals) else {
        return None
    };
    let Some((name, _, rest)) = name_at(rest) else {
        return None
    };
    match after(Fixed::Mark(Mark::OpenBrace), rest) {
        Some((_, rest)) => Some((name, rest)),
        None => None,
    }
}

#[tactic(auto, unfolding(crate::specs::Itemising::unmarked_at))]
fn unmarked_at(
    alloc: Global,
    room: usize,
    terminals: &[Terminal],
) -> Result<(Boxed<Item>, &[Terminal]), Stop>
    ensures { Gives (λ x. (x.0, x.1.now)) result (unmarked_at (listed_of (stmt_at room (expr_at room) (init_at room (expr_at room))) (init_at room (expr_at room))) (init_at room (expr_at room)) terminals.now) }
{
    match struct_at(terminals) {
        Some((tag, rest)) => struct_from(alloc, room, line_of(terminals), tag, rest),
        None => plain_at(alloc, room, false, line_of(terminals), terminals),
    }
}

fn pragma_item(alloc: Global, pragma: &Pragma, line: u32) -> Result<Boxed<Item>, NoMemory>
    ensures { IfOk result (λ i. i ≡ Item.Cle pragma.now line) }
{
    let pragma = copy_pragma(alloc, pragma)?;
    Ok(Boxed::new(alloc, Item::Cle(pragma, line))?)
}

/// An item, and the terminals after it.
#[tactic(auto, unfolding(crate::specs::Itemising::item_of))]
pub fn item_at(
    alloc: Global,
    room: usize,
    terminals: &[Terminal],
) -> Result<(Boxed<Item>, &[Terminal]), Stop>
    ensures { Gives (λ x. (x.0, x.1.now)) result (item_of (listed_of (stmt_at room (expr_at room) (init_at room (expr_at room))) (init_at room (expr_at room))) (init_at room (expr_at room)) terminals.now) }
{
    let [first, rest @ ..] = terminals else {
        return Err(Stop::Unread)
    };
    match &first.what {
        Sign::Cle(pragma) => Ok((pragma_item(alloc, pragma, first.line)?, rest)),
        Sign::Key(Keyword::Static) => plain_at(alloc, room, true, first.line, rest),
        _ => unmarked_at(alloc, room, terminals),
    }
}
