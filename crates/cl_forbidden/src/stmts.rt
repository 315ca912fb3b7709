//! Tokens of pointers, and floating types and literals, in declarations, statements and items.

ghost use Rattle.std.specs.Prelude.{◌≡◌, map, option_map};
ghost use Rattle.std.specs.List.{flat_map};
ghost use Rattle.cl_typing.specs.Rules.{optional};
ghost use Rattle.cl_typing.specs.Tokens.{declarator_tokens, declaration_tokens, stmt_tokens, body_tokens};
ghost use Rattle.cl_typing.specs.Tokens.{item_tokens, program_tokens};
ghost use Rattle.cl_scope.specs.Finds.{Finds};

use crate::exprs::{look_expr, look_part, look_start, look_type};
use cl_scope::stop::Stop;
use cl_tree::tree::{Act, Declaration, Declarator, Item, Program, Stmt};
use cl_typing::sought::Sought;
use sqlite_items::{Boxed, Items};

#[tactic(auto, unfolding(cl_typing::specs::Tokens::declarator_tokens), using(cl_scope::proofs::Searches::searches))]
fn look_declarator(sought: Sought, d: &Declarator) -> Result<(), Stop>
    ensures { Finds result (declarator_tokens sought d.now) }
{
    look_type(sought, &d.ctype, d.second)?;
    look_start(sought, &d.init)
}

#[tactic(auto, using(cl_scope::proofs::Searches::searches))]
fn look_names(sought: Sought, ds: &[Declarator]) -> Result<(), Stop>
    ensures { Finds result (flat_map (declarator_tokens sought) ds.now) }
{
    for d in ds {
        look_declarator(sought, d)?;
    }
    Ok(())
}

#[tactic(auto, unfolding(cl_typing::specs::Tokens::declaration_tokens), using(cl_scope::proofs::Searches::searches))]
fn look_declaration(sought: Sought, d: &Declaration) -> Result<(), Stop>
    ensures { Finds result (declaration_tokens sought d.now) }
{
    look_names(sought, d.names.as_slice())
}

#[cycle(stmt)]
#[tactic(auto, unfolding(cl_typing::specs::Tokens::stmt_tokens), using(cl_scope::proofs::Searches::searches))]
fn look_stmt(sought: Sought, s: &Stmt) -> Result<(), Stop>
    ensures { Finds result (stmt_tokens sought s.now) }
{
    match &s.node {
        Act::Empty | Act::Break | Act::Continue | Act::Cle(_) => Ok(()),
        Act::Block(ss) => look_all(sought, ss.as_slice()),
        Act::Set { place, value, .. } => {
            look_expr(sought, place)?;
            look_expr(sought, value)
        }
        Act::Bump { place, .. } => look_expr(sought, place),
        Act::Call(e) => look_expr(sought, e),
        Act::If(c, body, other) => {
            look_expr(sought, c)?;
            look_stmt(sought, body.get())?;
            look_optional(sought, other)
        }
        Act::While(c, body) => {
            look_expr(sought, c)?;
            look_stmt(sought, body.get())
        }
        Act::DoWhile(body, c) => {
            look_stmt(sought, body.get())?;
            look_expr(sought, c)
        }
        Act::For {
            first,
            test,
            next,
            body,
        } => {
            look_optional(sought, first)?;
            look_part(sought, test)?;
            look_optional(sought, next)?;
            look_stmt(sought, body.get())
        }
        Act::Return(e) => look_part(sought, e),
        Act::Declare(d) => look_declaration(sought, d),
    }
}

#[cycle(stmt)]
fn look_optional(sought: Sought, s: &Option<Boxed<Stmt>>) -> Result<(), Stop>
    ensures { Finds result (optional (option_map (stmt_tokens sought) s.now)) }
{
    match s {
        Some(s) => look_stmt(sought, s.get()),
        None => Ok(()),
    }
}

#[cycle(stmt)]
#[tactic(auto, using(cl_scope::proofs::Searches::searches))]
fn look_all(sought: Sought, all: &[Stmt]) -> Result<(), Stop>
    ensures { Finds result (flat_map (λ ls. ls) (map (stmt_tokens sought) all.now)) }
{
    for s in all {
        look_stmt(sought, s)?;
    }
    Ok(())
}

#[tactic(auto, unfolding(cl_typing::specs::Tokens::body_tokens), using(cl_scope::proofs::Searches::searches))]
fn look_body(sought: Sought, body: &Option<Items<Stmt>>) -> Result<(), Stop>
    ensures { Finds result (body_tokens sought body.now) }
{
    match body {
        Some(ss) => look_all(sought, ss.as_slice()),
        None => Ok(()),
    }
}

#[tactic(auto, using(cl_scope::proofs::Searches::searches))]
fn look_members(sought: Sought, members: &[Declaration]) -> Result<(), Stop>
    ensures { Finds result (flat_map (declaration_tokens sought) members.now) }
{
    for d in members {
        look_declaration(sought, d)?;
    }
    Ok(())
}

#[tactic(auto, unfolding(cl_typing::specs::Tokens::item_tokens), using(cl_scope::proofs::Searches::searches))]
fn look_item(sought: Sought, item: &Item) -> Result<(), Stop>
    ensures { Finds result (item_tokens sought item.now) }
{
    match item {
        Item::Struct {
            name: _,
            members,
            line: _,
        } => look_members(sought, members.as_slice()),
        Item::Variables(d) => look_declaration(sought, d),
        Item::Function {
            is_static: _,
            result,
            name: _,
            void_word: _,
            params,
            body,
            line: _,
            second,
        } => {
            look_type(sought, result, *second)?;
            look_names(sought, params.as_slice())?;
            look_body(sought, body)
        }
        Item::Cle(_, _) => Ok(()),
    }
}

/// The first token that is sought in a program.
#[tactic(auto, unfolding(cl_typing::specs::Tokens::program_tokens), using(cl_scope::proofs::Searches::searches))]
pub fn look_program(sought: Sought, program: &Program) -> Result<(), Stop>
    ensures { Finds result (program_tokens sought program.now) }
{
    for item in program.items.as_slice() {
        look_item(sought, item)?;
    }
    Ok(())
}
