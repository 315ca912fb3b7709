//! E22: whether a program has its `main` and a definition of a label.

ghost use Rattle.std.specs.Prelude.{◌≡◌, map, option_map};
ghost use Rattle.std.specs.List.{list_any};
ghost use Rattle.cl_typing.specs.Facts as facts;
ghost use Rattle.cl_typing.specs.Types.{kind_of};
ghost use Rattle.cl_scope.specs.Finds.{Finds};

use cl_scope::search::unless;
use cl_scope::stop::Stop;
use cl_tree::kinds::IntKind;
use cl_tree::token::Pragma;
use cl_tree::tree::{Act, CType, Item, Program, Stmt};
use sqlite_items::{Boxed, Items};

#[tactic(auto, unfolding(cl_typing::specs::Types::kind_of))]
fn is_int(t: &CType) -> bool
    ensures { result ≡ facts.is_int (kind_of t.now) }
{
    match t {
        CType::Integer(kind) => *kind == IntKind::I32,
        _ => false,
    }
}

/// Whether an item defines `main` with the result `int` and no parameters.
#[tactic(auto, unfolding(cl_typing::specs::Facts::is_main))]
fn is_main(item: &Item) -> bool
    ensures { result ≡ facts.is_main item.now }
{
    match item {
        Item::Function {
            is_static: _,
            result,
            name,
            void_word: _,
            params,
            body: Some(_),
            line: _,
            second: _,
        } => {
            if name.text() != "main" {
                return false;
            }
            is_int(result) && params.as_slice().is_empty()
        }
        _ => false,
    }
}

fn is_def(pragma: &Pragma) -> bool
    ensures { result ≡ facts.is_def pragma.now }
{
    matches!(pragma, Pragma::Def(_, _))
}

/// Whether a statement has a definition of a label.
#[cycle(stmt)]
#[tactic(auto, unfolding(cl_typing::specs::Facts::stmt_defines))]
fn stmt_defines(s: &Stmt) -> bool
    ensures { result ≡ facts.stmt_defines s.now }
{
    match &s.node {
        Act::Block(ss) => any_defines(ss.as_slice()),
        Act::If(_, body, other) => {
            if stmt_defines(body.get()) {
                return true;
            }
            part_defines(other)
        }
        Act::While(_, body) => stmt_defines(body.get()),
        Act::DoWhile(body, _) => stmt_defines(body.get()),
        Act::For {
            first: _,
            test: _,
            next: _,
            body,
        } => stmt_defines(body.get()),
        Act::Cle(pragma) => is_def(pragma),
        _ => false,
    }
}

#[cycle(stmt)]
fn part_defines(s: &Option<Boxed<Stmt>>) -> bool
    ensures { result ≡ facts.maybe_any (option_map facts.stmt_defines s.now) }
{
    match s {
        Some(s) => stmt_defines(s.get()),
        None => false,
    }
}

#[cycle(stmt)]
#[tactic(auto, unfolding(cl_typing::specs::Facts::any))]
fn any_defines(all: &[Stmt]) -> bool
    ensures { result ≡ facts.any (map facts.stmt_defines all.now) }
{
    for s in all {
        if stmt_defines(s) {
            return true;
        }
    }
    false
}

#[tactic(auto, unfolding(cl_typing::specs::Facts::body_defines))]
fn body_defines(body: &Option<Items<Stmt>>) -> bool
    ensures { result ≡ facts.body_defines body.now }
{
    match body {
        Some(ss) => any_defines(ss.as_slice()),
        None => false,
    }
}

#[tactic(auto, unfolding(cl_typing::specs::Facts::item_defines))]
fn item_defines(item: &Item) -> bool
    ensures { result ≡ facts.item_defines item.now }
{
    match item {
        Item::Function {
            is_static: _,
            result: _,
            name: _,
            void_word: _,
            params: _,
            body,
            line: _,
            second: _,
        } => body_defines(body),
        Item::Cle(pragma, _) => is_def(pragma),
        Item::Struct {
            name: _,
            members: _,
            line: _,
        }
        | Item::Variables(_) => false,
    }
}

fn has_main(items: &[Item]) -> bool
    ensures { result ≡ list_any facts.is_main items.now }
{
    for item in items {
        if is_main(item) {
            return true;
        }
    }
    false
}

fn has_definition(items: &[Item]) -> bool
    ensures { result ≡ list_any facts.item_defines items.now }
{
    for item in items {
        if item_defines(item) {
            return true;
        }
    }
    false
}

/// Line 1, unless the program defines `main` and a label.
#[tactic(auto, unfolding(cl_typing::specs::Facts::no_main))]
pub fn look_program(program: &Program) -> Result<(), Stop>
    ensures { Finds result (facts.no_main program.now) }
{
    let items = program.items.as_slice();
    unless(has_main(items) && has_definition(items), 1)
}
