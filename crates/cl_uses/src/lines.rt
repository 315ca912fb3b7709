//! Where the objects of static duration of a program are declared.

ghost use Rattle.std.specs.Prelude.{◌≡◌, ◌++◌, ◌∷◌, [], map, option_map, length, OnOk};
ghost use Rattle.std.specs.List.{flat_map};
ghost use Rattle.cl_mean.specs.Shape.{times};
ghost use Rattle.cl_levels.specs.Levels.{if_static, item_line, lines_in, maybe_lines, stmt_lines};
ghost use Rattle.cl_tree.specs.declared.tree.Item.TheVariants.{Variables};

use cl_base::name::NoMemory;
use cl_tree::tree::{Act, Declaration, Item, Stmt};
use sqlite_items::Boxed;

/// A line as often as there are objects.
fn push_times(lines: &mut Vec<u32>, count: usize, line: u32) -> Result<(), NoMemory>
    ensures { OnOk result (lines.new.items ≡ lines.old.items ++ times count (line ∷ [])) }
{
    for _ in 0..count {
        lines.push(line)?;
    }
    Ok(())
}

fn look_declaration(lines: &mut Vec<u32>, d: &Declaration, line: u32) -> Result<(), NoMemory>
    ensures { OnOk result (lines.new.items ≡ lines.old.items ++ if_static d.now.is_static (length d.now.names) line) }
{
    if d.is_static {
        push_times(lines, d.names.len(), line)
    } else {
        Ok(())
    }
}

/// The line of the declaration of each static local of a statement.
#[cycle(stmt)]
#[tactic(auto, unfolding(cl_levels::specs::Levels::stmt_lines))]
fn look_stmt(lines: &mut Vec<u32>, s: &Stmt) -> Result<(), NoMemory>
    ensures { OnOk result (lines.new.items ≡ lines.old.items ++ stmt_lines s.now) }
{
    match &s.node {
        Act::Block(ss) => look_stmts(lines, ss.as_slice()),
        Act::If(_, body, other) => {
            look_stmt(lines, body.get())?;
            look_optional(lines, other)
        }
        Act::While(_, body) => look_stmt(lines, body.get()),
        Act::DoWhile(body, _) => look_stmt(lines, body.get()),
        Act::For {
            first: _,
            test: _,
            next: _,
            body,
        } => look_stmt(lines, body.get()),
        Act::Declare(d) => look_declaration(lines, d, s.line),
        Act::Empty
        | Act::Set {
            op: _,
            place: _,
            value: _,
        }
        | Act::Bump {
            up: _,
            prefix: _,
            place: _,
        }
        | Act::Call(_)
        | Act::Return(_)
        | Act::Break
        | Act::Continue
        | Act::Cle(_) => Ok(()),
    }
}

#[cycle(stmt)]
fn look_optional(lines: &mut Vec<u32>, s: &Option<Boxed<Stmt>>) -> Result<(), NoMemory>
    ensures { OnOk result (lines.new.items ≡ lines.old.items ++ maybe_lines (option_map stmt_lines s.now)) }
{
    match s {
        Some(s) => look_stmt(lines, s.get()),
        None => Ok(()),
    }
}

#[cycle(stmt)]
fn look_stmts(lines: &mut Vec<u32>, all: &[Stmt]) -> Result<(), NoMemory>
    ensures { OnOk result (lines.new.items ≡ lines.old.items ++ flat_map (λ ls. ls) (map stmt_lines all.now)) }
{
    for s in all {
        look_stmt(lines, s)?;
    }
    Ok(())
}

/// The same of the body of a function.
fn look_body(lines: &mut Vec<u32>, body: &[Stmt]) -> Result<(), NoMemory>
    ensures { OnOk result (lines.new.items ≡ lines.old.items ++ flat_map stmt_lines body.now) }
{
    for s in body {
        look_stmt(lines, s)?;
    }
    Ok(())
}

/// The line of the first token of a declaration at file level.
fn first_line(d: &Declaration) -> u32
    ensures { result ≡ item_line (Variables d.now) }
{
    match d.names.as_slice() {
        [first, ..] => first.second,
        [] => 0,
    }
}

#[tactic(auto, unfolding(cl_levels::specs::Levels::lines_in))]
fn look_item(lines: &mut Vec<u32>, item: &Item) -> Result<(), NoMemory>
    ensures { OnOk result (lines.new.items ≡ lines.old.items ++ lines_in item.now) }
{
    match item {
        Item::Variables(d) => push_times(lines, d.names.len(), first_line(d)),
        Item::Function {
            is_static: _,
            result: _,
            name: _,
            void_word: _,
            params: _,
            body: Some(ss),
            line: _,
            second: _,
        } => look_body(lines, ss.as_slice()),
        _ => Ok(()),
    }
}

/// The line of the declaration of each object of static duration.
pub fn look_items(lines: &mut Vec<u32>, items: &[Item]) -> Result<(), NoMemory>
    ensures { OnOk result (lines.new.items ≡ lines.old.items ++ flat_map lines_in items.now) }
{
    for item in items {
        look_item(lines, item)?;
    }
    Ok(())
}
