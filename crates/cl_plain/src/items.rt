//! How items are spelled, and which programs are well-formed.

ghost use Rattle.std.specs.Prelude.{◌≡◌, ◌++◌, [], map, IsTrue, ◌↔◌, IfOk, OnOk};
ghost use Rattle.std.specs.List.{flat_map};
ghost use Rattle.cl_tree.specs.Spelling.{put_on, put_mark, is_empty};
ghost use Rattle.cl_tree.specs.Items.{member, is_member, all_members, parameter, all_parameters, is_body, item_spelling, program_spelling, is_item, is_well_formed, WellFormed};
ghost use Rattle.cl_tree.specs.Spelling.{commas};
ghost use Rattle.cl_plain.specs.Wanting.{written, all_well_formed};
ghost use Rattle.cl_plain.specs.Parts.{other_all, other_line, head_part, parameters_part, body_part, named_part};

use crate::declarations::{
    add_base_lines, add_first_lines, are_names, is_declarator, well_formed_declaration,
    write_common_base, write_declaration, write_declarator, write_declarators,
};
use crate::statements::{all_stmts, write_pragma, write_statements};
use crate::types::{
    add_floating_line, add_other_line, is_type_name, is_void, write_base, write_type,
};
use crate::wanted::{Wanted, one_line, write_key, write_mark, write_name, write_on};
use crate::words::all_come;
use cl_base::name::{Name, NoMemory};
use cl_tree::grammar::{Keyword, Sign};
use cl_tree::token::Mark;
use cl_tree::tree::{CType, Declaration, Declarator, Item, Program, Stmt};
use sqlite_items::Items;
use std::alloc::Global;

#[tactic(auto, using(crate::proofs::DeclarationParts::member_rules))]
fn write_member(alloc: Global, out: &mut Items<Wanted>, d: &Declaration) -> Result<(), NoMemory>
    ensures { OnOk result (written out.new ≡ written out.old ++ member d.now) }
{
    let names = d.names.as_slice();
    let mut lines = Items::new(alloc);
    add_base_lines(&mut lines, names)?;
    write_common_base(alloc, out, lines, names)?;
    write_declarators(alloc, out, names)?;
    write_mark(alloc, out, Mark::Semicolon)
}

fn write_members(
    alloc: Global,
    out: &mut Items<Wanted>,
    members: &[Declaration],
) -> Result<(), NoMemory>
    ensures { OnOk result (written out.new ≡ written out.old ++ flat_map member members.now) }
{
    for d in members {
        write_member(alloc, out, d)?;
    }
    Ok(())
}

fn add_member_lines(lines: &mut Items<u32>, members: &[Declaration]) -> Result<(), NoMemory>
    ensures { OnOk result (lines.new ≡ lines.old ++ flat_map (λ d. other_all d.names) members.now) }
{
    for d in members {
        add_first_lines(lines, d.names.as_slice())?;
    }
    Ok(())
}

#[tactic(auto, using(crate::proofs::DeclarationParts::parameter_rules))]
fn write_parameter(alloc: Global, out: &mut Items<Wanted>, d: &Declarator) -> Result<(), NoMemory>
    ensures { OnOk result (written out.new ≡ written out.old ++ parameter d.now) }
{
    let mut lines = Items::new(alloc);
    add_floating_line(&mut lines, &d.ctype, d.second)?;
    write_base(alloc, out, lines, &d.ctype)?;
    write_declarator(alloc, out, d)
}

fn write_parameter_list(
    alloc: Global,
    out: &mut Items<Wanted>,
    params: &[Declarator],
) -> Result<(), NoMemory>
    ensures { OnOk result (written out.new ≡ written out.old ++ commas (map parameter params.now)) }
{
    if let [first, rest @ ..] = params {
        write_parameter(alloc, out, first)?;
        for d in rest {
            write_mark(alloc, out, Mark::Comma)?;
            write_parameter(alloc, out, d)?;
        }
    }
    Ok(())
}

#[tactic(auto, unfolding(crate::specs::Parts::parameters_part))]
fn write_parameters(
    alloc: Global,
    out: &mut Items<Wanted>,
    void_word: bool,
    params: &[Declarator],
) -> Result<(), NoMemory>
    ensures { OnOk result (written out.new ≡ written out.old ++ parameters_part void_word params.now) }
{
    if void_word {
        return write_key(alloc, out, Keyword::Void);
    }
    write_parameter_list(alloc, out, params)
}

/// Writes what stands before the name of a function.
#[tactic(auto, unfolding(crate::specs::Parts::head_part))]
fn write_head(
    alloc: Global,
    out: &mut Items<Wanted>,
    is_static: bool,
    lines: Items<u32>,
    returned: &CType,
    second: u32,
) -> Result<(), NoMemory>
    ensures { OnOk result (written out.new ≡ written out.old ++ head_part is_static lines returned.now second) }
{
    if is_static {
        write_on(out, lines, Sign::Key(Keyword::Static))?;
        return write_type(alloc, out, Items::new(alloc), returned, second);
    }
    write_type(alloc, out, lines, returned, second)
}

/// Writes the name of a function, and its parameters in their parentheses.
#[tactic(auto, unfolding(crate::specs::Parts::named_part))]
fn write_named(
    alloc: Global,
    out: &mut Items<Wanted>,
    returned: &CType,
    name: &Name,
    void_word: bool,
    params: &[Declarator],
    second: u32,
) -> Result<(), NoMemory>
    ensures { OnOk result (written out.new ≡ written out.old ++ named_part returned.now name.now void_word params.now second) }
{
    let mut lines = Items::new(alloc);
    add_other_line(&mut lines, returned, second)?;
    let name = name.copy(alloc)?;
    write_on(out, lines, Sign::Name(name))?;
    write_mark(alloc, out, Mark::OpenParen)?;
    write_parameters(alloc, out, void_word, params)?;
    write_mark(alloc, out, Mark::CloseParen)
}

#[tactic(auto, unfolding(crate::specs::Parts::body_part))]
fn write_body(
    alloc: Global,
    out: &mut Items<Wanted>,
    body: &Option<Items<Stmt>>,
) -> Result<(), NoMemory>
    ensures { OnOk result (written out.new ≡ written out.old ++ body_part body.now) }
{
    match body {
        None => write_mark(alloc, out, Mark::Semicolon),
        Some(all) => {
            write_mark(alloc, out, Mark::OpenBrace)?;
            write_statements(alloc, out, all.as_slice())
        }
    }
}

/// Writes an item.
#[tactic(auto, unfolding(cl_tree::specs::Items::item_spelling))]
fn write_item(alloc: Global, out: &mut Items<Wanted>, item: &Item) -> Result<(), NoMemory>
    ensures { OnOk result (written out.new ≡ written out.old ++ item_spelling item.now) }
{
    match item {
        Item::Struct {
            name,
            members,
            line,
        } => {
            let mut lines = one_line(alloc, *line)?;
            add_member_lines(&mut lines, members.as_slice())?;
            write_on(out, lines, Sign::Key(Keyword::Struct))?;
            write_name(alloc, out, name)?;
            write_mark(alloc, out, Mark::OpenBrace)?;
            write_members(alloc, out, members.as_slice())?;
            write_mark(alloc, out, Mark::CloseBrace)?;
            write_mark(alloc, out, Mark::Semicolon)
        }
        Item::Variables(d) => {
            write_declaration(alloc, out, Items::new(alloc), d)?;
            write_mark(alloc, out, Mark::Semicolon)
        }
        Item::Function {
            is_static,
            result: returned,
            name,
            void_word,
            params,
            body,
            line,
            second,
        } => {
            let names = params.as_slice();
            let mut lines = one_line(alloc, *line)?;
            add_first_lines(&mut lines, names)?;
            write_head(alloc, out, *is_static, lines, returned, *second)?;
            write_named(alloc, out, returned, name, *void_word, names, *second)?;
            write_body(alloc, out, body)
        }
        Item::Cle(pragma, line) => {
            let lines = one_line(alloc, *line)?;
            write_pragma(alloc, out, lines, pragma)
        }
    }
}

/// The terminals that a program wants.
#[tactic(auto, unfolding(crate::specs::Wanting::written, cl_tree::specs::Items::program_spelling))]
pub fn spelled(alloc: Global, program: &Program) -> Result<Items<Wanted>, NoMemory>
    ensures { IfOk result (λ terminals. written terminals ≡ program_spelling program.now) }
{
    let mut out = Items::new(alloc);
    write_items(alloc, &mut out, program.items.as_slice())?;
    Ok(out)
}

fn write_items(alloc: Global, out: &mut Items<Wanted>, items: &[Item]) -> Result<(), NoMemory>
    ensures { OnOk result (written out.new ≡ written out.old ++ flat_map item_spelling items.now) }
{
    for item in items {
        write_item(alloc, out, item)?;
    }
    Ok(())
}

fn is_member(d: &Declaration) -> bool
    ensures { result ≡ is_member d.now }
{
    !d.is_static && are_names(false, d.names.as_slice())
}

fn all_members(members: &[Declaration]) -> bool
    ensures { result ≡ all_members members.now }
{
    for d in members {
        if !is_member(d) {
            return false;
        }
    }
    true
}

fn all_parameters(params: &[Declarator]) -> bool
    ensures { result ≡ all_parameters params.now }
{
    for d in params {
        if is_void(&d.ctype) || !is_declarator(false, &d.ctype, d) {
            return false;
        }
    }
    true
}

fn is_body(body: &Option<Items<Stmt>>) -> bool
    ensures { result ≡ is_body body.now }
{
    match body {
        None => true,
        Some(all) => all_stmts(all.as_slice()),
    }
}

fn no_members(members: &[Declaration]) -> bool
    ensures { result ≡ is_empty members.now }
{
    match members {
        [] => true,
        [_, ..] => false,
    }
}

fn no_params(params: &[Declarator]) -> bool
    ensures { result ≡ is_empty params.now }
{
    match params {
        [] => true,
        [_, ..] => false,
    }
}

/// Whether the item has a form of the grammar.
#[tactic(auto, unfolding(cl_tree::specs::Items::is_item))]
fn is_item(item: &Item) -> bool
    ensures { result ≡ is_item item.now }
{
    match item {
        Item::Struct { members, .. } => {
            !no_members(members.as_slice()) && all_members(members.as_slice())
        }
        Item::Variables(d) => well_formed_declaration(d),
        Item::Function {
            result: returned,
            void_word,
            params,
            body,
            ..
        } => {
            is_type_name(returned)
                && ((!*void_word || no_params(params.as_slice()))
                    && (all_parameters(params.as_slice()) && is_body(body)))
        }
        Item::Cle(_, _) => true,
    }
}

/// Whether the item has a form of the grammar, and each of its terminals can come out of a source.
#[tactic(auto, unfolding(cl_tree::specs::Items::is_well_formed, crate::specs::Wanting::written))]
fn well_formed_item(alloc: Global, item: &Item) -> Result<bool, NoMemory>
    ensures { IfOk result (λ well. well ≡ is_well_formed item.now) }
{
    let terminals = spelled_item(alloc, item)?;
    Ok(is_item(item) && all_come(terminals.as_slice()))
}

/// The terminals that an item wants.
#[tactic(auto, unfolding(crate::specs::Wanting::written))]
fn spelled_item(alloc: Global, item: &Item) -> Result<Items<Wanted>, NoMemory>
    ensures { IfOk result (λ terminals. written terminals ≡ item_spelling item.now) }
{
    let mut out = Items::new(alloc);
    write_item(alloc, &mut out, item)?;
    Ok(out)
}

#[tactic(auto, unfolding(crate::specs::Wanting::all_well_formed))]
fn well_formed_items(alloc: Global, items: &[Item]) -> Result<bool, NoMemory>
    ensures { IfOk result (λ well. well ≡ all_well_formed items.now) }
{
    for item in items {
        if !well_formed_item(alloc, item)? {
            return Ok(false);
        }
    }
    Ok(true)
}

/// Whether every item of the program is well-formed.
#[tactic(auto, using(crate::proofs::ItemParts::well_formed_is))]
pub fn well_formed(alloc: Global, program: &Program) -> Result<bool, NoMemory>
    ensures { IfOk result (λ well. IsTrue well ↔ WellFormed program.now) }
{
    well_formed_items(alloc, program.items.as_slice())
}
