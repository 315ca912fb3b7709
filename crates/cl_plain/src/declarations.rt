//! How declarations are spelled, and which are well-formed.

ghost use Rattle.std.specs.Prelude.{◌≡◌, ◌++◌, map, OnOk};
ghost use Rattle.cl_tree.specs.Spelling.{type_shape, commas, is_empty};
ghost use Rattle.cl_tree.specs.Statements.{init_shape, all_inits, init_allowed, declarator, common_base, is_declarator, all_declarators, are_names, declaration, is_declaration};
ghost use Rattle.cl_plain.specs.Wanting.{written};
ghost use Rattle.cl_plain.specs.Parts.{base_part, init_part, floating_all, other_all, specifiers};

use crate::expressions::{well_formed_expr, write_expr};
use crate::types::{
    add_floating_line, add_other_line, add_star_line, is_proper_type, is_void, same_base,
    write_base, write_dims, write_stars,
};
use crate::wanted::{Wanted, write_mark, write_name_at, write_on};
use cl_base::name::NoMemory;
use cl_tree::grammar::{Keyword, Sign};
use cl_tree::token::Mark;
use cl_tree::tree::{CType, Declaration, Declarator, Init};
use sqlite_items::Items;
use std::alloc::Global;

/// Writes an initialiser without its `=` (C11 6.7.9).
#[cycle(spell)]
#[tactic(auto, unfolding(cl_tree::specs::Statements::init_shape))]
fn write_init(alloc: Global, out: &mut Items<Wanted>, init: &Init) -> Result<(), NoMemory>
    ensures { OnOk result (written out.new ≡ written out.old ++ (init_shape init.now).spelling) }
{
    match init {
        Init::One(e) => write_expr(alloc, out, e),
        Init::Many(parts) => {
            write_mark(alloc, out, Mark::OpenBrace)?;
            write_inits(alloc, out, parts.as_slice())?;
            write_mark(alloc, out, Mark::CloseBrace)
        }
    }
}

#[cycle(spell)]
fn write_inits(alloc: Global, out: &mut Items<Wanted>, all: &[Init]) -> Result<(), NoMemory>
    ensures { OnOk result (written out.new ≡ written out.old ++ commas (map (λ s. s.spelling) (map init_shape all.now))) }
{
    if let [first, rest @ ..] = all {
        write_init(alloc, out, first)?;
        for init in rest {
            write_mark(alloc, out, Mark::Comma)?;
            write_init(alloc, out, init)?;
        }
    }
    Ok(())
}

/// Whether the initialiser has a form of the grammar: a list in braces is not empty.
#[cycle(proper)]
#[tactic(auto, unfolding(cl_tree::specs::Statements::init_shape))]
fn well_formed_init(init: &Init) -> bool
    ensures { result ≡ (init_shape init.now).proper }
{
    match init {
        Init::One(e) => well_formed_expr(e),
        Init::Many(parts) => !no_inits(parts.as_slice()) && all_inits(parts.as_slice()),
    }
}

fn no_inits(all: &[Init]) -> bool
    ensures { result ≡ is_empty (map init_shape all.now) }
{
    match all {
        [] => true,
        [_, ..] => false,
    }
}

#[cycle(proper)]
fn all_inits(all: &[Init]) -> bool
    ensures { result ≡ all_inits (map init_shape all.now) }
{
    for init in all {
        if !well_formed_init(init) {
            return false;
        }
    }
    true
}

#[tactic(auto, unfolding(crate::specs::Parts::init_part))]
fn write_initialiser(
    alloc: Global,
    out: &mut Items<Wanted>,
    init: &Option<Init>,
) -> Result<(), NoMemory>
    ensures { OnOk result (written out.new ≡ written out.old ++ init_part init.now) }
{
    match init {
        None => Ok(()),
        Some(init) => {
            write_mark(alloc, out, Mark::Assign)?;
            write_init(alloc, out, init)
        }
    }
}

/// Writes what stands behind the base.
#[tactic(auto, using(crate::proofs::DeclarationParts::declarator_rules))]
pub fn write_declarator(
    alloc: Global,
    out: &mut Items<Wanted>,
    d: &Declarator,
) -> Result<(), NoMemory>
    ensures { OnOk result (written out.new ≡ written out.old ++ declarator d.now) }
{
    let mut lines = Items::new(alloc);
    add_star_line(&mut lines, &d.ctype, d.second)?;
    write_stars(alloc, out, lines, &d.ctype)?;
    write_name_at(alloc, out, d.line, &d.name)?;
    write_dims(alloc, out, &d.ctype)?;
    write_initialiser(alloc, out, &d.init)
}

/// Writes names with commas between.
pub fn write_declarators(
    alloc: Global,
    out: &mut Items<Wanted>,
    names: &[Declarator],
) -> Result<(), NoMemory>
    ensures { OnOk result (written out.new ≡ written out.old ++ commas (map declarator names.now)) }
{
    if let [first, rest @ ..] = names {
        write_declarator(alloc, out, first)?;
        for d in rest {
            write_mark(alloc, out, Mark::Comma)?;
            write_declarator(alloc, out, d)?;
        }
    }
    Ok(())
}

/// Adds the lines of the floating base.
pub fn add_base_lines(lines: &mut Items<u32>, names: &[Declarator]) -> Result<(), NoMemory>
    ensures { OnOk result (lines.new ≡ lines.old ++ floating_all names.now) }
{
    for d in names {
        add_floating_line(lines, &d.ctype, d.second)?;
    }
    Ok(())
}

/// Adds the lines of the first terminal of the item or the innermost statement.
pub fn add_first_lines(lines: &mut Items<u32>, names: &[Declarator]) -> Result<(), NoMemory>
    ensures { OnOk result (lines.new ≡ lines.old ++ other_all names.now) }
{
    for d in names {
        add_other_line(lines, &d.ctype, d.second)?;
    }
    Ok(())
}

/// Writes what stands before the first star of a declaration; `void` where it has no names.
#[tactic(auto, unfolding(crate::specs::Parts::base_part))]
pub fn write_common_base(
    alloc: Global,
    out: &mut Items<Wanted>,
    lines: Items<u32>,
    names: &[Declarator],
) -> Result<(), NoMemory>
    ensures { OnOk result (written out.new ≡ written out.old ++ base_part lines (common_base names.now)) }
{
    match names {
        [] => write_on(out, lines, Sign::Key(Keyword::Void)),
        [first, ..] => write_base(alloc, out, lines, &first.ctype),
    }
}

#[tactic(auto, unfolding(crate::specs::Parts::specifiers))]
fn write_specifiers(
    alloc: Global,
    out: &mut Items<Wanted>,
    lines: Items<u32>,
    is_static: bool,
    names: &[Declarator],
) -> Result<(), NoMemory>
    ensures { OnOk result (written out.new ≡ written out.old ++ specifiers lines is_static names.now) }
{
    let mut lines = lines;
    add_first_lines(&mut lines, names)?;
    if is_static {
        write_on(out, lines, Sign::Key(Keyword::Static))?;
        let mut base_lines = Items::new(alloc);
        add_base_lines(&mut base_lines, names)?;
        return write_common_base(alloc, out, base_lines, names);
    }
    add_base_lines(&mut lines, names)?;
    write_common_base(alloc, out, lines, names)
}

/// Writes a declaration without its `;`. `lines` are further ones of its first terminal.
#[tactic(auto, using(crate::proofs::DeclarationParts::declaration_rules))]
pub fn write_declaration(
    alloc: Global,
    out: &mut Items<Wanted>,
    lines: Items<u32>,
    d: &Declaration,
) -> Result<(), NoMemory>
    ensures { OnOk result (written out.new ≡ written out.old ++ declaration lines d.now) }
{
    let names = d.names.as_slice();
    write_specifiers(alloc, out, lines, d.is_static, names)?;
    write_declarators(alloc, out, names)
}

fn init_allowed(allowed: bool, init: &Option<Init>) -> bool
    ensures { result ≡ init_allowed allowed init.now }
{
    match init {
        None => true,
        Some(init) => allowed && well_formed_init(init),
    }
}

/// Whether a name of the base of this type is well-formed; `allowed` says that it may have an
/// initialiser.
pub fn is_declarator(allowed: bool, base: &CType, d: &Declarator) -> bool
    ensures { result ≡ is_declarator allowed (type_shape base.now).base d.now }
{
    is_proper_type(&d.ctype) && (same_base(base, &d.ctype) && init_allowed(allowed, &d.init))
}

fn all_declarators(allowed: bool, base: &CType, names: &[Declarator]) -> bool
    ensures { result ≡ all_declarators allowed (type_shape base.now).base names.now }
{
    for d in names {
        if !is_declarator(allowed, base, d) {
            return false;
        }
    }
    true
}

/// Whether these can be the names of one declaration.
pub fn are_names(allowed: bool, names: &[Declarator]) -> bool
    ensures { result ≡ are_names allowed names.now }
{
    match names {
        [] => false,
        [first, ..] => !is_void(&first.ctype) && all_declarators(allowed, &first.ctype, names),
    }
}

/// Whether the declaration has a form of the grammar (C11 6.7).
#[tactic(auto, unfolding(cl_tree::specs::Statements::is_declaration))]
pub fn well_formed_declaration(d: &Declaration) -> bool
    ensures { result ≡ is_declaration d.now }
{
    are_names(true, d.names.as_slice())
}
