//! The tables of a checked program.

ghost use Rattle.std.specs.Prelude.{◌≡◌, [], ◌∷◌, codes, IfOk, None, if◌then◌else◌};
ghost use Rattle.cl_tree.specs.declared.tree.CType.TheVariants as ctype;
ghost use Rattle.cl_tree.specs.declared.kinds.IntKind.TheVariants.{I32};
ghost use Rattle.cl_form.specs.Form.{unlabelled, no_flow, pair_typed, pair_row, pair_gedl};

use crate::names::{Found, Pair};
use cl_base::name::{Name, NoMemory};
use cl_mean::checked::{Flow, FnFact, GedlRow, GedlRows, Levels, ObjFact, Typed};
use cl_mean::labels::{LabelTable, Operation};
use cl_tree::kinds::IntKind;
use cl_tree::tree::{CType, Program};
use sqlite_items::Items;
use std::alloc::{AllocError, Global};

/// A list of one.
fn only<T: Drop>(alloc: Global, item: T) -> Result<Items<T>, AllocError>
    ensures { IfOk result (λ all. all ≡ item ∷ []) }
{
    let mut all = Items::new(alloc);
    all.push(item)?;
    Ok(all)
}

/// A list of one level.
pub fn levels_of(alloc: Global, level: &Name) -> Result<Items<Name>, NoMemory>
    ensures { IfOk result (λ all. all ≡ level.now ∷ []) }
{
    Ok(only(alloc, level.copy(alloc)?)?)
}

/// A list of two levels.
pub fn both_levels(alloc: Global, near: &Name, far: &Name) -> Result<Items<Name>, NoMemory>
    ensures { IfOk result (λ all. all ≡ near.now ∷ far.now ∷ []) }
{
    let mut all = levels_of(alloc, near)?;
    all.push(far.copy(alloc)?)?;
    Ok(all)
}

/// A table of these levels. What the labels say is no part of a form yet.
pub fn unlabelled(alloc: Global, levels: Items<Name>) -> LabelTable
    ensures { result ≡ unlabelled levels }
{
    LabelTable {
        levels,
        labels: Items::new(alloc),
        on_functions: Items::new(alloc),
        on_objects: Items::new(alloc),
    }
}

/// No labels are followed in a form yet.
pub fn no_flow(alloc: Global) -> Flow
    ensures { result ≡ no_flow }
{
    Flow {
        objects: Items::new(alloc),
        locals: Items::new(alloc),
        results: Items::new(alloc),
    }
}

/// `main`, with its place and the line of its name.
fn main_fact(alloc: Global, item: u32, line: u32) -> Result<FnFact, NoMemory>
    ensures { IfOk result (λ f. f ≡ record { name = codes "main"; item = item; line = line }) }
{
    let name = Name::of(alloc, "main")?;
    Ok(FnFact { name, item, line })
}

/// A program of `main` alone.
pub fn alone_typed(alloc: Global, program: Program, line: u32) -> Result<Typed, NoMemory>
    ensures { IfOk result (λ t. t ≡ record { program = program; functions = record { name = codes "main"; item = 1; line = line } ∷ []; objects = [] }) }
{
    let functions = only(alloc, main_fact(alloc, 1, line)?)?;
    Ok(Typed {
        program,
        functions,
        objects: Items::new(alloc),
    })
}

pub fn alone_levels(alloc: Global) -> Result<Levels, NoMemory>
    ensures { IfOk result (λ l. l ≡ record { of_functions = 0 ∷ []; of_objects = []; main = 0 }) }
{
    let of_functions = only(alloc, 0)?;
    Ok(Levels {
        of_functions,
        of_objects: Items::new(alloc),
        main: 0,
    })
}

pub fn alone_gedl(alloc: Global, level: &Name) -> Result<GedlRows, NoMemory>
    ensures { IfOk result (λ g. g ≡ record { levels = level.now ∷ []; main = 0; rows = [] }) }
{
    let levels = levels_of(alloc, level)?;
    Ok(GedlRows {
        levels,
        main: 0,
        rows: Items::new(alloc),
    })
}

/// The other function and `main`.
fn pair_functions(alloc: Global, found: &Found) -> Result<Items<FnFact>, NoMemory>
    ensures { IfOk result (λ all. all ≡ record { name = found.now.names.function_name; item = 7; line = found.now.line } ∷ record { name = codes "main"; item = 8; line = found.now.main_line } ∷ []) }
{
    let name = found.names.function_name.copy(alloc)?;
    let other = FnFact {
        name,
        item: 7,
        line: found.line,
    };
    let mut functions = only(alloc, other)?;
    functions.push(main_fact(alloc, 8, found.main_line)?)?;
    Ok(functions)
}

fn pair_object(alloc: Global, p: &Pair) -> Result<ObjFact, NoMemory>
    ensures { IfOk result (λ o. o ≡ record { name = p.now.variable_name; ctype = ctype.Integer I32; owner = None; item = 5; line = 6 }) }
{
    let name = p.variable_name.copy(alloc)?;
    Ok(ObjFact {
        name,
        ctype: CType::Integer(IntKind::I32),
        owner: None,
        item: 5,
        line: 6,
    })
}

/// A program of a variable, the other function and `main`.
pub fn pair_typed(alloc: Global, program: Program, found: &Found) -> Result<Typed, NoMemory>
    ensures { IfOk result (λ t. t ≡ pair_typed program found.now.names found.now.line found.now.main_line) }
{
    let functions = pair_functions(alloc, found)?;
    let objects = only(alloc, pair_object(alloc, &found.names)?)?;
    Ok(Typed {
        program,
        functions,
        objects,
    })
}

pub fn pair_levels(alloc: Global) -> Result<Levels, NoMemory>
    ensures { IfOk result (λ l. l ≡ record { of_functions = 1 ∷ 0 ∷ []; of_objects = 1 ∷ []; main = 0 }) }
{
    let mut of_functions = only(alloc, 1)?;
    of_functions.push(0)?;
    let of_objects = only(alloc, 1)?;
    Ok(Levels {
        of_functions,
        of_objects,
        main: 0,
    })
}

/// The call from the level of `main`.
fn pair_row(alloc: Global, p: &Pair) -> Result<GedlRow, NoMemory>
    ensures { IfOk result (λ row. row ≡ pair_row p.now) }
{
    let name = p.function_name.copy(alloc)?;
    let label = p.function_label.copy(alloc)?;
    Ok(GedlRow {
        from: 0,
        to: 1,
        function: 0,
        name,
        label,
        operation: Operation::Allow,
        args: Items::new(alloc),
        result: CType::Integer(IntKind::I32),
        request: 0,
        reply: 4,
        oneway: false,
    })
}

fn pair_rows(alloc: Global, p: &Pair, crosses: bool) -> Result<Items<GedlRow>, NoMemory>
    ensures { IfOk result (λ rows. rows ≡ (if crosses then pair_row p.now ∷ [] else [])) }
{
    if crosses {
        Ok(only(alloc, pair_row(alloc, p)?)?)
    } else {
        Ok(Items::new(alloc))
    }
}

pub fn pair_gedl(alloc: Global, p: &Pair, crosses: bool) -> Result<GedlRows, NoMemory>
    ensures { IfOk result (λ g. g ≡ pair_gedl p.now crosses) }
{
    let levels = both_levels(alloc, &p.near, &p.far)?;
    let rows = pair_rows(alloc, p, crosses)?;
    Ok(GedlRows {
        levels,
        main: 0,
        rows,
    })
}
