//! What the taints of functions admit.

ghost use Rattle.std.specs.Prelude.{◌≡◌, ◌++◌, IfOk, OnOk};
ghost use Rattle.std.specs.Option.{option_copied};
ghost use Rattle.cle_table.specs.Exact.{IsExact};
ghost use Rattle.cle_flow.specs.Admissions.{args_admit, taints_admit, admissions_from, admissions};

use cl_base::name::NoMemory;
use cl_mean::labels::{Mentions, Taints};
use cle_table::table::Table;
use cle_walk::program::Notes;
use cle_walk::walk::{put_just, put_params};
use cle_ways::facts::Program;
use cle_ways::ways::{Holder, Note};
use sqlite_items::Items;
use std::alloc::Global;

/// The taints of arguments, into the result.
#[tactic(auto, unfolding(crate::specs::Admissions::args_admit))]
fn put_args(
    alloc: Global,
    f: usize,
    args: &[Mentions],
    notes: &mut Vec<Note>,
) -> Result<(), NoMemory>
    ensures { OnOk result (notes.new.items ≡ notes.old.items ++ args_admit f args.now) }
{
    for mentions in args {
        put_just(alloc, Holder::Result(f), mentions.all.as_slice(), notes)?;
    }
    Ok(())
}

/// What the taints of a function admit, if it is annotated.
fn put_admitted(
    alloc: Global,
    f: usize,
    taints: Option<&Taints>,
    notes: &mut Vec<Note>,
) -> Result<(), NoMemory>
    ensures { OnOk result (notes.new.items ≡ notes.old.items ++ taints_admit f (option_copied taints.entry)) }
{
    match taints {
        Some(t) => {
            put_params(alloc, f, t.args.as_slice(), notes)?;
            put_args(alloc, f, t.args.as_slice(), notes)?;
            put_just(alloc, Holder::Result(f), t.code.as_slice(), notes)?;
            put_just(alloc, Holder::Result(f), t.result.as_slice(), notes)
        }
        None => Ok(()),
    }
}

/// What the taints of all functions admit.
#[tactic(auto, unfolding(crate::specs::Admissions::admissions_from))]
fn put_functions(
    alloc: Global,
    program: &Program<'_>,
    ons: &[Option<u32>],
    notes: &mut Vec<Note>,
) -> Result<(), NoMemory>
    ensures { OnOk result (notes.new.items ≡ notes.old.items ++ admissions_from program.now 0 ons.now) }
{
    for (f, _on) in ons.iter().enumerate() {
        put_admitted(alloc, f, program.taints(f), notes)?;
    }
    Ok(())
}

/// The labels that each parameter of an annotated function admits, and at its result all that its body admits.
pub fn admitted(
    alloc: Global,
    program: &Program<'_>,
    ons: &[Option<u32>],
) -> Result<Table, NoMemory>
    requires { ons.now ≡ program.now.annotated.labels.on_functions }
    ensures { IfOk result (λ t. IsExact (admissions program.now) t) }
{
    let mut notes = Vec::new(alloc);
    put_functions(alloc, program, ons, &mut notes)?;
    let notes = Notes {
        objects: Items::from_vec(notes),
        functions: Items::new(alloc),
    };
    Table::of(alloc, &notes)
}
