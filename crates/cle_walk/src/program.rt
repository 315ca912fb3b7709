//! What is noted of a whole program.

ghost use Rattle.std.specs.Prelude.{◌≡◌, ◌++◌, IfOk, OnOk};
ghost use Rattle.cle_ways.specs.Ways as w;
ghost use Rattle.cle_ways.specs.Programs.{levelled};

use crate::walk::look_items;
use cl_base::name::NoMemory;
use cl_mean::checked::{Levels, ObjFact, Typed};
use cl_mean::labels::{LabelTable, Mention};
use cle_ways::exprs::{put_bound, put_into};
use cle_ways::facts::Program;
use cle_ways::spot::Spot;
use cle_ways::ways::{Admitted, Body, Holder, Note, Origin};
use sqlite_items::Items;
use std::alloc::Global;

/// What is noted of a program: of its objects of static duration, and of each of its functions.
#[derive(Drop)]
pub struct Notes {
    pub objects: Items<Note>,
    pub functions: Items<Body>,
}

/// An annotated object, with its label.
fn look_labelled(
    alloc: Global,
    k: usize,
    line: u32,
    label: u32,
    notes: &mut Vec<Note>,
) -> Result<(), NoMemory>
    ensures { OnOk result (notes.new.items ≡ notes.old.items ++ w.labelled k line label) }
{
    let x = Holder::Object(k);
    put_into(x, &[Origin::Just(Mention::Label(label))], notes)?;
    put_bound(
        alloc,
        32,
        &[Origin::AllOf(x)],
        Admitted::Own(label),
        line,
        notes,
    )
}

fn look_object(
    alloc: Global,
    program: &Program<'_>,
    k: usize,
    line: u32,
    notes: &mut Vec<Note>,
) -> Result<(), NoMemory>
    ensures { OnOk result (notes.new.items ≡ notes.old.items ++ w.own_notes program.now k line (w.object_label program.now k)) }
{
    match program.object_label(k) {
        Some(label) => look_labelled(alloc, k, line, label, notes),
        None => put_into(
            Holder::Object(k),
            &[Origin::Just(Mention::Level(program.object_level(k)))],
            notes,
        ),
    }
}

#[tactic(auto, unfolding(cle_ways::specs::Ways::objects_from))]
fn look_objects(
    alloc: Global,
    program: &Program<'_>,
    objects: &[ObjFact],
    notes: &mut Vec<Note>,
) -> Result<(), NoMemory>
    ensures { OnOk result (notes.new.items ≡ notes.old.items ++ w.objects_from program.now 0 objects.now) }
{
    for (k, object) in objects.iter().enumerate() {
        look_object(alloc, program, k, object.line, notes)?;
    }
    Ok(())
}

/// The ways that labels go in a program, and what the rules on them bound.
#[tactic(auto, unfolding(cle_ways::specs::Ways::notes_of_objects, cle_ways::specs::Ways::bodies_of))]
pub fn note_program(
    alloc: Global,
    typed: &Typed,
    labels: &LabelTable,
    levels: &Levels,
) -> Result<Notes, NoMemory>
    ensures objects { IfOk result (λ n. n.objects ≡ w.notes_of_objects (levelled typed.now labels.now levels.now)) }
    ensures functions { IfOk result (λ n. n.functions ≡ w.bodies_of (levelled typed.now labels.now levels.now)) }
{
    let program = Program::of(alloc, typed, labels, levels)?;
    let mut objects = Vec::new(alloc);
    look_objects(alloc, &program, typed.objects.as_slice(), &mut objects)?;
    let mut spot = Spot::new(alloc);
    let mut functions = Vec::new(alloc);
    look_items(
        alloc,
        &program,
        &mut spot,
        typed.program.items.as_slice(),
        &mut functions,
    )?;
    Ok(Notes {
        objects: Items::from_vec(objects),
        functions: Items::from_vec(functions),
    })
}
