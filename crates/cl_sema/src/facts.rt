//! What is kept of a typed program: its functions, and its objects of static duration.

ghost use Rattle.std.specs.Prelude.{◌≡◌, ◌++◌, ◌∷◌, [], map, option_map, OnOk, IfOk};
ghost use Rattle.std.specs.List.{flat_map};
ghost use Rattle.cl_mean.specs.Source.{statics_in, maybe_all};
ghost use Rattle.cl_typing.specs.Facts as facts;

use cl_base::name::NoMemory;
use cl_mean::checked::{FnFact, ObjFact};
use cl_tree::tree::{Act, CType, Declarator, Item, Program, Stmt};
use sqlite_items::{Boxed, Items};
use std::alloc::Global;

/// Another value of the same type.
fn copy_type(alloc: Global, t: &CType) -> Result<CType, NoMemory>
    ensures { IfOk result (λ c. c ≡ t.now) }
{
    match t {
        CType::Void => Ok(CType::Void),
        CType::Integer(kind) => Ok(CType::Integer(*kind)),
        CType::Struct(tag) => Ok(CType::Struct(tag.copy(alloc)?)),
        CType::Array(inner, n) => Ok(CType::Array(
            Boxed::new(alloc, copy_type(alloc, inner.get())?)?,
            *n,
        )),
        CType::Pointer(inner) => Ok(CType::Pointer(Boxed::new(
            alloc,
            copy_type(alloc, inner.get())?,
        )?)),
        CType::Floating => Ok(CType::Floating),
    }
}

/// An index as facts keep it. A source has far fewer items than fit.
fn index(n: usize) -> Result<u32, NoMemory>
    ensures { IfOk result (λ i. i ≡ n) }
{
    match u32::try_from(n) {
        Ok(i) => Ok(i),
        Err(_) => Err(NoMemory),
    }
}

#[tactic(auto, unfolding(cl_typing::specs::Facts::function_facts))]
fn push_function(
    alloc: Global,
    functions: &mut Items<FnFact>,
    place: usize,
    item: &Item,
) -> Result<(), NoMemory>
    ensures { OnOk result (functions.new ≡ functions.old ++ facts.function_facts place item.now) }
{
    match item {
        Item::Function {
            is_static: _,
            result: _,
            name,
            void_word: _,
            params: _,
            body: Some(_),
            line: _,
            second,
        } => {
            let fact = FnFact {
                name: name.copy(alloc)?,
                item: index(place)?,
                line: *second,
            };
            functions.push(fact)?;
            Ok(())
        }
        _ => Ok(()),
    }
}

/// The functions that a program defines, in the order of the source.
#[tactic(auto, unfolding(cl_typing::specs::Facts::functions_of, cl_typing::specs::Facts::functions_from))]
pub fn functions_of(alloc: Global, program: &Program) -> Result<Items<FnFact>, NoMemory>
    ensures { IfOk result (λ functions. functions ≡ facts.functions_of program.now) }
{
    let mut functions = Items::new(alloc);
    for (place, item) in program.items.as_slice().iter().enumerate() {
        push_function(alloc, &mut functions, place, item)?;
    }
    Ok(functions)
}

fn push_object(
    alloc: Global,
    objects: &mut Items<ObjFact>,
    owner: Option<u32>,
    place: u32,
    d: &Declarator,
) -> Result<(), NoMemory>
    ensures { OnOk result (objects.new ≡ objects.old ++ facts.object_fact owner place d.now ∷ []) }
{
    let fact = ObjFact {
        name: d.name.copy(alloc)?,
        ctype: copy_type(alloc, &d.ctype)?,
        owner,
        item: place,
        line: d.line,
    };
    objects.push(fact)?;
    Ok(())
}

fn push_objects(
    alloc: Global,
    objects: &mut Items<ObjFact>,
    owner: Option<u32>,
    place: u32,
    ds: &[Declarator],
) -> Result<(), NoMemory>
    ensures { OnOk result (objects.new ≡ objects.old ++ map (facts.object_fact owner place) ds.now) }
{
    for d in ds {
        push_object(alloc, objects, owner, place, d)?;
    }
    Ok(())
}

/// The static locals of a statement.
#[cycle(stmt)]
#[tactic(auto, unfolding(cl_mean::specs::Source::statics_in))]
fn push_statics(
    alloc: Global,
    objects: &mut Items<ObjFact>,
    owner: Option<u32>,
    place: u32,
    s: &Stmt,
) -> Result<(), NoMemory>
    ensures { OnOk result (objects.new ≡ objects.old ++ map (facts.object_fact owner place) (statics_in s.now)) }
{
    match &s.node {
        Act::Block(ss) => push_all(alloc, objects, owner, place, ss.as_slice()),
        Act::If(_, body, other) => {
            push_statics(alloc, objects, owner, place, body.get())?;
            push_part(alloc, objects, owner, place, other)
        }
        Act::While(_, body) => push_statics(alloc, objects, owner, place, body.get()),
        Act::DoWhile(body, _) => push_statics(alloc, objects, owner, place, body.get()),
        Act::For {
            first: _,
            test: _,
            next: _,
            body,
        } => push_statics(alloc, objects, owner, place, body.get()),
        Act::Declare(d) => {
            if !d.is_static {
                return Ok(());
            }
            push_objects(alloc, objects, owner, place, d.names.as_slice())
        }
        _ => Ok(()),
    }
}

#[cycle(stmt)]
fn push_part(
    alloc: Global,
    objects: &mut Items<ObjFact>,
    owner: Option<u32>,
    place: u32,
    s: &Option<Boxed<Stmt>>,
) -> Result<(), NoMemory>
    ensures { OnOk result (objects.new ≡ objects.old ++ map (facts.object_fact owner place)
        (maybe_all (option_map statics_in s.now))) }
{
    match s {
        Some(s) => push_statics(alloc, objects, owner, place, s.get()),
        None => Ok(()),
    }
}

#[cycle(stmt)]
fn push_all(
    alloc: Global,
    objects: &mut Items<ObjFact>,
    owner: Option<u32>,
    place: u32,
    all: &[Stmt],
) -> Result<(), NoMemory>
    ensures { OnOk result (objects.new ≡ objects.old ++ map (facts.object_fact owner place)
        (flat_map (λ ds. ds) (map statics_in all.now))) }
{
    for s in all {
        push_statics(alloc, objects, owner, place, s)?;
    }
    Ok(())
}

/// The static locals of a body.
fn push_body(
    alloc: Global,
    objects: &mut Items<ObjFact>,
    owner: Option<u32>,
    place: u32,
    body: &[Stmt],
) -> Result<(), NoMemory>
    ensures { OnOk result (objects.new ≡ objects.old ++ map (facts.object_fact owner place)
        (flat_map statics_in body.now)) }
{
    for s in body {
        push_statics(alloc, objects, owner, place, s)?;
    }
    Ok(())
}

#[tactic(auto, unfolding(cl_typing::specs::Facts::object_facts))]
fn push_item(
    alloc: Global,
    objects: &mut Items<ObjFact>,
    number: usize,
    place: usize,
    item: &Item,
) -> Result<(), NoMemory>
    ensures { OnOk result (objects.new ≡ objects.old ++ facts.object_facts place number item.now) }
{
    match item {
        Item::Variables(d) => push_objects(alloc, objects, None, index(place)?, d.names.as_slice()),
        Item::Function {
            is_static: _,
            result: _,
            name: _,
            void_word: _,
            params: _,
            body: Some(ss),
            line: _,
            second: _,
        } => {
            push_body(
                alloc,
                objects,
                Some(index(number)?),
                index(place)?,
                ss.as_slice(),
            )
        }
        _ => Ok(()),
    }
}

#[tactic(auto, unfolding(cl_typing::specs::Facts::number_after))]
fn number_after(number: usize, item: &Item) -> Result<usize, NoMemory>
    ensures { IfOk result (λ n. n ≡ facts.number_after number item.now) }
{
    match item {
        Item::Function {
            is_static: _,
            result: _,
            name: _,
            void_word: _,
            params: _,
            body: Some(_),
            line: _,
            second: _,
        } => match number.checked_add(1) {
            Some(n) => Ok(n),
            None => Err(NoMemory),
        },
        _ => Ok(number),
    }
}

/// The objects of static duration of a program, in the order of the source.
#[tactic(auto, unfolding(cl_typing::specs::Facts::objects_of, cl_typing::specs::Facts::objects_from))]
pub fn objects_of(alloc: Global, program: &Program) -> Result<Items<ObjFact>, NoMemory>
    ensures { IfOk result (λ objects. objects ≡ facts.objects_of program.now) }
{
    let mut objects = Items::new(alloc);
    let mut number = 0usize;
    for (place, item) in program.items.as_slice().iter().enumerate() {
        push_item(alloc, &mut objects, number, place, item)?;
        number = number_after(number, item)?;
    }
    Ok(objects)
}
