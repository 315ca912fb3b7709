//! Runs of small checked sources. The expected bytes are written out from the form of frames.

ghost use Rattle.std.specs.Prelude.{◌≡◌, ◌<◌, [], IfOk, length};
ghost use Rattle.cl_tree.specs.declared.kinds.IntKind.TheVariants.{I32};
ghost use Rattle.cl_tree.specs.declared.tree.CType.TheVariants.{Integer as IntegerType};
ghost use Rattle.cl_run.specs.Runs.{IsServed};

use cl_base::name::{Name, NoMemory};
use cl_mean::checked::{Checked, Flow, FnFact, GedlRow, GedlRows, Levels, ObjFact, Typed};
use cl_mean::labels::{LabelTable, Operation};
use cl_mean::outcome::{End, Trap};
use cl_run::run::{Finished, run_checked};
use cl_tree::kinds::{BinOp, IntKind, TrapCause};
use cl_tree::tree::{Act, CType, Expr, Item, Node, Program, Stmt};
use sqlite_items::{Boxed, Items};
use std::alloc::Global;
use std::test::Fail;

/// The lines of the two functions.
const MAIN_LINE: u32 = 9;

const OTHER_LINE: u32 = 8;

fn number(value: u64) -> Expr {
    let kind = IntKind::I32;
    Expr {
        line: MAIN_LINE,
        second: MAIN_LINE,
        node: Node::Number { value, kind },
    }
}

fn variable(alloc: Global) -> Result<Expr, NoMemory> {
    Ok(Expr {
        line: OTHER_LINE,
        second: OTHER_LINE,
        node: Node::Variable(Name::of(alloc, "a")?),
    })
}

/// The call of a function with these arguments.
fn call(alloc: Global, name: &str, arguments: Items<Expr>) -> Result<Expr, NoMemory> {
    Ok(Expr {
        line: MAIN_LINE,
        second: MAIN_LINE,
        node: Node::Call(Name::of(alloc, name)?, arguments),
    })
}

fn call_other(alloc: Global) -> Result<Expr, NoMemory> {
    call(alloc, "f", Items::new(alloc))
}

/// An operator on two operands, at a line.
fn binary(alloc: Global, line: u32, op: BinOp, left: Expr, right: Expr) -> Result<Expr, NoMemory> {
    let left = Boxed::new(alloc, left)?;
    let right = Boxed::new(alloc, right)?;
    Ok(Expr {
        line,
        second: line,
        node: Node::Binary(op, left, right),
    })
}

fn statement(node: Act) -> Stmt {
    Stmt {
        line: MAIN_LINE,
        second: MAIN_LINE,
        node,
    }
}

/// `putchar(E);`
fn put(alloc: Global, e: Expr) -> Result<Stmt, NoMemory> {
    let mut arguments = Items::new(alloc);
    arguments.push(e)?;
    Ok(statement(Act::Call(call(alloc, "putchar", arguments)?)))
}

/// `putchar(48 + f());`
fn put_digit(alloc: Global) -> Result<Stmt, NoMemory> {
    let value = binary(alloc, MAIN_LINE, BinOp::Add, number(48), call_other(alloc)?)?;
    put(alloc, value)
}

fn give(e: Expr) -> Stmt {
    statement(Act::Return(Some(e)))
}

/// `int NAME(void) { .. }`
fn function(alloc: Global, name: &str, line: u32, body: Items<Stmt>) -> Result<Item, NoMemory> {
    Ok(Item::Function {
        is_static: false,
        result: CType::Integer(IntKind::I32),
        name: Name::of(alloc, name)?,
        void_word: true,
        params: Items::new(alloc),
        body: Some(body),
        line,
        second: line,
    })
}

/// `a = a + STEP;`
fn add(alloc: Global, step: u64) -> Result<Stmt, NoMemory> {
    let left = variable(alloc)?;
    let value = binary(alloc, OTHER_LINE, BinOp::Add, left, number(step))?;
    let place = variable(alloc)?;
    Ok(statement(Act::Set {
        op: None,
        place,
        value,
    }))
}

/// `int f(void) { a = a + STEP; return a; }`
fn other(alloc: Global, step: u64) -> Result<Item, NoMemory> {
    let mut body = Items::new(alloc);
    body.push(add(alloc, step)?)?;
    body.push(give(variable(alloc)?))?;
    function(alloc, "f", OTHER_LINE, body)
}

fn fact(alloc: Global, name: &str, item: u32, line: u32) -> Result<FnFact, NoMemory> {
    let name = Name::of(alloc, name)?;
    Ok(FnFact { name, item, line })
}

/// The variable `a` of the other level.
fn object(alloc: Global) -> Result<ObjFact, NoMemory> {
    Ok(ObjFact {
        name: Name::of(alloc, "a")?,
        ctype: CType::Integer(IntKind::I32),
        owner: None,
        item: 2,
        line: 6,
    })
}

/// Level 0 calls `f` of level 1.
fn row(alloc: Global) -> Result<GedlRow, NoMemory>
    ensures from { IfOk result (λ row. row.from ≡ 0) }
    ensures to { IfOk result (λ row. row.to ≡ 1) }
    ensures args { IfOk result (λ row. row.args ≡ []) }
    ensures result { IfOk result (λ row. row.result ≡ IntegerType I32) }
    ensures request { IfOk result (λ row. row.request ≡ 0) }
    ensures reply { IfOk result (λ row. row.reply ≡ 4) }
{
    Ok(GedlRow {
        from: 0,
        to: 1,
        function: 0,
        name: Name::of(alloc, "f")?,
        label: Name::of(alloc, "F")?,
        operation: Operation::Allow,
        args: Items::new(alloc),
        result: CType::Integer(IntKind::I32),
        request: 0,
        reply: 4,
        oneway: false,
    })
}

/// The only object.
fn objects(alloc: Global) -> Result<Items<ObjFact>, NoMemory> {
    let mut objects = Items::new(alloc);
    objects.push(object(alloc)?)?;
    Ok(objects)
}

/// The function `main`.
fn functions(alloc: Global) -> Result<Items<FnFact>, NoMemory>
    ensures { IfOk result (λ functions. 0 < length functions) }
{
    let mut functions = Items::new(alloc);
    functions.push(fact(alloc, "main", 0, MAIN_LINE)?)?;
    Ok(functions)
}

/// A program with its functions and its objects.
fn typed(alloc: Global, items: Items<Item>) -> Result<Typed, NoMemory>
    ensures { IfOk result (λ t. 0 < length t.functions) }
{
    let functions = functions(alloc)?;
    let objects = objects(alloc)?;
    Ok(Typed {
        program: Program { items },
        functions,
        objects,
    })
}

/// The names of the two levels.
fn level_names(alloc: Global) -> Result<Items<Name>, NoMemory>
    ensures { IfOk result (λ names. length names ≡ 2) }
{
    let mut names = Items::new(alloc);
    names.push(Name::of(alloc, "purple")?)?;
    names.push(Name::of(alloc, "orange")?)?;
    Ok(names)
}

/// The numbers of the levels of objects: `a` is of level 1.
fn object_levels(alloc: Global) -> Result<Items<u32>, NoMemory> {
    let mut numbers = Items::new(alloc);
    numbers.push(1)?;
    Ok(numbers)
}

/// Two levels, and no labels.
fn labels(alloc: Global) -> Result<LabelTable, NoMemory>
    ensures { IfOk result (λ table. length table.levels ≡ 2) }
{
    Ok(LabelTable {
        levels: level_names(alloc)?,
        labels: Items::new(alloc),
        on_functions: Items::new(alloc),
        on_objects: Items::new(alloc),
    })
}

/// `main` is of level 0.
fn levels(alloc: Global) -> Result<Levels, NoMemory>
    ensures { IfOk result (λ levels. levels.main ≡ 0) }
{
    Ok(Levels {
        of_functions: Items::new(alloc),
        of_objects: object_levels(alloc)?,
        main: 0,
    })
}

fn flow(alloc: Global) -> Flow {
    Flow {
        objects: Items::new(alloc),
        locals: Items::new(alloc),
        results: Items::new(alloc),
    }
}

fn gedl(alloc: Global, rows: Items<GedlRow>) -> GedlRows
    ensures rows { result.rows ≡ rows }
    ensures calling { result.main ≡ 0 }
{
    GedlRows {
        levels: Items::new(alloc),
        main: 0,
        rows,
    }
}

/// A checked source of two levels with these rows. `main` is of level 0.
fn checked(alloc: Global, items: Items<Item>, rows: Items<GedlRow>) -> Result<Checked, NoMemory>
    ensures rows { IfOk result (λ c. c.gedl.rows ≡ rows) }
    ensures levels { IfOk result (λ c. length c.labels.levels ≡ 2) }
    ensures main { IfOk result (λ c. c.levels.main ≡ 0) }
    ensures calling { IfOk result (λ c. c.gedl.main ≡ 0) }
    ensures functions { IfOk result (λ c. 0 < length c.typed.functions) }
{
    let labels = labels(alloc)?;
    let levels = levels(alloc)?;
    let typed = typed(alloc, items)?;
    Ok(Checked {
        typed,
        labels,
        levels,
        flow: flow(alloc),
        gedl: gedl(alloc, rows),
    })
}

/// A checked source of `main` alone.
fn alone(alloc: Global, main: Items<Stmt>) -> Result<Checked, NoMemory>
    ensures { IfOk result IsServed }
{
    let mut items = Items::new(alloc);
    items.push(function(alloc, "main", MAIN_LINE, main)?)?;
    checked(alloc, items, Items::new(alloc))
}

/// The items of `f`, which adds to `a`, and `main`, which calls it.
fn both(alloc: Global, step: u64, main: Items<Stmt>) -> Result<Items<Item>, NoMemory> {
    let mut items = Items::new(alloc);
    items.push(other(alloc, step)?)?;
    items.push(function(alloc, "main", MAIN_LINE, main)?)?;
    Ok(items)
}

/// A checked source of these two.
fn pair(alloc: Global, step: u64, main: Items<Stmt>) -> Result<Checked, NoMemory>
    ensures { IfOk result IsServed }
{
    let items = both(alloc, step, main)?;
    let mut rows = Items::new(alloc);
    rows.push(row(alloc)?)?;
    checked(alloc, items, rows)
}

/// What a level wrote.
fn output(finished: &Finished, level: usize) -> &[u8] {
    match finished.state.levels.as_slice().get(level) {
        Some(level) => level.output.as_slice(),
        None => b"no such level",
    }
}

/// What a run is to give: what the two levels wrote, the journal, the number of its frames, and the end.
struct Wanted<'a> {
    outputs: [&'a [u8]; 2],
    journal: &'a [u8],
    frames: u64,
    end: End,
}

/// What is not as it is to be.
fn difference(finished: &Finished, wanted: &Wanted<'_>) -> Option<&'static str> {
    let [first, second] = wanted.outputs;
    if output(finished, 0) != first || output(finished, 1) != second {
        Some("outputs")
    } else if finished.hal.journal() != wanted.journal {
        Some("journal")
    } else if finished.hal.frames() != wanted.frames {
        Some("frames")
    } else if finished.end != wanted.end {
        Some("end")
    } else {
        None
    }
}

// A checked source is held in these two alone: where a test with many exits holds it, each exit's proof drops the tree.
fn run_alone(alloc: Global, main: Items<Stmt>) -> Result<Finished, NoMemory> {
    let checked = alone(alloc, main)?;
    run_checked(alloc, &checked)
}

fn run_pair(alloc: Global, step: u64, main: Items<Stmt>) -> Result<Finished, NoMemory> {
    let checked = pair(alloc, step, main)?;
    run_checked(alloc, &checked)
}

/// `putchar(72); return 3 - 1;`
fn one_level(alloc: Global) -> Result<Items<Stmt>, NoMemory> {
    let mut main = Items::new(alloc);
    main.push(put(alloc, number(72))?)?;
    main.push(give(binary(alloc, MAIN_LINE, BinOp::Sub, number(3), number(1))?))?;
    Ok(main)
}

const ONE_LEVEL: Wanted<'static> = Wanted {
    outputs: [b"H", b""],
    journal: b"",
    frames: 0,
    end: End::Exit(2),
};

#[test]
fn one_level_runs(rt: HostRuntime) -> Result<(), Fail> {
    let alloc = rt.alloc();
    let finished = run_alone(alloc, one_level(alloc)?)?;
    assert_eq!(rt; difference(&finished, &ONE_LEVEL), None);
    Ok(())
}

/// `putchar(48 + f()); putchar(48 + f()); return 0;`
fn two_calls(alloc: Global) -> Result<Items<Stmt>, NoMemory> {
    let mut main = Items::new(alloc);
    main.push(put_digit(alloc)?)?;
    main.push(put_digit(alloc)?)?;
    main.push(give(number(0)))?;
    Ok(main)
}

/// Two calls whose replies are 1 and 2.
const TWO_CALLS: Wanted<'static> = Wanted {
    outputs: [b"12", b""],
    journal: b"\0\0\0\x01\0\0\0\x01\0\0\0\x01\0\0\0\0\0\0\0\x01\0\0\0\0\0\0\0\0\x01\0\0\0\x01\0\0\0\x02\0\0\0\0\0\0\0\x02\0\0\0\0\x04\0\0\0\x01\0\0\0\x01\0\0\0\x01\0\0\0\x01\0\0\0\0\0\0\0\x03\0\0\0\0\0\0\0\0\x01\0\0\0\x01\0\0\0\x02\0\0\0\0\0\0\0\x04\0\0\0\0\x04\0\0\0\x02",
    frames: 4,
    end: End::Exit(0),
};

#[test]
fn calls_cross(rt: HostRuntime) -> Result<(), Fail> {
    let alloc = rt.alloc();
    let finished = run_pair(alloc, 1, two_calls(alloc)?)?;
    assert_eq!(rt; difference(&finished, &TWO_CALLS), None);
    Ok(())
}

/// `putchar(65); return f() - f();`
fn subtracted(alloc: Global) -> Result<Items<Stmt>, NoMemory> {
    let mut main = Items::new(alloc);
    main.push(put(alloc, number(65))?)?;
    let left = call_other(alloc)?;
    let right = call_other(alloc)?;
    main.push(give(binary(alloc, MAIN_LINE, BinOp::Sub, left, right)?))?;
    Ok(main)
}

/// A call whose reply is the greatest `int`, and one that a trap breaks off.
const BROKEN_CALL: Wanted<'static> = Wanted {
    outputs: [b"A", b""],
    journal: b"\0\0\0\x01\0\0\0\x01\0\0\0\x01\0\0\0\0\0\0\0\x01\0\0\0\0\0\0\0\0\x01\0\0\0\x01\0\0\0\x02\0\0\0\0\0\0\0\x02\0\0\0\0\x04\x7f\xff\xff\xff\0\0\0\x01\0\0\0\x01\0\0\0\x01\0\0\0\0\0\0\0\x03\0\0\0\0\0\0\0\0\x01\0\0\0\x01\0\0\0\x02\0\0\0\0\0\0\0\x04\x02\0\0\0\0",
    frames: 4,
    end: End::Trapped(
        1,
        Trap {
            cause: TrapCause::Overflow,
            line: OTHER_LINE,
        },
    ),
};

#[test]
fn a_trap_breaks_a_call_off(rt: HostRuntime) -> Result<(), Fail> {
    let alloc = rt.alloc();
    let finished = run_pair(alloc, 2147483647, subtracted(alloc)?)?;
    assert_eq!(rt; difference(&finished, &BROKEN_CALL), None);
    Ok(())
}
