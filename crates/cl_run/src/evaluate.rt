//! Running code at a level, by recursion on its tree.

ghost use Rattle.std.specs.Prelude.{◌≡◌, ◌<◌, ℕ, ℤ, length, map, Ok};
ghost use Rattle.cl_run.specs.declared.flow.Flow.TheVariants.{GoesOn};
ghost use Rattle.cl_tree.specs.declared.kinds.IntKind.TheVariants.{I32, U8};
ghost use Rattle.cl_tree.specs.declared.tree.Node.{out-Node};
ghost use Rattle.cl_tree.specs.Arithmetic.{apply, value, residue};
ghost use Rattle.cl_run.specs.FormState.{lifted};
ghost use Rattle.cl_run.specs.FormEvaluation.{place_of, fetched, value_of};
ghost use Rattle.cl_run.specs.FormExecution.{run as ran, in_turn, called, written, stored, assigned};
ghost use Rattle.cl_run.specs.FormCalls.{scope_at};
ghost use Rattle.cl_run.specs.declared.state.State.{State as StateValue};
ghost use Rattle.cl_run.specs.Steps.{IsStep, IsQuiet, Stands, Goes};

use crate::flow::Flow;
use crate::running::Running;
use crate::state::{Context, State};
use crate::stop::Stop;
use crate::world::World;
use cl_base::limits::OUTPUT_BYTES;
use cl_base::name::Name;
use cl_mean::checked::ObjFact;
use cl_mean::outcome::Trap;
use cl_tree::arithmetic::{apply, convert};
use cl_tree::kinds::{BinOp, IntKind, TrapCause};
use cl_tree::tree::{Act, Expr, Node, Stmt};

/// An operator on two operands, which are `int`.
fn operate(context: Context, op: BinOp, line: u32, x: i128, y: i128) -> Result<i128, Stop>
    ensures { (state : StateValue) → IsStep result state (lifted context line (apply op I32 (value I32 x) (value I32 y)) state) }
{
    match apply(
        op,
        IntKind::I32,
        convert(IntKind::I32, x),
        convert(IntKind::I32, y),
    ) {
        Ok(value) => Ok(value),
        Err(cause) => Err(Stop::Trapped(context.level, Trap { cause, line })),
    }
}

/// The place of the first object of a name.
#[tactic(auto, using(crate::proofs::Places::place_behind, crate::proofs::Places::place_here))]
fn place_of(objects: &[ObjFact], name: &Name) -> Option<usize>
    ensures { result ≡ place_of objects.now name.now }
{
    for (place, object) in objects.iter().enumerate() {
        if object.name.as_bytes() == name.as_bytes() {
            return Some(place);
        }
    }
    None
}

/// The number of the object at a place.
fn fetch(place: Option<usize>, state: &State) -> i128
    ensures { (fetched place state.now) ≡ Ok (result, state.now) }
{
    match place {
        Some(place) => match state.objects.as_slice().get(place) {
            Some(object) => object.number,
            None => 0,
        },
        None => 0,
    }
}

/// The value of an expression.
#[tactic(auto, unfolding(crate::specs::FormEvaluation::value_of))]
fn value_of<W: World>(world: &W, e: &Expr, run: &mut Running) -> Result<i128, Stop>
    requires fits { W.fits world.now }
    requires stands { Stands (W.checked world.now) run.old }
    ensures step { IsStep result run.new.state (value_of (scope_at (W.checked world.now) (W.depth world.now)) (W.context world.now) e.now run.old.state) }
    ensures goes { Goes (W.checked world.now) run.old run.new }
{
    match &e.node {
        Node::Number { value, kind } => Ok(convert(*kind, i128::from(*value))),
        Node::Variable(name) => Ok(fetch(place_of(world.objects(), name), &run.state)),
        Node::Paren(inner) => value_of(world, inner.get(), run),
        Node::Binary(op, left, right) => match op {
            BinOp::Add | BinOp::Sub | BinOp::Mul => {
                let x = value_of(world, left.get(), run)?;
                let y = value_of(world, right.get(), run)?;
                operate(world.context(), *op, e.second, x, y)
            }
            _ => Ok(0),
        },
        Node::Call(name, arguments) => match arguments.as_slice() {
            [] => world.call(e.line, name, run),
            _ => Ok(0),
        },
        _ => Ok(0),
    }
}

/// The low 8 bits of a number.
#[tactic(auto, unfolding(cl_tree::specs::Arithmetic::residue, cl_tree::specs::Arithmetic::width))]
fn low_byte(n: i128) -> u8
    ensures { result ≡ residue U8 n }
{
    n.rem_euclid(256) as u8
}

/// Writes a byte to the output of the level.
#[tactic(auto, unfolding(crate::specs::FormExecution::written))]
fn write_byte(context: Context, line: u32, byte: u8, state: &mut State) -> Result<Flow, Stop>
    requires { context.level < length state.old.levels }
    ensures step { IsStep result state.new (written context line byte state.old) }
    ensures quiet { IsQuiet state.old state.new }
{
    let level = context.level as usize;
    if state.levels.as_slice()[level].output.len() < OUTPUT_BYTES {
        state.levels.put(level, byte)?;
        Ok(Flow::GoesOn)
    } else {
        let cause = TrapCause::Output;
        Err(Stop::Trapped(context.level, Trap { cause, line }))
    }
}

/// Stores a number in the object at a place, in the kind of the object.
fn store(place: Option<usize>, n: i128, state: &mut State)
    ensures step { stored place n state.old ≡ Ok (GoesOn, state.new) }
    ensures quiet { IsQuiet state.old state.new }
{
    let Some(place) = place else {
        return;
    };
    let Some(object) = state.objects.as_slice().get(place) else {
        return;
    };
    let number = convert(object.kind, n);
    state.objects.set(place, number);
}

/// A call as a statement.
fn call<W: World>(world: &W, line: u32, e: &Expr, run: &mut Running) -> Result<Flow, Stop>
    requires fits { W.fits world.now }
    requires level { (W.context world.now).level < length (W.checked world.now).labels.levels }
    requires stands { Stands (W.checked world.now) run.old }
    ensures step { IsStep result run.new.state (called (scope_at (W.checked world.now) (W.depth world.now)) (W.context world.now) line (out-Node e.now.node) run.old.state) }
    ensures goes { Goes (W.checked world.now) run.old run.new }
{
    let Node::Call(name, arguments) = &e.node else {
        return Ok(Flow::GoesOn);
    };
    match arguments.as_slice() {
        [argument] if name.text() == "putchar" => {
            let value = value_of(world, argument, run)?;
            write_byte(world.context(), line, low_byte(value), &mut run.state)
        }
        _ => Ok(Flow::GoesOn),
    }
}

/// An assignment to a variable.
fn assign<W: World>(world: &W, place: &Expr, n: i128, run: &mut Running)
    requires stands { Stands (W.checked world.now) run.old }
    ensures step { assigned (scope_at (W.checked world.now) (W.depth world.now)) (out-Node place.now.node) n run.old.state ≡ Ok (GoesOn, run.new.state) }
    ensures goes { Goes (W.checked world.now) run.old run.new }
{
    if let Node::Variable(name) = &place.node {
        store(place_of(world.objects(), name), n, &mut run.state);
    }
}

/// A statement.
#[tactic(auto, unfolding(crate::specs::FormExecution::run))]
fn run<W: World>(world: &W, s: &Stmt, run: &mut Running) -> Result<Flow, Stop>
    requires fits { W.fits world.now }
    requires level { (W.context world.now).level < length (W.checked world.now).labels.levels }
    requires stands { Stands (W.checked world.now) run.old }
    ensures step { IsStep result run.new.state (ran (scope_at (W.checked world.now) (W.depth world.now)) (W.context world.now) s.now run.old.state) }
    ensures goes { Goes (W.checked world.now) run.old run.new }
{
    match &s.node {
        Act::Call(e) => call(world, s.line, e, run),
        Act::Set {
            op: None,
            place,
            value,
        } => {
            let value = value_of(world, value, run)?;
            assign(world, place, value, run);
            Ok(Flow::GoesOn)
        }
        Act::Return(Some(e)) => {
            let value = value_of(world, e, run)?;
            Ok(Flow::Returns(convert(world.context().returns, value)))
        }
        _ => Ok(Flow::GoesOn),
    }
}

/// Statements in order, up to one that returns.
pub fn in_turn<W: World>(world: &W, all: &[Stmt], run: &mut Running) -> Result<Flow, Stop>
    requires fits { W.fits world.now }
    requires level { (W.context world.now).level < length (W.checked world.now).labels.levels }
    requires stands { Stands (W.checked world.now) run.old }
    ensures step { IsStep result run.new.state (in_turn (map (ran (scope_at (W.checked world.now) (W.depth world.now)) (W.context world.now)) all.now) run.old.state) }
    ensures goes { Goes (W.checked world.now) run.old run.new }
{
    for s in all {
        if let Flow::Returns(value) = self::run(world, s, run)? {
            return Ok(Flow::Returns(value));
        }
    }
    Ok(Flow::GoesOn)
}
