//! The run of a checked source.

ghost use Rattle.std.specs.Prelude.{◌≡◌, IfOk, codes, length, map};
ghost use Rattle.cl_run.specs.FormCalls.{defined, scope_at};
ghost use Rattle.cl_run.specs.FormExecution.{in_turn, run as ran};
ghost use Rattle.cl_run.specs.FormMeaning.{main_context, mean, objects_at, start_of, statements_of};
ghost use Rattle.cl_run.specs.Runs.{IsServed, IsRun};
ghost use Rattle.cl_run.specs.Steps.{IsStep, Stands};

use crate::calls::{defined, kind_of};
use crate::evaluate::in_turn;
use crate::exchange::send_stop;
use crate::flow::Flow;
use crate::near::Near;
use crate::running::Running;
use crate::state::{LevelStates, Object, Objects, State};
use crate::stop::Stop;
use cl_base::name::NoMemory;
use cl_mean::checked::{Checked, ObjFact};
use cl_mean::outcome::End;
use hal_route::hal::Hal;
use rpc_codec::frame::FrameBuf;
use sqlite_items::Items;
use std::alloc::Global;

/// What is left of a run: its state, its router, and how it ended.
#[derive(Drop)]
pub struct Finished {
    pub state: State,
    pub hal: Hal,
    pub end: End,
}

/// The objects of static duration at the start: each is zero, at its level.
#[tactic(auto, unfolding(crate::specs::FormMeaning::objects_at))]
fn objects_at(alloc: Global, facts: &[ObjFact], levels: &[u32]) -> Result<Objects, NoMemory>
    ensures { IfOk result (λ objects. objects ≡ objects_at facts.now levels.now) }
{
    let mut objects = Objects::new(alloc);
    for (place, fact) in facts.iter().enumerate() {
        let Some(level) = levels.get(place) else {
            return Ok(objects);
        };
        objects.push(Object {
            level: *level,
            kind: kind_of(&fact.ctype),
            number: 0,
        })?;
    }
    Ok(objects)
}

/// Everything at the start of a run.
fn start(alloc: Global, checked: &Checked) -> Result<Running, NoMemory>
    requires { IsServed checked.now }
    ensures state { IfOk result (λ running. running.state ≡ start_of checked.now) }
    ensures stands { IfOk result (Stands checked.now) }
{
    let facts = checked.typed.objects.as_slice();
    let state = State {
        levels: LevelStates::start(alloc, checked.labels.levels.as_slice())?,
        objects: objects_at(alloc, facts, checked.levels.of_objects.as_slice())?,
        crossings: Items::new(alloc),
    };
    let hal = Hal::open(alloc, checked)?;
    let frame = FrameBuf::open(alloc)?;
    Ok(Running { state, hal, frame })
}

/// Runs the statements of `main`.
fn run_main(alloc: Global, checked: &Checked, running: &mut Running) -> Result<Flow, Stop>
    requires served { IsServed checked.now }
    requires stands { Stands checked.now running.old }
    ensures step { IsStep result running.new.state (in_turn (map (ran (scope_at checked.now (length checked.now.typed.functions)) (main_context checked.now)) (statements_of (defined (codes "main") checked.now.typed.program.items))) running.old.state) }
    ensures stands { Stands checked.now running.new }
{
    let near = Near { alloc, checked };
    match defined("main", checked.typed.program.items.as_slice()) {
        Some(body) => in_turn(&near, body.statements, running),
        None => Ok(Flow::GoesOn),
    }
}

/// Runs `main` of a checked source, which can be run so far. `main` that reaches its end returns 0. The only error is
/// want of memory.
#[tactic(auto, unfolding(crate::specs::FormMeaning::mean))]
pub fn run_checked(alloc: Global, checked: &Checked) -> Result<Finished, NoMemory>
    requires { IsServed checked.now }
    ensures { IfOk result (λ f. IsRun checked.now f.state f.hal f.end (mean checked.now)) }
{
    let mut running = start(alloc, checked)?;
    let end = match run_main(alloc, checked, &mut running) {
        Ok(Flow::GoesOn) => End::Exit(0),
        Ok(Flow::Returns(value)) => End::Exit(value),
        Err(Stop::Trapped(level, trap)) => End::Trapped(level, trap),
        Err(Stop::NoMemory) => return Err(NoMemory),
    };
    send_stop(checked, &mut running.hal, &mut running.frame);
    let Running { state, hal, .. } = running;
    Ok(Finished { state, hal, end })
}
