//! The level of `main`, and the calls that it makes to other levels.

ghost use Rattle.std.specs.Prelude.{◌≡◌, ◌<◌, ◌≤◌, ◌+◌, ◌-◌, ◌∷◌, [], length, true, false, slice_get, Some, IfOk, OnOk, OnErr};
ghost use Rattle.cl_tree.specs.Arithmetic.{fits};
ghost use Rattle.cl_tree.specs.declared.kinds.IntKind.TheVariants.{I32};
ghost use Rattle.rpc_codec.specs.Frames.{IsHeader};
ghost use Rattle.cl_run.specs.declared.crossing.Content.TheVariants.{Values, Broken};
ghost use Rattle.cl_run.specs.FormState.{cost_at};
ghost use Rattle.cl_run.specs.FormCalls.{call_at, cost_of, crossing, defined, guarded, kind_of, paid, replied, scope_at, served};
ghost use Rattle.cl_run.specs.FormExecution.{run as ran};
ghost use Rattle.cl_run.specs.FormMeaning.{main_context};
ghost use Rattle.cl_run.specs.Runs.{IsServed};
ghost use Rattle.cl_run.specs.Steps.{IsStep, IsPaid, Stands, Goes, Crosses, header_of};

use crate::calls::{Route, cost_of, kind_of, route_of};
use crate::crossing::{Content, Crossing};
use crate::exchange::{asked_row, int_layout, received, send_broken, send_reply, send_request};
use crate::far::serve;
use crate::running::Running;
use crate::state::{Context, State};
use crate::stop::Stop;
use crate::world::World;
use cl_base::limits::FRAME_COST;
use cl_base::name::{Name, NoMemory};
use cl_mean::checked::{Checked, GedlRow, ObjFact};
use cl_mean::outcome::Trap;
use cl_tree::arithmetic::convert;
use cl_tree::kinds::{IntKind, TrapCause};
use rpc_codec::frame::VALUES;
use sqlite_items::Items;
use std::alloc::Global;

/// A level pays for a call, or traps where its budget is spent.
#[tactic(auto, unfolding(crate::specs::FormCalls::paid))]
fn pay(context: Context, cost: u32, line: u32, state: &mut State) -> Result<(), Stop>
    requires { context.level < length state.old.levels }
    ensures step { IsStep result state.new (paid context cost line state.old) }
    ensures crossings { state.new.crossings ≡ state.old.crossings }
    ensures levels { length state.new.levels ≡ length state.old.levels }
    ensures ok { OnOk result ((cost_at state.new.levels context.level ≡ cost_at state.old.levels context.level + cost) × (cost_at state.new.levels context.level ≤ FRAME_COST)) }
    ensures err { OnErr result (state.new ≡ state.old) }
{
    let level = context.level as usize;
    let spent = u64::from(state.levels.as_slice()[level].cost) + u64::from(cost);
    if spent > u64::from(FRAME_COST) {
        let cause = TrapCause::Frames;
        return Err(Stop::Trapped(context.level, Trap { cause, line }));
    }
    state.levels.charge(level, spent as u32);
    Ok(())
}

/// The request of a row crosses. The result is the level that it came to.
fn ask(
    alloc: Global,
    checked: &Checked,
    route: &Route<'_>,
    running: &mut Running,
) -> Result<u32, NoMemory>
    requires served { IsServed checked.now }
    requires row { slice_get checked.now.gedl.rows route.now.number ≡ Some route.now.row.now }
    requires stands { Stands checked.now running.old }
    requires paid { IsPaid checked.now 25 running.old }
    ensures level { IfOk result (λ level. level ≡ route.now.row.now.to) }
    ensures crosses { OnOk result (Crosses checked.now running.old running.new (crossing route.now.number false (Values [])) 25) }
    ensures read { OnOk result (IsHeader running.new.frame (header_of running.old.hal route.now.number false VALUES 0)) }
    ensures err { OnErr result (Goes checked.now running.old running.new) }
{
    let content = Content::Values(Items::new(alloc));
    let row = route.number;
    let reply = false;
    running.state.crossings.push(Crossing {
        row,
        reply,
        content,
    })?;
    Ok(send_request(checked, route, &mut running.hal, &mut running.frame))
}

/// What a reply of a row makes of a number.
#[tactic(auto, unfolding(cl_tree::specs::Arithmetic::fits, cl_tree::specs::Arithmetic::least, cl_tree::specs::Arithmetic::beyond, cl_tree::specs::Arithmetic::is_signed, cl_tree::specs::Arithmetic::width))]
fn replied(row: &GedlRow, n: i128) -> i128
    requires { kind_of row.now.result ≡ I32 }
    ensures value { result ≡ replied row.now n }
    ensures fits { fits I32 result ≡ true }
{
    convert(kind_of(&row.result), n)
}

/// The reply of a row crosses, with the number that the function gave. The result is the number that came.
fn answer(
    alloc: Global,
    checked: &Checked,
    route: &Route<'_>,
    n: i128,
    running: &mut Running,
) -> Result<i128, NoMemory>
    requires served { IsServed checked.now }
    requires row { slice_get checked.now.gedl.rows route.now.number ≡ Some route.now.row.now }
    requires stands { Stands checked.now running.old }
    requires paid { IsPaid checked.now 29 running.old }
    ensures number { IfOk result (λ m. m ≡ replied route.now.row.now n) }
    ensures crosses { OnOk result (Crosses checked.now running.old running.new (crossing route.now.number true (Values (replied route.now.row.now n ∷ []))) 29) }
    ensures err { OnErr result (Goes checked.now running.old running.new) }
{
    let value = replied(route.row, n);
    let layout = int_layout(alloc)?;
    let mut values = Items::new(alloc);
    values.push(value)?;
    let content = Content::Values(values);
    let row = route.number;
    let reply = true;
    running.state.crossings.push(Crossing {
        row,
        reply,
        content,
    })?;
    send_reply(
        checked,
        route,
        &layout,
        value,
        &mut running.hal,
        &mut running.frame,
    );
    Ok(received(&layout, &running.frame))
}

/// The broken reply of a row crosses.
fn break_off(checked: &Checked, route: &Route<'_>, running: &mut Running) -> Result<(), NoMemory>
    requires served { IsServed checked.now }
    requires row { slice_get checked.now.gedl.rows route.now.number ≡ Some route.now.row.now }
    requires stands { Stands checked.now running.old }
    requires paid { IsPaid checked.now 25 running.old }
    ensures crosses { OnOk result (Crosses checked.now running.old running.new (crossing route.now.number true Broken) 25) }
    ensures err { OnErr result (Goes checked.now running.old running.new) }
{
    let content = Content::Broken;
    let row = route.number;
    let reply = true;
    running.state.crossings.push(Crossing {
        row,
        reply,
        content,
    })?;
    send_broken(checked, route, &mut running.hal, &mut running.frame);
    Ok(())
}

/// Where `main` stands: at its level, and it returns an `int`.
fn main_context(checked: &Checked) -> Context
    ensures { result ≡ main_context checked.now }
{
    Context {
        level: checked.levels.main,
        returns: IntKind::I32,
    }
}

/// The guarded call of a row: the caller pays, the request crosses, the callee serves it, the reply crosses.
fn guarded(
    alloc: Global,
    checked: &Checked,
    route: &Route<'_>,
    line: u32,
    running: &mut Running,
) -> Result<i128, Stop>
    requires served { IsServed checked.now }
    requires row { slice_get checked.now.gedl.rows route.now.number ≡ Some route.now.row.now }
    requires stands { Stands checked.now running.old }
    ensures step { IsStep result running.new.state (guarded (λ row. served (ran (scope_at checked.now (length checked.now.typed.functions - 1))) row.to (defined row.name checked.now.typed.program.items)) (main_context checked.now) line (route.now.number, route.now.row.now) running.old.state) }
    ensures goes { Goes checked.now running.old running.new }
{
    pay(
        main_context(checked),
        cost_of(route.row),
        line,
        &mut running.state,
    )?;
    let level = ask(alloc, checked, route, running)?;
    match serve(checked, level, asked_row(&running.frame), running) {
        Ok(n) => Ok(answer(alloc, checked, route, n, running)?),
        Err(Stop::Trapped(level, trap)) => {
            break_off(checked, route, running)?;
            Err(Stop::Trapped(level, trap))
        }
        Err(Stop::NoMemory) => Err(Stop::NoMemory),
    }
}

/// The level of `main`.
#[derive(Clone, Copy)]
pub struct Near<'a> {
    pub alloc: Global,
    pub checked: &'a Checked,
}

impl World for Near<'_> {
    ghost checked = { λ n. n.checked.now };

    ghost depth = { λ n. length n.checked.now.typed.functions };

    ghost context = { λ n. main_context n.checked.now };

    ghost fits = { λ n. IsServed n.checked.now };

    fn objects(&self) -> &[ObjFact] {
        self.checked.typed.objects.as_slice()
    }

    fn context(&self) -> Context {
        main_context(self.checked)
    }

    fn call(&self, line: u32, name: &Name, run: &mut Running) -> Result<i128, Stop> {
        let rows = self.checked.gedl.rows.as_slice();
        match route_of(rows, self.checked.levels.main, name) {
            Some(route) => guarded(self.alloc, self.checked, &route, line, run),
            None => Ok(0),
        }
    }
}
