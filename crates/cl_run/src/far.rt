//! The level of a function that is called from another level.

ghost use Rattle.std.specs.Prelude.{◌≡◌, ◌≢◌, ◌<◌, ◌≤◌, ◌-◌, ◌/◌, length, IfSome, slice_get};
ghost use Rattle.rpc_codec.specs.Frames.{IsHeader};
ghost use Rattle.rpc_codec.specs.declared.frame.Header.{Header as HeaderValue};
ghost use Rattle.cl_run.specs.FormCalls.{defined, scope_at, served};
ghost use Rattle.cl_run.specs.FormExecution.{run as ran};
ghost use Rattle.cl_run.specs.Runs.{IsServed};
ghost use Rattle.cl_run.specs.Steps.{IsStep, Stands, Goes};

use crate::calls::defined;
use crate::evaluate::in_turn;
use crate::exchange::asked_row;
use crate::flow::Flow;
use crate::running::Running;
use crate::state::Context;
use crate::stop::Stop;
use crate::world::World;
use cl_base::name::Name;
use cl_mean::checked::{Checked, ObjFact};
use cl_mean::outcome::Trap;
use cl_tree::kinds::{IntKind, TrapCause};

/// Another level than that of `main`. No row of calls begins there.
#[derive(Clone, Copy)]
pub struct Far<'a> {
    checked: &'a Checked,
    level: u32,
    returns: IntKind,
}

impl World for Far<'_> {
    ghost checked = { λ f. f.checked.now };

    ghost depth = { λ f. length f.checked.now.typed.functions - 1 };

    ghost context = { λ f. record { level = f.level; returns = f.returns } };

    ghost fits = { λ f. IsServed f.checked.now × (f.level ≢ f.checked.now.levels.main) };

    fn objects(&self) -> &[ObjFact] {
        self.checked.typed.objects.as_slice()
    }

    fn context(&self) -> Context {
        Context {
            level: self.level,
            returns: self.returns,
        }
    }

    fn call(&self, _line: u32, _name: &Name, _run: &mut Running) -> Result<i128, Stop> {
        // No row begins here, so nothing is said of this call yet.
        Ok(0)
    }
}

/// Serves the request that came to a level: the body of the function of its row runs there.
pub fn serve(
    checked: &Checked,
    level: u32,
    number: u32,
    running: &mut Running,
) -> Result<i128, Stop>
    requires served { IsServed checked.now }
    requires other { level ≢ checked.now.levels.main }
    requires level { level < length checked.now.labels.levels }
    requires row { number < length checked.now.gedl.rows }
    requires stands { Stands checked.now running.old }
    ensures step { IfSome (slice_get checked.now.gedl.rows number) (λ row. IsStep result running.new.state (served (ran (scope_at checked.now (length checked.now.typed.functions - 1))) level (defined row.name checked.now.typed.program.items) running.old.state)) }
    ensures goes { Goes checked.now running.old running.new }
{
    let row = &checked.gedl.rows.as_slice()[number as usize];
    let items = checked.typed.program.items.as_slice();
    let Some(body) = defined(row.name.text(), items) else {
        return Ok(0);
    };
    let far = Far {
        checked,
        level,
        returns: body.returns,
    };
    match in_turn(&far, body.statements, running)? {
        Flow::Returns(n) => Ok(n),
        Flow::GoesOn => {
            let cause = TrapCause::Return;
            let line = body.line;
            Err(Stop::Trapped(level, Trap { cause, line }))
        }
    }
}
