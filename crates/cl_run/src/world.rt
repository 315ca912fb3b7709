//! Where code runs, and what a call does there.

ghost use Rattle.std.specs.Prelude.{◌≡◌, ◌<◌, ℕ, length};
ghost use Rattle.cl_run.specs.FormCalls.{call_at};
ghost use Rattle.cl_mean.specs.declared.checked.Checked.{Checked as CheckedValue};
ghost use Rattle.cl_run.specs.declared.state.Context.{Context as ContextValue};
ghost use Rattle.cl_run.specs.Steps.{IsStep, Stands, Goes};

use crate::running::Running;
use crate::state::Context;
use crate::stop::Stop;
use cl_base::name::Name;
use cl_mean::checked::ObjFact;

/// Where code runs, and what a call does there.
pub trait World {
    // The source that runs, and how deep calls may nest from here.
    ghost checked: { Self → CheckedValue };

    ghost depth: { Self → ℕ };

    ghost context: { Self → ContextValue };

    // What the code that runs here relies on.
    ghost fits: { Self → Type 0 };

    /// The objects of static duration.
    fn objects(&self) -> &[ObjFact]
        ensures { result.now ≡ (checked self.now).typed.objects };

    fn context(&self) -> Context
        ensures { result ≡ context self.now };

    /// The call of a function without arguments, at a line.
    fn call(&self, line: u32, name: &Name, run: &mut Running) -> Result<i128, Stop>
        requires fits { fits self.now }
        requires stands { Stands (checked self.now) run.old }
        ensures step { IsStep result run.new.state (call_at (checked self.now) (depth self.now) (context self.now) line name.now run.old.state) }
        ensures goes { Goes (checked self.now) run.old run.new };
}
