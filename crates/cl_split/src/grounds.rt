//! What levels are found from.

ghost use Rattle.std.specs.Prelude.{◌≡◌, codes, bytes_eq, IfOk};
ghost use Rattle.cl_typing.specs.Typing.{IsTyped};
ghost use Rattle.cl_labelling.specs.Labelling.{IsLabelled};
ghost use Rattle.cl_groups.specs.Grounds.{AreGrounds};
ghost use Rattle.cl_levels.specs.Levels.{IsLevelled, IsMainLevel, two_levels, foreign_names};
ghost use Rattle.cl_levels.specs.Placed.{listed};
ghost use Rattle.cl_levels.specs.Uses.{number_among};
ghost use Rattle.cl_split.specs.Answer.{annotated, RuleAnswer};

use crate::stop::SplitStop;
use cl_base::name::NoMemory;
use cl_groups::carried::carried;
use cl_groups::conflicts::{first_conflict, lesser};
use cl_groups::foreign;
use cl_groups::lines::function_lines;
use cl_groups::marks::{level_at, levels_of};
use cl_groups::own::Own;
use cl_mean::checked::{FnFact, Levels, Typed};
use cl_mean::labels::LabelTable;
use cl_reach::propagate::Carried;
use cl_scope::stop::Stop;
use cl_uses::uses::Uses;
use cl_uses::walk::uses;
use std::alloc::Global;

/// A program with its labels, the levels that annotations give, what functions use, and the levels that go
/// along ties.
#[derive(Drop)]
pub struct Grounds<'a> {
    typed: &'a Typed,
    labels: &'a LabelTable,
    own: Own,
    uses: Uses,
    carried: Carried,
}

/// Whether a function is `main`.
fn is_main(function: &FnFact) -> bool
    ensures { result ≡ bytes_eq function.now.name (codes "main") }
{
    let text = function.name.text();
    text == "main"
}

/// The number of `main`.
fn main_number(functions: &[FnFact]) -> Option<usize>
    ensures { result ≡ number_among functions.now (codes "main") }
{
    for (k, function) in functions.iter().enumerate() {
        if is_main(function) {
            return Some(k);
        }
    }
    None
}

impl<'a> Grounds<'a> {
    pub fn of(
        alloc: Global,
        typed: &'a Typed,
        labels: &'a LabelTable,
    ) -> Result<Grounds<'a>, NoMemory>
        requires typed { IsTyped typed.now.program typed.now }
        requires labels { IsLabelled typed.now labels.now }
        ensures typed { IfOk result (λ g. g.typed.now ≡ typed.now) }
        ensures labels { IfOk result (λ g. g.labels.now ≡ labels.now) }
        ensures grounds { IfOk result (λ g. AreGrounds (annotated typed.now labels.now) g.own g.uses.functions g.uses.lines g.carried) }
    {
        let own = Own::of(alloc, labels)?;
        let uses = uses(alloc, typed)?;
        let carried = carried(alloc, &own, uses.functions.as_slice())?;
        Ok(Grounds {
            typed,
            labels,
            own,
            uses,
            carried,
        })
    }

    /// E24.
    pub fn look_groups(&self, alloc: Global) -> Result<(), SplitStop>
        requires { AreGrounds (annotated self.now.typed.now self.now.labels.now) self.now.own self.now.uses.functions self.now.uses.lines self.now.carried }
        ensures { RuleAnswer 24 (two_levels (annotated self.now.typed.now self.now.labels.now)) result }
    {
        let functions = self.typed.functions.as_slice();
        let lines = function_lines(alloc, self.typed.program.items.as_slice(), functions)?;
        let of_functions = first_conflict(
            &self.carried,
            self.own.functions.as_slice(),
            lines.as_slice(),
            0,
        );
        let of_objects = first_conflict(
            &self.carried,
            self.own.objects.as_slice(),
            self.uses.lines.as_slice(),
            1,
        );
        match lesser(of_functions, of_objects) {
            Some(line) => Err(SplitStop::Rule { rule: 24, line }),
            None => Ok(()),
        }
    }

    /// E25.
    pub fn look_names(&self) -> Result<(), SplitStop>
        requires { AreGrounds (annotated self.now.typed.now self.now.labels.now) self.now.own self.now.uses.functions self.now.uses.lines self.now.carried }
        ensures { RuleAnswer 25 (listed (foreign_names (annotated self.now.typed.now self.now.labels.now))) result }
    {
        match foreign::look(&self.own, self.uses.functions.as_slice()) {
            Ok(()) => Ok(()),
            Err(Stop::At(line)) => Err(SplitStop::Rule { rule: 25, line }),
            Err(Stop::NoMemory) => Err(SplitStop::NoMemory),
        }
    }

    fn main_level(&self) -> u32
        requires grounds { AreGrounds (annotated self.now.typed.now self.now.labels.now) self.now.own self.now.uses.functions self.now.uses.lines self.now.carried }
        requires typed { IsTyped self.now.typed.now.program self.now.typed.now }
        ensures { IsMainLevel (annotated self.now.typed.now self.now.labels.now) result }
    {
        match main_number(self.typed.functions.as_slice()) {
            Some(k) => level_at(&self.carried, self.own.functions.as_slice(), 0, k, 0),
            None => 0,
        }
    }

    /// The levels of the program.
    pub fn levels(&self, alloc: Global) -> Result<Levels, NoMemory>
        requires grounds { AreGrounds (annotated self.now.typed.now self.now.labels.now) self.now.own self.now.uses.functions self.now.uses.lines self.now.carried }
        requires typed { IsTyped self.now.typed.now.program self.now.typed.now }
        ensures { IfOk result (λ l. IsLevelled (annotated self.now.typed.now self.now.labels.now) l) }
    {
        let main = self.main_level();
        let functions = self.typed.functions.as_slice().len();
        let objects = self.typed.objects.as_slice().len();
        let of_functions = levels_of(
            alloc,
            &self.carried,
            self.own.functions.as_slice(),
            0,
            functions,
            main,
        )?;
        let of_objects = levels_of(
            alloc,
            &self.carried,
            self.own.objects.as_slice(),
            1,
            objects,
            main,
        )?;
        Ok(Levels {
            of_functions,
            of_objects,
            main,
        })
    }
}
