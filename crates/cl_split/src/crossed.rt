//! A program's calls across levels, and the rules on them.

ghost use Rattle.std.specs.Prelude.{◌≡◌, [], IfOk};
ghost use Rattle.cl_labelling.specs.Labelling.{IsLabelled};
ghost use Rattle.cl_levels.specs.Crossings as crossing;
ghost use Rattle.cl_levels.specs.Placed.{Holds, listed};
ghost use Rattle.cl_split.specs.Answer.{annotated, levelled, HasLevels, RuleAnswer};
ghost use Rattle.cl_split.specs.Crossed.{program_of, IsCrossed};
ghost use Rattle.cl_split.specs.Crossed as crossed;
ghost use Rattle.cl_typing.specs.Typing.{IsTyped};

use crate::stop::SplitStop;
use cl_base::name::NoMemory;
use cl_calls::calls::{calls, crossings};
use cl_calls::cycles::cycle;
use cl_calls::entries::{no_entry, wrong_direction};
use cl_levels::uses::Call;
use cl_loans::aliases::aliased;
use cl_mean::checked::{GedlRows, Levels, Typed};
use cl_mean::labels::LabelTable;
use cl_rows::rows::rows;
use cl_rows::wide::too_wide;
use cl_scope::stop::Stop;
use cl_uses::uses::Uses;
use cl_uses::walk::uses;
use std::alloc::Global;

/// A program with its labels and levels, what its functions use, and its calls across levels.
#[derive(Drop)]
pub struct Crossed<'a> {
    typed: &'a Typed,
    labels: &'a LabelTable,
    levels: &'a Levels,
    uses: Uses,
    crossings: Vec<Call>,
}

/// What the search for the places of one rule comes to.
fn ruled(rule: u8, found: Result<(), Stop>) -> Result<(), SplitStop>
    ensures { result ≡ crossed.ruled rule found }
{
    match found {
        Ok(()) => Ok(()),
        Err(Stop::At(line)) => Err(SplitStop::Rule { rule, line }),
        Err(Stop::NoMemory) => Err(SplitStop::NoMemory),
    }
}

impl<'a> Crossed<'a> {
    pub fn of(
        alloc: Global,
        typed: &'a Typed,
        labels: &'a LabelTable,
        levels: &'a Levels,
    ) -> Result<Crossed<'a>, NoMemory>
        requires typed { IsTyped typed.now.program typed.now }
        requires labels { IsLabelled typed.now labels.now }
        requires levels { HasLevels (annotated typed.now labels.now) levels.now }
        ensures program { IfOk result (λ x. program_of x ≡ levelled typed.now labels.now levels.now) }
        ensures crossed { IfOk result (λ x. IsCrossed x) }
    {
        let uses = uses(alloc, typed)?;
        let calls = calls(alloc, uses.functions.as_slice())?;
        let crossings = crossings(alloc, levels, calls.as_slice())?;
        Ok(Crossed {
            typed,
            labels,
            levels,
            uses,
            crossings,
        })
    }

    /// E26.
    pub fn look_entries(&self) -> Result<(), SplitStop>
        requires { IsCrossed self.now }
        ensures { RuleAnswer 26 (listed (crossing.no_entry (program_of self.now))) result }
    {
        let found = no_entry(self.labels, self.levels, self.crossings.as_slice());
        ruled(26, found)
    }

    /// E27.
    pub fn look_directions(&self) -> Result<(), SplitStop>
        requires { IsCrossed self.now }
        ensures { RuleAnswer 27 (listed (crossing.wrong_direction (program_of self.now))) result }
    {
        let found = wrong_direction(self.labels, self.levels, self.crossings.as_slice());
        ruled(27, found)
    }

    /// E28.
    pub fn look_levels(&self, alloc: Global) -> Result<(), SplitStop>
        requires { IsCrossed self.now }
        ensures { RuleAnswer 28 (crossing.cycle_of_levels (program_of self.now)) result }
    {
        let found = cycle(alloc, self.levels, self.crossings.as_slice());
        ruled(28, found)
    }

    /// E29.
    pub fn look_loans(&self, alloc: Global) -> Result<(), SplitStop>
        requires { IsCrossed self.now }
        ensures { RuleAnswer 29 (crossing.aliased (annotated self.now.typed.now self.now.labels.now)) result }
    {
        let found = aliased(alloc, self.typed, self.uses.functions.as_slice());
        ruled(29, found)
    }

    /// E30.
    pub fn look_payloads(&self, alloc: Global) -> Result<(), SplitStop>
        requires { IsCrossed self.now }
        ensures { RuleAnswer 30 (listed (crossing.too_wide (program_of self.now))) result }
    {
        let found = too_wide(alloc, self.typed, self.crossings.as_slice());
        ruled(30, found)
    }

    /// The rows of a program whose calls across levels have entries and no wide payload.
    pub fn rows(&self, alloc: Global) -> Result<GedlRows, NoMemory>
        requires crossed { IsCrossed self.now }
        requires entries { Holds (listed (crossing.no_entry (program_of self.now))) }
        requires payloads { Holds (listed (crossing.too_wide (program_of self.now))) }
        ensures { IfOk result (λ r. crossing.AreRows (program_of self.now) r) }
    {
        rows(
            alloc,
            self.typed,
            self.labels,
            self.levels,
            self.crossings.as_slice(),
        )
    }
}
