//! Where a walk stands.

ghost use Rattle.std.specs.Prelude.{◌≡◌, ◌-◌, length, drop, OnOk};
ghost use Rattle.cl_levels.specs.Uses.{no_names, variable_of, with_local, with_static};
ghost use Rattle.cl_uses.specs.Spots.{left_to, in_function};

use cl_base::name::{Name, NoMemory};
use cl_levels::uses::Variable;
use cl_uses::table::Table;
use std::alloc::Global;
use std::marker::Model;

/// The variables that are known, the locals of the function so far, and the objects of static duration
/// of the program so far, each by its name. Contracts see the known variables and both counts.
#[derive(Drop)]
pub struct Spot<'a> {
    alloc: Global,
    table: Table<'a>,
    locals: Vec<&'a Name>,
    statics: Vec<&'a Name>,
}

impl<'a> Model for Spot<'a> {
    ghost use Rattle.std.specs.Prelude.{length};
    ghost use Rattle.std.specs.Coded.{codes};
    ghost use Rattle.cl_levels.specs.Uses.{Names};
    ghost use Rattle.cl_levels.specs.contracts.uses.Variable as v;

    ghost Value = { Names };

    ghost coded = { Prim.hlevel (codes, v.the_row.coded) };

    ghost view = { λ s. record { known = s.table; locals = length s.locals.items; statics = length s.statics.items } };
}

impl<'a> Spot<'a> {
    /// The start of a program.
    pub fn new(alloc: Global) -> Spot<'a>
        ensures { result ≡ no_names }
    {
        Spot {
            alloc,
            table: Table::new(alloc),
            locals: Vec::new(alloc),
            statics: Vec::new(alloc),
        }
    }

    /// The variable that a name means.
    pub fn find(&self, name: &Name) -> Option<Variable>
        ensures { result ≡ variable_of self.now.known name.now }
    {
        self.table.find(name)
    }

    /// How many variables are known.
    pub fn len(&self) -> usize
        ensures { result ≡ length self.now.known }
    {
        self.table.len()
    }

    /// How many parameters and locals the function has so far.
    pub fn locals(&self) -> usize
        ensures { result ≡ self.now.locals }
    {
        self.locals.len()
    }

    /// Leaves the scopes that were entered when `start` variables were known.
    pub fn leave(&mut self, start: usize)
        ensures { self.new ≡ left_to start self.old }
    {
        self.table.leave(start);
    }

    /// Enters a function, which has no locals yet.
    pub fn enter(&mut self)
        ensures { self.new ≡ in_function self.old }
    {
        self.locals = Vec::new(self.alloc);
    }

    /// A parameter or a local becomes known.
    pub fn bind_local(&mut self, name: &'a Name) -> Result<(), NoMemory>
        ensures { OnOk result (self.new ≡ with_local name.now self.old) }
    {
        self.table.bind(name, Variable::Local(self.locals.len()))?;
        self.locals.push(name)?;
        Ok(())
    }

    /// An object of static duration becomes known.
    pub fn bind_static(&mut self, name: &'a Name) -> Result<(), NoMemory>
        ensures { OnOk result (self.new ≡ with_static name.now self.old) }
    {
        self.table.bind(name, Variable::Static(self.statics.len()))?;
        self.statics.push(name)?;
        Ok(())
    }
}
