//! The state of a run.

ghost use Rattle.std.specs.Prelude.{◌≡◌, ◌<◌, length, map, OnOk, OnErr, IfOk};

use crate::crossing::Crossing;
use cl_base::name::Name;
use cl_tree::kinds::IntKind;
use sqlite_items::Items;
use std::alloc::{AllocError, Global};
use std::marker::Model;

/// Where an execution stands: the level of its function, and the kind of that function's result.
#[derive(Clone, Copy, PartialEq, Eq)]
pub struct Context {
    pub level: u32,
    pub returns: IntKind,
}

/// What a run has done at one level: the bytes that it wrote, and the frame cost of the calls that it
/// made to other levels.
#[derive(Drop)]
pub struct LevelState {
    pub output: Items<u8>,
    pub cost: u32,
}

/// An object of a level: its kind and its number.
#[derive(Clone, Copy, PartialEq, Eq)]
pub struct Object {
    pub level: u32,
    pub kind: IntKind,
    pub number: i128,
}

/// The states of all levels, by the number of the level. Contracts see the list of them.
#[derive(Drop)]
pub struct LevelStates {
    levels: Vec<LevelState>,
}

impl Model for LevelStates {
    ghost use Rattle.std.specs.Prelude.{List};
    ghost use Rattle.cl_run.specs.declared.state.LevelState.{LevelState};

    ghost Value = { List LevelState };

    ghost view = { λ s. s.levels.items };
}

/// The objects of a run, by their number. Contracts see the list of them.
#[derive(Drop)]
pub struct Objects {
    objects: Vec<Object>,
}

impl Model for Objects {
    ghost use Rattle.std.specs.Prelude.{List};
    ghost use Rattle.cl_run.specs.declared.state.Object.{Object};

    ghost Value = { List Object };

    ghost view = { λ s. s.objects.items };
}

/// Everything that a run can change: the levels, the objects, and what has crossed between levels.
#[derive(Drop)]
pub struct State {
    pub levels: LevelStates,
    pub objects: Objects,
    pub crossings: Items<Crossing>,
}

impl LevelStates {
    ghost use Rattle.cl_run.specs.FormState.{silent, with_byte, with_cost};

    /// The states at the start of a run: nothing is done at any of the levels.
    pub fn start(alloc: Global, levels: &[Name]) -> Result<LevelStates, AllocError>
        ensures { IfOk result (λ s. s ≡ map (λ _. silent) levels.now) }
    {
        let levels = levels
            .iter()
            .map(|_| LevelState {
                output: Items::new(alloc),
                cost: 0,
            })
            .collect(alloc)?;
        Ok(LevelStates { levels })
    }

    pub fn as_slice(&self) -> &[LevelState]
        ensures { result.now ≡ self.now }
    {
        self.levels.as_slice()
    }

    /// Adds a byte to the output of a level.
    pub fn put(&mut self, level: usize, byte: u8) -> Result<(), AllocError>
        requires { level < length self.old }
        ensures ok { OnOk result (self.new ≡ with_byte self.old level byte) }
        ensures err { OnErr result (self.new ≡ self.old) }
    {
        let state = &mut self.levels[level];
        state.output.push(byte)
    }

    /// Sets the frame cost of a level.
    pub fn charge(&mut self, level: usize, cost: u32)
        requires { level < length self.old }
        ensures { self.new ≡ with_cost self.old level cost }
    {
        self.levels[level].cost = cost;
    }
}

impl Objects {
    ghost use Rattle.std.specs.Prelude.{◌++◌, ◌∷◌, [], ℤ, slice_set, slice_index_or};
    ghost use Rattle.cl_run.specs.declared.state.Object.{Object as ObjectValue};
    ghost use Rattle.cl_run.specs.FormState.{with_number};

    pub fn new(alloc: Global) -> Objects
        ensures { result ≡ [] }
    {
        Objects {
            objects: Vec::new(alloc),
        }
    }

    pub fn as_slice(&self) -> &[Object]
        ensures { result.now ≡ self.now }
    {
        self.objects.as_slice()
    }

    /// Adds an object behind the others.
    pub fn push(&mut self, object: Object) -> Result<(), AllocError>
        ensures ok { OnOk result (self.new ≡ self.old ++ object ∷ []) }
        ensures err { OnErr result (self.new ≡ self.old) }
    {
        self.objects.push(object)?;
        Ok(())
    }

    /// Gives an object a number.
    pub fn set(&mut self, place: usize, number: i128)
        requires { place < length self.old }
        ensures { self.new ≡ with_number self.old place number }
    {
        self.objects[place].number = number;
    }
}
