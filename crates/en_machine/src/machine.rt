//! A machine over an image: it begins functions, runs so many instructions at a time, and waits for replies.

ghost use Rattle.std.specs.Prelude.{◌≡◌, ◌≢◌, ℕ, Some, IsSome, true, IfOk, slice_get};
ghost use Rattle.en_machine.specs.declared.phase.Phase.TheVariants.{Rests, Runs, Awaits};

use crate::engine::Engine;
use crate::phase::Phase;
use crate::stopped::Stopped;
use cl_base::name::NoMemory;
use en_fused::fused::Entry;
use en_fused::reading::entries;
use en_image::image::Image;
use std::alloc::Global;
use std::marker::Model;

/// A machine. Contracts see its image, its whole input, its limit of steps, where it stands and what changes while
/// it runs. `open` takes all the memory that it needs, and no later call asks for any.
#[derive(Drop)]
pub struct Machine {
    image: Image,
    input: Vec<u8>,
    steps: u64,
    phase: Phase,
    engine: Engine,
    entries: Vec<Entry>,
}

impl Model for Machine {
    ghost use Rattle.en_machine.specs.Seen as seen;

    ghost Value = { seen.Machine };

    ghost use Rattle.en_machine.specs.Alive.{machine_of, IsAlive};

    ghost view = { machine_of };

    ghost invariant = { IsAlive };
}

impl Machine {
    ghost use Rattle.en_machine.specs.Begins.{opened, started, served, resumed, blocked};
    ghost use Rattle.en_machine.specs.Life.{IsServed, fits_request, fits_reply, NeverStuck};
    ghost use Rattle.en_machine.specs.Phases.{phase_after};
    ghost use Rattle.en_machine.specs.Runs.{runs};

    /// A machine at rest.
    pub fn open(
        alloc: Global,
        image: Image,
        input: Vec<u8>,
        steps: u64,
    ) -> Result<Machine, NoMemory>
        ensures machine { IfOk result (λ m. m ≡ record { image = image; input = input.items; steps = steps; phase = Rests; state = opened image steps }) }
    {
        let engine = Engine::open(alloc, &image, steps)?;
        let entries = entries(alloc, image.code.as_slice())?;
        Ok(Machine {
            image,
            input,
            steps,
            phase: Phase::Rests,
            engine,
            entries,
        })
    }

    /// Begins `main`.
    pub fn start(&mut self)
        requires has_main { IsSome self.old.image.main }
        requires rests { self.old.phase ≢ Runs }
        ensures begun { self.new ≡ record self.old { phase = Runs; state = started self.old.image self.old.state } }
    {
        let entrance = self.image.entrance(self.image.main);
        self.engine.begin(&self.image, entrance, &[]);
        self.phase = Phase::Runs;
    }

    /// Begins the function that serves a row, with the values of a request.
    pub fn serve(&mut self, row: u32, values: &[i128])
        requires served { IsServed self.old.image row }
        requires rests { self.old.phase ≢ Runs }
        requires values { fits_request (slice_get self.old.image.payloads row) values.now ≡ true }
        ensures begun { self.new ≡ record self.old { phase = Runs; state = served self.old.image row values.now self.old.state } }
    {
        let entrance = self.image.entrance(self.image.serving(row));
        self.engine.begin(&self.image, entrance, values);
        self.phase = Phase::Runs;
    }

    /// Carries out so many instructions, or those up to the first that asks, ends or traps.
    pub fn run_for(&mut self, n: u32) -> Stopped
        requires runs { self.old.phase ≡ Runs }
        requires safe { NeverStuck self.old.image }
        ensures told { runs self.old.image self.old.input n self.old.state ≡ (Some result, self.new.state) }
        ensures stays { self.new ≡ record self.old { phase = phase_after result; state = self.new.state } }
    {
        let entries = self.entries.as_slice();
        match self
            .engine
            .run_fused(&self.image, self.input.as_slice(), entries, n)
        {
            Some(stopped) => {
                self.phase = Phase::after(stopped);
                stopped
            }
            None => unreachable!(),
        }
    }

    /// The values of the request, after `Asks`.
    pub fn asked(&self) -> &[i128]
        ensures { result.now ≡ self.now.state.values }
    {
        self.engine.values()
    }

    /// The values of the reply, or the result of `main`, after `Ended`.
    pub fn results(&self) -> &[i128]
        ensures { result.now ≡ self.now.state.values }
    {
        self.engine.values()
    }

    /// Goes on with the values of a reply.
    pub fn resume(&mut self, values: &[i128])
        requires awaits { (row : ℕ) × (self.old.phase ≡ Awaits row) × (fits_reply (slice_get self.old.image.payloads row) values.now ≡ true) }
        ensures resumed { self.new ≡ record self.old { phase = Runs; state = resumed self.old.image values.now self.old.state } }
    {
        self.engine.give(&self.image, values);
        self.phase = Phase::Runs;
    }

    /// Goes on as after a blocked call: with zeros for the result, and the request's own values in the arrays.
    pub fn resume_blocked(&mut self)
        requires awaits { (row : ℕ) × (self.old.phase ≡ Awaits row) }
        ensures resumed { (row : ℕ) → self.old.phase ≡ Awaits row → self.new ≡ record self.old { phase = Runs; state = blocked self.old.image row self.old.state } }
    {
        match self.phase {
            Phase::Awaits(row) => {
                self.engine.block(&self.image, row);
                self.phase = Phase::Runs;
            }
            Phase::Rests | Phase::Runs => unreachable!(),
        }
    }

    /// What the machine wrote.
    pub fn output(&self) -> &[u8]
        ensures { result.now ≡ self.now.state.output }
    {
        self.engine.output()
    }

    /// What the machine runs.
    pub fn image(&self) -> &Image
        ensures { result.now ≡ self.now.image }
    {
        &self.image
    }
}
