//! How much work is left of a machine: a bound on the instructions that it still carries out.

ghost use Rattle.std.specs.Prelude.{◌≡◌, ◌≢◌, ◌+◌, ◌*◌, ◌<◌, ◌≤◌, ℕ, ℤ, List, Some, length, slice_get};
ghost use Rattle.en_image.specs.declared.image.Image.{Image};
ghost use Rattle.en_machine.specs.declared.phase.Phase.{Phase};
ghost use Rattle.en_machine.specs.declared.phase.Phase.TheVariants.{Runs, Awaits};
ghost use Rattle.en_machine.specs.declared.stopped.Stopped.{Stopped};
ghost use Rattle.en_machine.specs.declared.stopped.Stopped.TheVariants.{Spent};
ghost use Rattle.en_machine.specs.Steps.{Running, step};
ghost use Rattle.en_machine.specs.Runs.{runs};
ghost use Rattle.en_machine.specs.Begins.{started, served, resumed, blocked};
ghost use Rattle.en_machine.specs.Phases.{phase_after};
ghost use Rattle.en_image.specs.Entrances.{joined, entrance_at};
ghost use Rattle.machine_laws.specs.Left.{work_left, AllFall, CanBegin};

/// Each instruction lowers the work that is left, if each jump goes on in the code or back to where a step is counted.
#[tactic(auto, using(crate::proofs::Lowers::step_lowers))]
pub fn instruction_lowers()
    ensures { (i : Image) (input : List ℕ) (m to : Running) (a : Stopped) → AllFall i.code → step i input m ≡ (Some a, to) → work_left i (phase_after a) to < work_left i Runs m }
{}

/// So a run that is spent lowers it by the number of its instructions, and every other run by one at least.
#[tactic(auto, using(crate::proofs::Lowers::spent_lowers, crate::proofs::Lowers::run_lowers))]
pub fn run_lowers()
    ensures spent { (i : Image) (input : List ℕ) (n : ℕ) (m to : Running) → AllFall i.code → runs i input n m ≡ (Some Spent, to) → work_left i Runs to + n ≤ work_left i Runs m }
    ensures other { (i : Image) (input : List ℕ) (n : ℕ) (m to : Running) (a : Stopped) → AllFall i.code → a ≢ Spent → runs i input n m ≡ (Some a, to) → work_left i (phase_after a) to < work_left i Runs m }
{}

/// There is at most the code's length for each step that is left, for each active call, and once more.
#[tactic(auto, using(crate::proofs::Lowers::work_bound))]
pub fn work_is_bounded()
    ensures { (i : Image) (p : Phase) (m : Running) → work_left i p m ≤ length i.code * (m.left + length m.callers + 1) }
{}

/// A function that can begin raises it by at most the code's length, and a reply or a blocked call not at all.
#[tactic(auto, using(crate::proofs::Raises::start_raises, crate::proofs::Raises::serve_raises, crate::proofs::Raises::resume_stays, crate::proofs::Raises::block_stays))]
pub fn beginnings_raise()
    ensures start { (i : Image) (p : Phase) (m : Running) → CanBegin (entrance_at i i.main) 0 → work_left i Runs (started i m) ≤ work_left i p m + length i.code }
    ensures serve { (i : Image) (p : Phase) (m : Running) (row : ℕ) (values : List ℤ) → CanBegin (entrance_at i (joined (slice_get i.rows row))) (length values) → work_left i Runs (served i row values m) ≤ work_left i p m + length i.code }
    ensures resume { (i : Image) (m : Running) (row : ℕ) (values : List ℤ) → work_left i Runs (resumed i values m) ≤ work_left i (Awaits row) m }
    ensures block { (i : Image) (m : Running) (row : ℕ) → work_left i Runs (blocked i row m) ≤ work_left i (Awaits row) m }
{}
