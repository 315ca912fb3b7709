//! Laws of the local run of a level.

ghost use Rattle.std.specs.Prelude.{◌≡◌, ℕ, List, [], ◌∷◌, ◌++◌, true, false};
ghost use Rattle.cl_mean.specs.declared.checked.Checked.{Checked as CheckedValue};
ghost use Rattle.cl_mean.specs.State.{State};
ghost use Rattle.cl_mean.specs.Source.{source_of, is_main_at};
ghost use Rattle.cl_mean.specs.Calls.{far};
ghost use Rattle.cl_mean.specs.Meaning.{bound_of, main_course, start_of};
ghost use Rattle.cl_mean.specs.Journal.{Frame};
ghost use Rattle.cl_mean.specs.LocalRun.{LevelRun, acted, input_only, level_run, output_at};
ghost use Rattle.mean_laws.specs.Alike.{AtLevel};
ghost use Rattle.mean_laws.specs.Runs.{Adds, IsOver, SameLocal, StandsUnmet, Unmet, local_from};

/// One frame more is one step more.
pub fn one_frame_more()
    ensures { (checked : CheckedValue) (level : ℕ) (input : List ℕ) (limit : ℕ) (xs : List Frame) (x : Frame) → level_run checked level input limit (xs ++ x ∷ []) ≡ acted (source_of checked) (bound_of checked limit) level (level_run checked level input limit xs) x }
{}

/// A level that is over stays as it is.
pub fn over_stays()
    ensures { (checked : CheckedValue) (level : ℕ) (input : List ℕ) (limit : ℕ) (xs : List Frame) (x : Frame) → IsOver (level_run checked level input limit xs) → level_run checked level input limit (xs ++ x ∷ []) ≡ level_run checked level input limit xs }
{}

/// A frame adds nothing to what a level sent, or one frame of the next turn; in answer to a stop frame it adds nothing.
pub fn turns_grow()
    ensures { (checked : CheckedValue) (level : ℕ) (input : List ℕ) (limit : ℕ) (xs : List Frame) (x : Frame) → Adds x.turn x.said (level_run checked level input limit xs).sent (level_run checked level input limit (xs ++ x ∷ [])).sent }
{}

/// Before the first frame the level of `main` has sent one frame, of turn 1, and any other level none.
pub fn before_the_first_frame()
    ensures others { (checked : CheckedValue) (level : ℕ) (input : List ℕ) (limit : ℕ) → is_main_at (source_of checked) level ≡ false → (level_run checked level input limit []).sent ≡ [] }
    ensures main { (checked : CheckedValue) (level : ℕ) (input : List ℕ) (limit : ℕ) → is_main_at (source_of checked) level ≡ true → (f : Frame) × (f.turn ≡ 1) × ((level_run checked level input limit []).sent ≡ f ∷ []) }
{}

/// Locality: from two states in which the level is the same but for labels, whatever the other levels are and whatever frames
/// come, it sends the same frames, meets the same ends and has the same output.
pub fn own_level_alone()
    ensures run { (checked : CheckedValue) (level limit : ℕ) (s t : State) → AtLevel level s t → (frames : List Frame) → SameLocal level (local_from checked level limit s frames) (local_from checked level limit t frames) }
    ensures output { (level : ℕ) (l m : LevelRun) → SameLocal level l m → output_at level l ≡ output_at level m }
{}

/// No course that a level may follow in its own run is stopped by the bound on rounds and calls: neither that of `main` nor, whatever
/// frames it received, what it does in answer to any request or reply.
pub fn own_bound_is_never_met()
    ensures main { (checked : CheckedValue) (level : ℕ) (input : List ℕ) (limit : ℕ) → Unmet (main_course checked (far (source_of checked)) (bound_of checked limit) (start_of checked (input_only level input) limit)) }
    ensures frames { (checked : CheckedValue) (level : ℕ) (input : List ℕ) (limit : ℕ) (frames : List Frame) → StandsUnmet (source_of checked) (bound_of checked limit) (level_run checked level input limit frames).stand }
{}
