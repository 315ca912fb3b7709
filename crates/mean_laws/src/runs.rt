//! Laws of the guarded meaning and of the plain meaning.

ghost use Rattle.std.specs.Prelude.{◌≡◌, ℕ, ◌≤◌, List, Err};
ghost use Rattle.cl_mean.specs.declared.checked.Checked.{Checked as CheckedValue};
ghost use Rattle.cl_mean.specs.declared.law.Law.{Law as LawValue};
ghost use Rattle.cl_mean.specs.Value.{Labelled};
ghost use Rattle.cl_mean.specs.State.{State};
ghost use Rattle.cl_mean.specs.Source.{Definition, Source, source_of};
ghost use Rattle.cl_mean.specs.Course.{Course, Computation, goes_to, unbounded};
ghost use Rattle.cl_mean.specs.Calls.{far, unguarded, call_at, local_call, served};
ghost use Rattle.cl_mean.specs.Guarded.{Kept, Serves, guarded, serves_at};
ghost use Rattle.cl_mean.specs.Meaning.{bound_of, guarded_run, main_course, plain_run, start_of};
ghost use Rattle.mean_laws.specs.Alike.{AtLevel, LevelsAll, Nums, SideBySide};
ghost use Rattle.mean_laws.specs.Apart.{AsksBelow, LeavesOthers, ServeSame, apart_at};
ghost use Rattle.mean_laws.specs.Runs.{IsFunctionOf, IsUnbounded, Never, NeverAsks, SameOutcome, Unmet, run_from, then_run};

/// Labels don't matter: from states that differ in labels alone, guarded runs have the same numbers, stops, crossings and order.
pub fn labels_do_not_matter()
    ensures { (checked : CheckedValue) (law : LawValue) (houses : List LawValue) (bound : ℕ) (s t : State) → LevelsAll s t → SameOutcome Never (run_from checked law houses bound s) (run_from checked law houses bound t) }
{}

/// A greater bound on rounds and calls gives the same, but where the run is stopped by the smaller one.
pub fn greater_bound_gives_the_same()
    ensures { (checked : CheckedValue) (law : LawValue) (houses : List LawValue) (least most : ℕ) (state : State) → least ≤ most → SameOutcome IsUnbounded (run_from checked law houses least state) (run_from checked law houses most state) }
{}

/// A plain run asks no other level, and forgets labels too.
pub fn plain_runs()
    ensures labels { (checked : CheckedValue) (bound : ℕ) (s t : State) → LevelsAll s t → SideBySide LevelsAll Never Nums (main_course checked (unguarded (source_of checked)) bound s) (main_course checked (unguarded (source_of checked)) bound t) }
    ensures asks { (checked : CheckedValue) (inputs : List (List ℕ)) (limit : ℕ) → NeverAsks (plain_run checked inputs limit) }
{}

/// The guarded run of a course and then a computation is that of the course, and then that of the computation from where it ended.
pub fn guarded_in_order<A, B>()
    ensures { (serves : Serves) (f : A → Computation B) (x : Course A) (g : Kept) → guarded serves (goes_to f x) g ≡ then_run (λ a now h. guarded serves (f a now) h) (guarded serves x g) }
{}

/// A level's code leaves the other levels as they are, from where it begins or goes on to where it asks or ends.
pub fn other_levels_stay()
    ensures { (source : Source) (bound : ℕ) (d : Definition) (xs ys : List Labelled) → Nums xs ys → (s t : State) → AtLevel d.level s t → LeavesOthers d.level Nums s t (served (local_call source bound (call_at source (far source) bound)) d xs s) (served (local_call source bound (call_at source (far source) bound)) d ys t) }
{}

/// The guarded run over one state and over a state for each level, which goes on from its own, come to the same, where calls between
/// levels go down in rank.
pub fn levels_apart()
    ensures { (source : Source) (bound count : ℕ) (rank : ℕ → ℕ) → ((d : Definition) → IsFunctionOf source d → (xs : List Labelled) (s : State) → AsksBelow count rank (IsFunctionOf source) d.level (served (local_call source bound (call_at source (far source) bound)) d xs s)) → (depth : ℕ) → ServeSame count rank (IsFunctionOf source) (serves_at source bound depth) (apart_at source bound depth) }
{}

/// The bound on rounds and calls, which is the steps of all levels and one more, is never met: it stops no guarded run and no plain run,
/// and under a greater bound both are the same.
pub fn bound_is_never_met()
    ensures guarded { (checked : CheckedValue) (law : LawValue) (houses : List LawValue) (inputs : List (List ℕ)) (limit : ℕ) → (guarded_run checked law houses inputs limit).result ≡ Err unbounded → ⊥ }
    ensures guarded_greater { (checked : CheckedValue) (law : LawValue) (houses : List LawValue) (inputs : List (List ℕ)) (limit most : ℕ) → bound_of checked limit ≤ most → SameOutcome Never (guarded_run checked law houses inputs limit) (run_from checked law houses most (start_of checked inputs limit)) }
    ensures plain { (checked : CheckedValue) (inputs : List (List ℕ)) (limit : ℕ) → Unmet (plain_run checked inputs limit) }
    ensures plain_greater { (checked : CheckedValue) (inputs : List (List ℕ)) (limit most : ℕ) → bound_of checked limit ≤ most → SideBySide LevelsAll Never Nums (plain_run checked inputs limit) (main_course checked (unguarded (source_of checked)) most (start_of checked inputs limit)) }
{}
