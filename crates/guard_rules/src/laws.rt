//! Laws of judging: each is the contract of a function that does nothing.

ghost use Rattle.std.specs.Prelude.{◌≡◌, ℤ, List, true};
ghost use Rattle.cl_mean.specs.Judging.{judge, laws_judge, is_idle};
ghost use Rattle.cl_mean.specs.Guarded.{fitted as fitted_values};
ghost use Rattle.cl_mean.specs.Value.{Labelled, bare};
ghost use Rattle.cl_tree.specs.declared.kinds.IntKind.{IntKind as IntKindValue};
ghost use Rattle.guard_rules.specs.Guards.{fitted, numbers, with_numbers};
ghost use Rattle.cl_mean.specs.declared.law.Asked.{Asked as AskedValue};
ghost use Rattle.cl_mean.specs.declared.law.Law.{Law as LawValue};
ghost use Rattle.cl_mean.specs.declared.law.Ruling.TheVariants.{Pass};

/// An idle law judges every frame to pass unchanged, and stays as it is.
pub fn idle_law_passes()
    ensures { (law : LawValue) (asked : AskedValue) (values : List ℤ) → is_idle law ≡ true → judge (λ n. n) law asked values ≡ record { ruling = Pass; law = law; values = values } }
{}

/// What is ruled of values, what the laws become, and what numbers they leave has nothing to do with the labels that the
/// values carry: laws that judge the numbers alone come to the same.
pub fn labels_do_not_matter()
    ensures { (kinds : List IntKindValue) (laws : List LawValue) (asked : AskedValue) (values : List Labelled) → laws_judge (λ n. n) (fitted kinds) laws asked (numbers values) ≡ with_numbers (laws_judge bare (fitted_values kinds) laws asked values) }
{}
