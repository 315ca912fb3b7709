//! Laws of courses.

ghost use Rattle.std.specs.Prelude.{◌≡◌};
ghost use Rattle.cl_mean.specs.State.{State};
ghost use Rattle.cl_mean.specs.Course.{Course, Computation, goes_to, pure};

/// Courses are put together in order, however they are grouped, and the computation that gives its result and does nothing is the unit.
pub fn in_order<A, B, C>()
    ensures first { (a : A) (f : A → Computation B) (state : State) → goes_to f (pure a state) ≡ f a state }
    ensures last { (x : Course A) → goes_to pure x ≡ x }
    ensures grouped { (x : Course A) (f : A → Computation B) (g : B → Computation C) → goes_to g (goes_to f x) ≡ goes_to (λ a now. goes_to g (f a now)) x }
{}
