//! Laws of what functions use: each is the contract of a function that does nothing.

ghost use Rattle.std.specs.Prelude.{◌≡◌, ◌≤◌, length};
ghost use Rattle.cl_tree.specs.declared.tree.Program.{Program};
ghost use Rattle.cl_mean.specs.declared.checked.Typed.{Typed};
ghost use Rattle.cl_typing.specs.Typing.{IsTyped};
ghost use Rattle.cl_levels.specs.Levels.{object_lines};
ghost use Rattle.cl_levels.specs.Uses.{uses_of};
ghost use Rattle.uses_laws.specs.Within.{numbered, BodiesWithin};

/// A typed program has the uses of each of its functions and a line for each of its objects of static
/// duration, and at most 4,096 of each; nor are more objects numbered.
pub fn each_is_counted()
    ensures functions { (program : Program) (typed : Typed) → IsTyped program typed → length (uses_of typed) ≡ length typed.functions }
    ensures objects { (program : Program) (typed : Typed) → IsTyped program typed → length (object_lines typed.program) ≡ length typed.objects }
    ensures few_functions { (program : Program) (typed : Typed) → IsTyped program typed → length typed.functions ≤ 4096 }
    ensures few_objects { (program : Program) (typed : Typed) → IsTyped program typed → length typed.objects ≤ 4096 }
    ensures few_numbered { (typed : Typed) → IsTyped typed.program typed → numbered typed ≤ 4096 }
{}

/// What is called is a function of the program, and an object that is named or lent is one of those that are
/// numbered.
pub fn uses_are_within()
    ensures { (typed : Typed) → BodiesWithin (length typed.functions) (numbered typed) (uses_of typed) }
{}
