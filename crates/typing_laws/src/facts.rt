//! Laws of the facts that are kept of a program.

ghost use Rattle.std.specs.Prelude.{◌≡◌, ℕ, List, Some, slice_get};
ghost use Rattle.std.specs.List.{flat_map};
ghost use Rattle.cl_tree.specs.declared.tree.Item.{Item};
ghost use Rattle.cl_tree.specs.declared.tree.Program.{Program};
ghost use Rattle.cl_mean.specs.declared.checked.FnFact.{FnFact};
ghost use Rattle.cl_mean.specs.declared.checked.ObjFact.{ObjFact};
ghost use Rattle.cl_mean.specs.Source.{item_statics};
ghost use Rattle.cl_typing.specs.Rules.{AllHold};
ghost use Rattle.cl_typing.specs.Facts.{functions_of, objects_of};
ghost use Rattle.cl_typing.specs.Typing.{rules};
ghost use Rattle.typing_laws.specs.Standing.{OneOf};
ghost use Rattle.typing_laws.specs.Listed.{IsDefinition, IsFactOf, FactOfProgram, InOrder, Distinct, HasMain, AreObjectsOf, ObjectOfProgram, OwnerListed};

/// Each function that is defined has one fact, with the number of its item, in the order of the source; and where the rules hold no two
/// have the same name, and `main` is one of them, with the result `int` and no parameters.
pub fn functions_are_listed()
    ensures facts { (program : Program) (f : FnFact) → OneOf (functions_of program) f → FactOfProgram program f }
    ensures each { (program : Program) (k : ℕ) (i : Item) → slice_get program.items k ≡ Some i → IsDefinition i → (f : FnFact) × OneOf (functions_of program) f × (f.item ≡ k) × IsFactOf f i }
    ensures order { (program : Program) → InOrder (functions_of program) }
    ensures names { (program : Program) → AllHold (rules program) → Distinct (functions_of program) }
    ensures main { (program : Program) → AllHold (rules program) → HasMain program }
{}

/// Each object of static duration has one fact, in the order of the source; and the owner of a static local is the function of its item.
pub fn objects_are_listed()
    ensures each { (program : Program) → AreObjectsOf (objects_of program) (flat_map item_statics program.items) }
    ensures facts { (program : Program) (o : ObjFact) → OneOf (objects_of program) o → ObjectOfProgram program o }
    ensures owners { (program : Program) (o : ObjFact) → OneOf (objects_of program) o → OwnerListed program o }
{}
