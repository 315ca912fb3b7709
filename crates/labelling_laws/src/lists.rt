//! The lists of a table have an element for each function and for each object.

ghost use Rattle.std.specs.Prelude.{◌≡◌, length};
ghost use Rattle.cl_tree.specs.declared.tree.Program.{Program};
ghost use Rattle.cl_mean.specs.declared.checked.Typed.{Typed as TypedValue};
ghost use Rattle.cl_mean.specs.declared.labels.LabelTable.{LabelTable as LabelTableValue};
ghost use Rattle.cl_typing.specs.Typing.{IsTyped};
ghost use Rattle.cl_labelling.specs.Labelling.{IsLabelled};

/// A table has a label or none for each function and for each object of static duration.
pub fn lists_are_full()
    ensures functions { (typed : TypedValue) (table : LabelTableValue) → IsLabelled typed table → length table.on_functions ≡ length typed.functions }
    ensures objects { (program : Program) (typed : TypedValue) (table : LabelTableValue) → IsTyped program typed → IsLabelled typed table → length table.on_objects ≡ length typed.objects }
{}
