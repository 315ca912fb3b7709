//! The numbers of a table of labels are those of something that it has.

ghost use Rattle.std.specs.Prelude.{◌≤◌, length, All};
ghost use Rattle.cl_mean.specs.declared.checked.Typed.{Typed as TypedValue};
ghost use Rattle.cl_mean.specs.declared.labels.LabelTable.{LabelTable as LabelTableValue};
ghost use Rattle.cl_labelling.specs.Labelling.{IsLabelled};
ghost use Rattle.labelling_laws.specs.Within.{LabelWithin, MaybeWithin};

/// A table has at most 32 levels. The level of each of its labels, the levels that it has entries for and what its taint
/// lists name are of the table; and so are the labels of functions and of objects.
pub fn numbers_are_within()
    ensures levels { (typed : TypedValue) (table : LabelTableValue) → IsLabelled typed table → length table.levels ≤ 32 }
    ensures labels { (typed : TypedValue) (table : LabelTableValue) → IsLabelled typed table → All (LabelWithin table) table.labels }
    ensures functions { (typed : TypedValue) (table : LabelTableValue) → IsLabelled typed table → All (MaybeWithin table) table.on_functions }
    ensures objects { (typed : TypedValue) (table : LabelTableValue) → IsLabelled typed table → All (MaybeWithin table) table.on_objects }
{}
