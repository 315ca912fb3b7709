//! The labels of functions and of objects fit them.

ghost use Rattle.cl_tree.specs.declared.tree.Program.{Program};
ghost use Rattle.cl_mean.specs.declared.checked.Typed.{Typed as TypedValue};
ghost use Rattle.cl_mean.specs.declared.labels.LabelTable.{LabelTable as LabelTableValue};
ghost use Rattle.cl_typing.specs.Typing.{IsTyped};
ghost use Rattle.cl_labelling.specs.Labelling.{IsLabelled};
ghost use Rattle.labelling_laws.specs.Fitting.{FunctionsFit, ObjectsFit};

/// The label of a function has taints: a list for each parameter, and a name for the result where there is one; and each field
/// that it has replaced names integers of the function's request or reply that can hold its number.
pub fn labels_fit_functions()
    ensures { (program : Program) (typed : TypedValue) (table : LabelTableValue) → IsTyped program typed → IsLabelled typed table → FunctionsFit typed table }
{}

/// The label of an object has no taints.
pub fn labels_fit_objects()
    ensures { (typed : TypedValue) (table : LabelTableValue) → IsLabelled typed table → ObjectsFit table }
{}
