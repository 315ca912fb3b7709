//! Laws of sizes and counts.

ghost use Rattle.std.specs.Prelude.{◌≡◌, ℕ, ◌≤◌, List, [], length, true, false};
ghost use Rattle.cl_tree.specs.declared.tree.CType.{CType};
ghost use Rattle.cl_tree.specs.declared.tree.CType.TheVariants.{Array};
ghost use Rattle.cl_tree.specs.declared.tree.Declarator.{Declarator};
ghost use Rattle.cl_tree.specs.declared.tree.Declaration.{Declaration};
ghost use Rattle.cl_tree.specs.declared.tree.Stmt.{Stmt};
ghost use Rattle.cl_tree.specs.declared.tree.Act.{out-Act};
ghost use Rattle.cl_tree.specs.declared.tree.Act.TheOpen as act;
ghost use Rattle.cl_tree.specs.declared.tree.Item.{Item};
ghost use Rattle.cl_tree.specs.declared.tree.Program.{Program};
ghost use Rattle.cl_mean.specs.Source.{item_statics};
ghost use Rattle.cl_typing.specs.Rules.{AllHold};
ghost use Rattle.cl_typing.specs.Scope.{Env};
ghost use Rattle.cl_typing.specs.Sizes.{Size, size_of};
ghost use Rattle.cl_typing.specs.Facts.{functions_of, objects_of};
ghost use Rattle.cl_typing.specs.Typing.{rules};
ghost use Rattle.typing_laws.specs.Standing.{OneOf, Spot, InBody};
ghost use Rattle.typing_laws.specs.Sized.{HasSizes, BodyWithin, body_params, integers_from, structs_among, defs_among};

/// An object of static duration has at most 65,536 integers, and all of them together have at most 1,048,576.
pub fn objects_are_within()
    ensures each { (program : Program) → AllHold (rules program) → (i : Item) (sizes : List Size) → HasSizes program i sizes → (d : Declarator) → OneOf (item_statics i) d → size_of sizes d.ctype ≤ 65536 }
    ensures locals { (program : Program) → AllHold (rules program) → (i : Item) (sizes : List Size) → HasSizes program i sizes → (names : Env) (s : Stmt) (spot : Spot) → InBody i names s spot → (d : Declaration) → out-Act s.node ≡ act.Declare d → d.is_static ≡ true → (name : Declarator) → OneOf d.names name → size_of sizes name.ctype ≤ 65536 }
    ensures all { (program : Program) → AllHold (rules program) → integers_from [] program.items ≤ 1048576 }
{}

/// The parameters and the locals of a function have at most 8,192 integers together, and so each of them.
pub fn locals_are_within()
    ensures all { (program : Program) → AllHold (rules program) → (i : Item) (sizes : List Size) → HasSizes program i sizes → BodyWithin sizes 8192 i }
    ensures params { (program : Program) → AllHold (rules program) → (i : Item) (sizes : List Size) → HasSizes program i sizes → (d : Declarator) → OneOf (body_params i) d → size_of sizes d.ctype ≤ 8192 }
    ensures locals { (program : Program) → AllHold (rules program) → (i : Item) (sizes : List Size) → HasSizes program i sizes → (names : Env) (s : Stmt) (spot : Spot) → InBody i names s spot → (d : Declaration) → out-Act s.node ≡ act.Declare d → d.is_static ≡ false → (name : Declarator) → OneOf d.names name → size_of sizes name.ctype ≤ 8192 }
{}

/// There are at most 256 structs, 1,024 definitions of labels, 4,096 functions that are defined and 4,096 objects of static duration.
pub fn counts_are_within()
    ensures structs { (program : Program) → AllHold (rules program) → structs_among program.items ≤ 256 }
    ensures definitions { (program : Program) → AllHold (rules program) → defs_among program.items ≤ 1024 }
    ensures functions { (program : Program) → AllHold (rules program) → length (functions_of program) ≤ 4096 }
    ensures objects { (program : Program) → AllHold (rules program) → length (objects_of program) ≤ 4096 }
{}

/// An element of an array is no larger than the array.
pub fn elements_are_no_larger()
    ensures { (sizes : List Size) (t : CType) (n : ℕ) → 1 ≤ n → size_of sizes t ≤ size_of sizes (Array t n) }
{}
