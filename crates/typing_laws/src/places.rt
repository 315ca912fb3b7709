//! What stands in a program.

ghost use Rattle.std.specs.Prelude.{◌≡◌};
ghost use Rattle.cl_tree.specs.declared.tree.Expr.{Expr};
ghost use Rattle.cl_tree.specs.declared.tree.Node.{out-Node};
ghost use Rattle.cl_tree.specs.declared.tree.Stmt.{Stmt};
ghost use Rattle.cl_tree.specs.declared.tree.Act.{out-Act};
ghost use Rattle.cl_tree.specs.declared.tree.Item.{Item};
ghost use Rattle.cl_tree.specs.declared.tree.Program.{Program};
ghost use Rattle.cl_typing.specs.Scope.{Env};
ghost use Rattle.typing_laws.specs.Standing.{Level, ItemStands, Spot, PartOf, ChildOf, Evaluates, BodyHas, ItemEvaluates, StmtStands, Stands};

/// The statements of a body stand in its program, and so do the parts of a statement that stands there.
pub fn statements_stand()
    ensures outermost { (program : Program) (i : Item) (level : Level) → ItemStands program i level → (s : Stmt) (spot : Spot) → BodyHas i level.names s spot → StmtStands program i level s spot }
    ensures parts { (program : Program) (i : Item) (level : Level) (s : Stmt) (spot : Spot) → StmtStands program i level s spot → (t : Stmt) (there : Spot) → PartOf (out-Act s.node) spot t there → StmtStands program i level t there }
{}

/// What an item or a statement evaluates stands in its program, and so do the operands of an expression that stands there.
pub fn expressions_stand()
    ensures of_items { (program : Program) (i : Item) (level : Level) → ItemStands program i level → (x : Expr) (there : Env) → ItemEvaluates i level.names x there → Stands program level.tags there x }
    ensures of_statements { (program : Program) (i : Item) (level : Level) (s : Stmt) (spot : Spot) → StmtStands program i level s spot → (x : Expr) (there : Env) → Evaluates (out-Act s.node) spot x there → Stands program level.tags there x }
    ensures operands { (program : Program) (tags there : Env) (x : Expr) → Stands program tags there x → (y : Expr) → ChildOf (out-Node x.node) y → Stands program tags there y }
{}
