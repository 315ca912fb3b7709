//! What inductions over a program take: where no rule fails in a part of a program, none fails in its own parts.

ghost use Rattle.std.specs.Prelude.{◌≡◌, []};
ghost use Rattle.cl_tree.specs.declared.tree.Expr.{Expr};
ghost use Rattle.cl_tree.specs.declared.tree.Node.{out-Node};
ghost use Rattle.cl_tree.specs.declared.tree.Stmt.{Stmt};
ghost use Rattle.cl_tree.specs.declared.tree.Act.{out-Act};
ghost use Rattle.cl_tree.specs.declared.tree.Item.{Item};
ghost use Rattle.cl_tree.specs.declared.tree.Program.{Program};
ghost use Rattle.cl_typing.specs.Rules.{AllHold};
ghost use Rattle.cl_typing.specs.Scope.{Env, defined_in};
ghost use Rattle.cl_typing.specs.Typing.{rules};
ghost use Rattle.cl_typing.specs.Unknown.{Known, expr_unknown, stmt_unknown, item_unknown};
ghost use Rattle.cl_typing.specs.Wrong.{Inside as InFunction, stmt_wrong, item_wrong};
ghost use Rattle.typing_laws.specs.Standing.{Level, ItemStands, Spot, declares, PartOf, BodyHas, result_of, ChildOf, Evaluates};
ghost use Rattle.typing_laws.specs.Typed.{HasType};

/// From a program to its items.
pub fn program_to_items()
    ensures names { (program : Program) → AllHold (rules program) → (i : Item) (level : Level) → ItemStands program i level → item_unknown (record { tags = level.tags; defined = defined_in program.items [] }) level.names i ≡ [] }
    ensures types { (program : Program) → AllHold (rules program) → (i : Item) (level : Level) → ItemStands program i level → item_wrong level.tags level.names i ≡ [] }
{}

/// From an item to the statements of its outermost block.
pub fn item_to_statements()
    ensures names { (defined : Env) (i : Item) (level : Level) → item_unknown (record { tags = level.tags; defined = defined }) level.names i ≡ [] → (s : Stmt) (spot : Spot) → BodyHas i level.names s spot → (stmt_unknown (record { tags = level.tags; defined = defined }) s).places spot.names ≡ [] }
    ensures types { (i : Item) (level : Level) → item_wrong level.tags level.names i ≡ [] → (s : Stmt) (spot : Spot) → BodyHas i level.names s spot → (stmt_wrong (record { tags = level.tags; result = result_of i }) s).places spot.names spot.in_loop ≡ [] }
{}

/// From a statement to its parts, and to what it evaluates.
pub fn statement_to_parts()
    ensures names { (known : Known) (t : Stmt) (spot : Spot) → (stmt_unknown known t).places spot.names ≡ [] → (s : Stmt) (there : Spot) → PartOf (out-Act t.node) spot s there → (stmt_unknown known s).places there.names ≡ [] }
    ensures types { (inside : InFunction) (t : Stmt) (spot : Spot) → (stmt_wrong inside t).places spot.names spot.in_loop ≡ [] → (s : Stmt) (there : Spot) → PartOf (out-Act t.node) spot s there → (stmt_wrong inside s).places there.names there.in_loop ≡ [] }
    ensures evaluated_names { (known : Known) (s : Stmt) (spot : Spot) → (stmt_unknown known s).places spot.names ≡ [] → (x : Expr) (there : Env) → Evaluates (out-Act s.node) spot x there → expr_unknown known there x ≡ [] }
    ensures evaluated_types { (inside : InFunction) (s : Stmt) (spot : Spot) → (stmt_wrong inside s).places spot.names spot.in_loop ≡ [] → (x : Expr) (there : Env) → Evaluates (out-Act s.node) spot x there → HasType inside.tags there x }
{}

/// The rules and the places speak of the same declarations of a statement.
pub fn statements_declare_alike()
    ensures names { (known : Known) (s : Stmt) → (stmt_unknown known s).declares ≡ declares s }
    ensures types { (inside : InFunction) (s : Stmt) → (stmt_wrong inside s).declares ≡ declares s }
{}

/// From an expression to its operands.
pub fn expression_to_operands()
    ensures names { (known : Known) (names : Env) (e : Expr) → expr_unknown known names e ≡ [] → (x : Expr) → ChildOf (out-Node e.node) x → expr_unknown known names x ≡ [] }
    ensures types { (tags names : Env) (e : Expr) → HasType tags names e → (x : Expr) → ChildOf (out-Node e.node) x → HasType tags names x }
{}
