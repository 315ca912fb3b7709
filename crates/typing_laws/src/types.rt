//! Laws of types.

ghost use Rattle.std.specs.Prelude.{◌≡◌, List, length, Some, codes};
ghost use Rattle.cl_tree.specs.declared.tree.CType.{CType};
ghost use Rattle.cl_tree.specs.declared.tree.Expr.{Expr};
ghost use Rattle.cl_tree.specs.declared.tree.Node.{out-Node};
ghost use Rattle.cl_tree.specs.declared.tree.Node.TheOpen as node;
ghost use Rattle.cl_tree.specs.declared.tree.Stmt.{Stmt};
ghost use Rattle.cl_tree.specs.declared.tree.Act.{out-Act};
ghost use Rattle.cl_tree.specs.declared.tree.Act.TheOpen as act;
ghost use Rattle.cl_tree.specs.declared.tree.Item.{Item};
ghost use Rattle.cl_tree.specs.declared.tree.Program.{Program};
ghost use Rattle.cl_tree.specs.Words.{Word};
ghost use Rattle.cl_typing.specs.Rules.{AllHold};
ghost use Rattle.cl_typing.specs.Scope.{function, Env, meaning};
ghost use Rattle.cl_typing.specs.Typing.{rules};
ghost use Rattle.typing_laws.specs.Standing.{Level, ItemStands, Spot, result_of, StmtStands, Stands};
ghost use Rattle.typing_laws.specs.Typed.{TypeIs, HasType, ArgumentsFit, NodeIs, ActFits, ItemFits, PrintfFits};

/// Every expression that stands in the program has a type.
pub fn every_expression_has_a_type()
    ensures { (program : Program) → AllHold (rules program) → (tags names : Env) (x : Expr) → Stands program tags names x → HasType tags names x }
{}

/// An expression that has a type has operands whose types its operator takes, and its type comes from theirs.
pub fn types_come_from_operands()
    ensures { (tags names : Env) (x : Expr) (t : CType) → TypeIs tags names x t → NodeIs tags names (out-Node x.node) t }
{}

/// The expressions of a statement have the types that it asks for, and `break` and `continue` stand in loops.
pub fn every_statement_fits()
    ensures { (program : Program) → AllHold (rules program) → (i : Item) (level : Level) (s : Stmt) (spot : Spot) → StmtStands program i level s spot → ActFits level.tags (result_of i) (out-Act s.node) spot }
{}

/// The types that an item declares are those of objects and results, and its initialisers fit.
pub fn every_item_fits()
    ensures { (program : Program) → AllHold (rules program) → (i : Item) (level : Level) → ItemStands program i level → ItemFits i level }
{}

/// A call of a function has as many arguments as parameters, each of which fits its parameter, and `main` isn't called.
pub fn every_call_fits()
    ensures count { (program : Program) → AllHold (rules program) → (tags names : Env) (x : Expr) → Stands program tags names x → (name : Word) (arguments : List Expr) → out-Node x.node ≡ node.Call name arguments → (result : CType) (types : List CType) → meaning names name ≡ Some (function result types) → length arguments ≡ length types }
    ensures each { (program : Program) → AllHold (rules program) → (tags names : Env) (x : Expr) → Stands program tags names x → (name : Word) (arguments : List Expr) → out-Node x.node ≡ node.Call name arguments → (result : CType) (types : List CType) → meaning names name ≡ Some (function result types) → ArgumentsFit tags names types arguments }
    ensures main { (program : Program) → AllHold (rules program) → (tags names : Env) (x : Expr) → Stands program tags names x → (arguments : List Expr) → out-Node x.node ≡ node.Call (codes "main") arguments → ⊥ }
{}

/// A call of `printf` has a literal format with as many conversions as arguments, and each argument is of the kind that its conversion
/// takes.
pub fn every_format_fits()
    ensures { (program : Program) → AllHold (rules program) → (i : Item) (level : Level) (s : Stmt) (spot : Spot) → StmtStands program i level s spot → (e : Expr) (arguments : List Expr) → out-Act s.node ≡ act.Call e → out-Node e.node ≡ node.Call (codes "printf") arguments → PrintfFits level.tags spot.names arguments }
{}
