//! Laws of names.

ghost use Rattle.std.specs.Prelude.{◌≡◌, [], true, Some, None};
ghost use Rattle.cl_tree.specs.declared.tree.Expr.{Expr};
ghost use Rattle.cl_tree.specs.declared.tree.Node.{out-Node};
ghost use Rattle.cl_tree.specs.declared.tree.Stmt.{Stmt};
ghost use Rattle.cl_tree.specs.declared.tree.Item.{Item};
ghost use Rattle.cl_tree.specs.declared.tree.Program.{Program};
ghost use Rattle.cl_tree.specs.Words.{Word};
ghost use Rattle.cl_typing.specs.Rules.{AllHold};
ghost use Rattle.cl_typing.specs.Scope.{Entry, Env, meaning, is_library};
ghost use Rattle.cl_typing.specs.Typing.{rules};
ghost use Rattle.typing_laws.specs.Standing.{Level, ItemStands, Spot, declares, StmtStands, Stands};
ghost use Rattle.typing_laws.specs.Named.{EntryKnown, NamesKnow, ItemKnows, Resolves};

/// Every name resolves, wherever an expression stands: a variable is one that is known there, and a function that is called is known
/// there and defined, with the same result and parameters, or it is `getchar`.
pub fn every_name_resolves()
    ensures { (program : Program) → AllHold (rules program) → (tags names : Env) (x : Expr) → Stands program tags names x → Resolves program tags names (out-Node x.node) }
{}

/// Every struct that a type names is known, with its members: the types of what is known where an expression stands, those that an
/// item writes, and those that a statement declares.
pub fn every_tag_resolves()
    ensures known { (program : Program) → AllHold (rules program) → (tags names : Env) (x : Expr) → Stands program tags names x → (name : Word) (entry : Entry) → meaning names name ≡ Some entry → EntryKnown tags entry }
    ensures items { (program : Program) → AllHold (rules program) → (i : Item) (level : Level) → ItemStands program i level → ItemKnows level.tags i }
    ensures statements { (program : Program) → AllHold (rules program) → (i : Item) (level : Level) (s : Stmt) (spot : Spot) → StmtStands program i level s spot → NamesKnow level.tags (declares s) }
{}

/// The names of the library's three functions mean nothing else, wherever an expression stands.
pub fn library_names_are_free()
    ensures { (program : Program) → AllHold (rules program) → (tags names : Env) (x : Expr) → Stands program tags names x → (name : Word) → is_library name ≡ true → meaning names name ≡ None }
{}
