//! The types of the rules are those of the meaning.

ghost use Rattle.std.specs.Prelude.{◌≡◌, ℕ, List, ◌∷◌, Some};
ghost use Rattle.cl_tree.specs.declared.kinds.IntKind.{IntKind};
ghost use Rattle.cl_tree.specs.declared.tree.CType.{CType};
ghost use Rattle.cl_tree.specs.declared.tree.CType.TheVariants.{Integer};
ghost use Rattle.cl_tree.specs.declared.tree.Expr.{Expr};
ghost use Rattle.cl_tree.specs.declared.tree.Declarator.{Declarator};
ghost use Rattle.cl_tree.specs.declared.tree.Item.{Item};
ghost use Rattle.cl_tree.specs.Words.{Word};
ghost use Rattle.cl_mean.specs.declared.checked.Checked.{Checked as CheckedValue};
ghost use Rattle.cl_mean.specs.Shape.{Structs, shape_of};
ghost use Rattle.cl_mean.specs.Source.{Binding, Env as Bindings, Definition, function_named, source_of, known_at};
ghost use Rattle.cl_mean.specs.Course.{Computation};
ghost use Rattle.cl_mean.specs.Evaluation.{Spot, Scope, kind_of, meaning_of};
ghost use Rattle.cl_typing.specs.Rules.{AllHold};
ghost use Rattle.cl_typing.specs.Scope.{function, binding, Env, bound};
ghost use Rattle.cl_typing.specs.Facts.{objects_of};
ghost use Rattle.cl_typing.specs.Typing.{rules};
ghost use Rattle.typing_laws.specs.Standing.{Level, ItemStands, Stands};
ghost use Rattle.typing_laws.specs.Typed.{TypeIs, HasType, IsPlace};
ghost use Rattle.typing_laws.specs.Named.{NoLibrary};
ghost use Rattle.typing_laws.specs.Meant.{StructsMatch, NamesMatch, FunctionsMatch, AllMeant, DefinedByItem};

/// Where the meaning has the structs, variables and functions of an expression by the types by which they are known, it gives the
/// expression the type that the rules give it, and a place where they say that it is one.
pub fn expressions_mean_their_types()
    ensures shapes { (scope : Scope) (bindings : Bindings) (tags names : Env) → StructsMatch scope.source.structs tags → NamesMatch scope.source.structs names bindings → FunctionsMatch scope.source.structs names scope.source.functions → NoLibrary names → (e : Expr) (t : CType) → TypeIs tags names e t → AllMeant bindings scope.source.functions e → (meaning_of scope bindings e).shape ≡ shape_of scope.source.structs t }
    ensures kinds { (scope : Scope) (bindings : Bindings) (tags names : Env) → StructsMatch scope.source.structs tags → NamesMatch scope.source.structs names bindings → FunctionsMatch scope.source.structs names scope.source.functions → NoLibrary names → (e : Expr) (kind : IntKind) → TypeIs tags names e (Integer kind) → AllMeant bindings scope.source.functions e → kind_of (meaning_of scope bindings e) ≡ kind }
    ensures places { (scope : Scope) (bindings : Bindings) (tags names : Env) → StructsMatch scope.source.structs tags → NamesMatch scope.source.structs names bindings → FunctionsMatch scope.source.structs names scope.source.functions → NoLibrary names → (e : Expr) → HasType tags names e → AllMeant bindings scope.source.functions e → IsPlace tags names e → (s : Computation Spot) × ((meaning_of scope bindings e).spot ≡ Some s) }
{}

/// The meaning of a checked source has each struct, each function and each variable of the file by the type by which it is known
/// where an expression or an item stands; and so it goes on behind each local that is declared with the type of its declaration, and
/// behind the declaration of a function.
pub fn names_mean_the_same()
    ensures structs { (checked : CheckedValue) → AllHold (rules checked.typed.program) → (tags names : Env) (x : Expr) → Stands checked.typed.program tags names x → StructsMatch (source_of checked).structs tags }
    ensures functions { (checked : CheckedValue) → AllHold (rules checked.typed.program) → (tags names : Env) (x : Expr) → Stands checked.typed.program tags names x → FunctionsMatch (source_of checked).structs names (source_of checked).functions }
    ensures variables { (checked : CheckedValue) → AllHold (rules checked.typed.program) → checked.typed.objects ≡ objects_of checked.typed.program → (i : Item) (level : Level) → ItemStands checked.typed.program i level → (number : ℕ) → NamesMatch (source_of checked).structs level.names (known_at (source_of checked) number) }
    ensures behind_local { (structs : Structs) (names : Env) (bindings : Bindings) → NamesMatch structs names bindings → (d : Declarator) (b : Binding) → b.name ≡ d.name → b.shape ≡ shape_of structs d.ctype → NamesMatch structs (bound d ∷ names) (b ∷ bindings) }
    ensures behind_function { (structs : Structs) (names : Env) (bindings : Bindings) → NamesMatch structs names bindings → (name : Word) (result : CType) (types : List CType) → NamesMatch structs (binding name (function result types) ∷ names) bindings }
{}

/// A function that the meaning of a checked source finds by a name is one that an item of the source defines, with its body, its
/// result and its parameters.
pub fn functions_are_of_items()
    ensures { (checked : CheckedValue) (name : Word) (d : Definition) → function_named (source_of checked).functions name ≡ Some d → DefinedByItem (source_of checked).structs checked.typed.program name d }
{}

/// The meaning of a checked source gives each expression that stands in it the type that the rules give it, where the names of the
/// expression have a meaning, and variables have it by the types by which they are known.
pub fn checked_expressions_mean_their_types()
    ensures { (checked : CheckedValue) → AllHold (rules checked.typed.program) → (tags names : Env) (x : Expr) → Stands checked.typed.program tags names x → (scope : Scope) → scope.source ≡ source_of checked → (bindings : Bindings) → NamesMatch (source_of checked).structs names bindings → AllMeant bindings (source_of checked).functions x → (t : CType) → TypeIs tags names x t → (meaning_of scope bindings x).shape ≡ shape_of (source_of checked).structs t }
{}
