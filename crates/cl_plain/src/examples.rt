//! Worked examples of the definitions, each a theorem.

ghost use Rattle.std.specs.Prelude.{◌≡◌, ℕ, [], ◌∷◌, ◌++◌, true, false, pos, negsuc};
ghost use Rattle.cl_tree.specs.Arithmetic.{value, apply, apply_one, letter_value};
ghost use Rattle.cl_tree.specs.Spelling.{shape};
ghost use Rattle.cl_tree.specs.Statements.{stmt_shape};
ghost use Rattle.cl_tree.specs.Items.{cut};
ghost use Rattle.cl_plain.specs.Worked.{right_first, left_first, in_a_row, on_lines, dangling_else};
ghost use Rattle.cl_plain.specs.Cutting.{name, int, pragma, semicolon, closing, begin, end, variable, head, structure, initialised};
ghost use Rattle.cl_tree.specs.declared.tree.Expr.{Expr};
ghost use Rattle.cl_tree.specs.declared.tree.Stmt.{Stmt};

use cl_tree::kinds::{BinOp, IntKind, TrapCause, UnOp};

/// A number out of range is taken into the kind by its low bits (C11 6.3.1.3): `(char)200` and
/// `(unsigned short)-1`.
#[tactic(auto, using(crate::proofs::Numbers::values))]
pub fn conversions()
    ensures to_char { value IntKind.I8 (pos 200) ≡ negsuc 55 }
    ensures to_unsigned_short { value IntKind.U16 (negsuc 0) ≡ pos 65535 }
{}

/// Division is toward zero and the remainder has the sign of the left side (C11 6.5.5): `-7 % 3`; the
/// least `int` over -1 is out of range.
#[tactic(auto, using(crate::proofs::Numbers::divisions))]
pub fn divisions()
    ensures remainder { apply BinOp.Rem IntKind.I32 (negsuc 6) (pos 3) ≡ Ok (negsuc 0) }
    ensures least_divided { apply BinOp.Div IntKind.I32 (negsuc 2147483647) (negsuc 0) ≡ Err TrapCause.Overflow }
    ensures least_remainder { apply BinOp.Rem IntKind.I32 (negsuc 2147483647) (negsuc 0) ≡ Err TrapCause.Overflow }
{}

/// A negative number is not shifted left, and to the right it is rounded down (C11 6.5.7): `-1 << 1`,
/// `-5 >> 1`; `1 << 31` is out of range.
#[tactic(auto, using(crate::proofs::Numbers::shifts))]
pub fn shifts()
    ensures negative { apply BinOp.Left IntKind.I32 (negsuc 0) (pos 1) ≡ Err TrapCause.Shift }
    ensures rounded_down { apply BinOp.Right IntKind.I32 (negsuc 4) (pos 1) ≡ Ok (negsuc 2) }
    ensures into_the_sign { apply BinOp.Left IntKind.I32 (pos 1) (pos 31) ≡ Err TrapCause.Overflow }
{}

/// An unsigned kind wraps (C11 6.2.5): `0u - 1`.
#[tactic(auto, using(crate::proofs::Numbers::wrapped))]
pub fn wraps()
    ensures { apply BinOp.Sub IntKind.U32 (pos 0) (pos 1) ≡ Ok (pos 4294967295) }
{}

/// The operators of one number (C11 6.5.3.3): `-` of the least `int` is out of range, an unsigned kind
/// wraps, `~5` is -6. `'\377'` is -1, since `char` is signed (C11 6.4.4.4).
#[tactic(auto, using(crate::proofs::Numbers::signs))]
pub fn signs()
    ensures least_negated { apply_one UnOp.Minus IntKind.I32 (negsuc 2147483647) ≡ Err TrapCause.Overflow }
    ensures unsigned_negated { apply_one UnOp.Minus IntKind.U32 (pos 1) ≡ Ok (pos 4294967295) }
    ensures flipped { apply_one UnOp.Flip IntKind.I32 (pos 5) ≡ Ok (negsuc 5) }
    ensures letter { letter_value 255 ≡ negsuc 0 }
{}

/// `-` is left associative (C11 6.5.6): `1 - 2 - 3` takes the difference of 1 and 2 first, and the other
/// order needs parentheses.
#[tactic(auto, using(crate::proofs::Differences::right_improper, crate::proofs::Differences::left_proper, crate::proofs::Differences::left_spelled))]
pub fn differences()
    ensures right_first { (line : ℕ) → (shape (right_first line)).proper ≡ false }
    ensures left_first { (line : ℕ) → (shape (left_first line)).proper ≡ true }
    ensures spelled { (line : ℕ) → (shape (left_first line)).spelling ≡ in_a_row line }
{}

/// Whether a tree is well-formed rests on no line: `1 - 2` is, on any.
#[tactic(auto, using(crate::proofs::Differences::any_lines))]
pub fn any_lines()
    ensures { (a b c d e f : ℕ) → (shape (on_lines a b c d e f)).proper ≡ true }
{}

/// An `else` belongs to the nearest `if` (C11 6.8.4.1).
#[tactic(auto, using(crate::proofs::Differences::dangling_improper))]
pub fn nearest_if()
    ensures { (line : ℕ) (c d : Expr) (a b : Stmt) → (stmt_shape (dangling_else line c d a b)).proper ≡ false }
{}

/// Where an item ends: behind the `;` of a declaration, of a prototype and of a struct, and behind the
/// `}` of a body.
#[tactic(auto, using(crate::proofs::Cuts::two_variables, crate::proofs::Cuts::body_ends, crate::proofs::Cuts::prototype_ends, crate::proofs::Cuts::structure_ends))]
pub fn item_ends()
    ensures declarations { (l m : ℕ) → cut (variable l 97 ++ variable m 98) ≡ variable l 97 ∷ variable m 98 ∷ [] }
    ensures body { (l m : ℕ) → cut (head l (begin l ∷ semicolon l ∷ end l ∷ variable m 97)) ≡ head l (begin l ∷ semicolon l ∷ end l ∷ []) ∷ variable m 97 ∷ [] }
    ensures prototype { (l m : ℕ) → cut (head l (semicolon l ∷ variable m 97)) ≡ head l (semicolon l ∷ []) ∷ variable m 97 ∷ [] }
    ensures structure { (l m : ℕ) → cut (structure l ++ variable m 98) ≡ structure l ∷ variable m 98 ∷ [] }
{}

/// Where none ends: at the braces of an initialiser or a block.
#[tactic(auto, using(crate::proofs::Cuts::initialiser_stays, crate::proofs::Cuts::block_stays))]
pub fn inner_braces()
    ensures initialiser { (l : ℕ) → cut (initialised l) ≡ initialised l ∷ [] }
    ensures block { (l : ℕ) → cut (head l (begin l ∷ begin l ∷ end l ∷ semicolon l ∷ end l ∷ [])) ≡ head l (begin l ∷ begin l ∷ end l ∷ semicolon l ∷ end l ∷ []) ∷ [] }
{}

/// A line `#pragma cle` outside brackets is an item, and ends the one before it; within brackets it ends
/// none. A `)` that closes nothing ends its item.
#[tactic(auto, using(crate::proofs::Cuts::pragma_cuts, crate::proofs::Cuts::pragma_stays, crate::proofs::Cuts::stray_cuts))]
pub fn cut_short()
    ensures outside { (l m n : ℕ) → cut (int l ∷ name l 97 ∷ pragma m ∷ semicolon n ∷ []) ≡ (int l ∷ name l 97 ∷ []) ∷ (pragma m ∷ []) ∷ (semicolon n ∷ []) ∷ [] }
    ensures within { (l m n : ℕ) → cut (head l (begin l ∷ pragma m ∷ end n ∷ [])) ≡ head l (begin l ∷ pragma m ∷ end n ∷ []) ∷ [] }
    ensures stray { (l m : ℕ) → cut (int l ∷ name l 97 ∷ closing l ∷ variable m 98) ≡ (int l ∷ name l 97 ∷ closing l ∷ []) ∷ variable m 98 ∷ [] }
{}
