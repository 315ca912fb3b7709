//! Worked examples of the tokens of a source, each a theorem.

ghost use Rattle.std.specs.Prelude.{◌∷◌, [], codes};
ghost use Rattle.cl_tree.specs.Tokens.{AreTokens, LexFails};
ghost use Rattle.cl_lex.specs.Worked.{sum, literals, over_lines, apart, three, one_string, label};

/// The longest piece is taken (C11 6.4): `a+++b` is `a ++ + b`.
#[tactic(auto, using(crate::proofs::Worked::sum_is))]
pub fn longest_first()
    ensures { AreTokens (codes "a+++b") sum }
{}

/// Each literal is one piece; `'\377'` holds the byte 255.
#[tactic(auto, using(crate::proofs::Worked::literals_are))]
pub fn whole_literals()
    ensures { AreTokens (codes "0x1f 1.5e+3 '\\377'") literals }
{}

/// A join inside a name is removed first (C11 5.1.1.2), and a comment stands between two names as a blank does.
#[tactic(auto, using(crate::proofs::Worked::join_is, crate::proofs::Worked::comment_is))]
pub fn names()
    ensures join { AreTokens (codes "a\\\nb") over_lines }
    ensures comment { AreTokens (codes "a/* x */b") apart }
{}

/// Behind its `#define` a name is its literal.
#[tactic(auto, using(crate::proofs::Worked::defined_is))]
pub fn defined_name()
    ensures { AreTokens (codes "#define N 3\nN") three }
{}

/// Strings that follow each other are one (C11 5.1.1.2, phase 6).
#[tactic(auto, using(crate::proofs::Worked::strings_are))]
pub fn side_by_side()
    ensures { AreTokens (codes "\"a\" \"b\"") one_string }
{}

/// A label's text goes to the end of its line, without the blanks at its ends.
#[tactic(auto, using(crate::proofs::Worked::label_is))]
pub fn label_text()
    ensures { AreTokens (codes "#pragma cle def P\t{ }\t") label }
{}

/// The rules, each at its first failing place.
#[tactic(auto, using(crate::proofs::Worked::failures))]
pub fn refusals()
    ensures byte { LexFails (7 ∷ []) 2 1 }
    ensures sign { LexFails (codes "a\n@") 3 2 }
    ensures string { LexFails (codes "\"x") 4 1 }
    ensures directive { LexFails (codes "#if 1") 5 1 }
    ensures escape { LexFails (codes "'\\777'") 7 1 }
{}
