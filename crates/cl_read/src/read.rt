//! From the bytes of a source to its program.

ghost use Rattle.std.specs.Prelude.{◌≡◌, ◌⊎◌, ℕ, ◌≤◌, List, length, IfOk, IfErr, MatchResult};
ghost use Rattle.cl_base.specs.declared.limits.TheConstants.{SOURCE_BYTES};
ghost use Rattle.cl_tree.specs.declared.tree.Program.{Program as ProgramValue};
ghost use Rattle.cl_read.specs.Source.{ReadsWithin, FailsFirst, HasProgram, HasFailure};
ghost use Rattle.cl_read.specs.Answer.{IsFailure};

use crate::stop::ReadStop;
use cl_lex::lex::lex;
use cl_parse::reader::parse;
use cl_tree::tree::Program;
use std::alloc::Global;

/// The program that the bytes of a source spell (C11 5.1.1.2, 6.4 and 6.9, as far as the profile goes).
/// It is refused by the first lexical rule that it breaks (E02 to E05 and E07), at the line of its first
/// failing place; else by E23 or E06, at the line that the reader names.
pub fn read_source(alloc: Global, bytes: &[u8]) -> Result<Program, ReadStop>
    requires { length bytes.now ≤ SOURCE_BYTES }
    // What is read is what the bytes spell, within the limits.
    ensures found { IfOk result (λ p. ReadsWithin bytes.now p) }
    // What the bytes spell is read, unless memory runs out.
    ensures only { (p : ProgramValue) → ReadsWithin bytes.now p → MatchResult result (λ x. x ≡ p) (λ e. e ≡ ReadStop.NoMemory) }
    // A refusal names the first rule that fails, and its line.
    ensures fails { IfErr result (λ e. IsFailure bytes.now e) }
    // Where a rule fails there is no program, and the refusal names that rule.
    ensures rule { (rule line : ℕ) → FailsFirst bytes.now rule line → MatchResult result (λ _. ⊥) (λ e. (e ≡ ReadStop.Refused rule line) ⊎ (e ≡ ReadStop.NoMemory)) }
{
    let tokens = lex(alloc, bytes)?;
    Ok(parse(alloc, tokens.as_slice())?)
}

/// No source is two programs.
pub fn one_reading()
    ensures { (source : List ℕ) (p q : ProgramValue) → ReadsWithin source p → ReadsWithin source q → p ≡ q }
{}

/// A law: each source has a program or a rule that fails first, and not both; and no source fails in two ways.
pub fn one_answer()
    ensures some { (source : List ℕ) → HasProgram source ⊎ HasFailure source }
    ensures not_both { (source : List ℕ) → HasProgram source → HasFailure source → ⊥ }
    ensures one_failure { (source : List ℕ) (rule line r l : ℕ) → FailsFirst source rule line → FailsFirst source r l → (rule ≡ r) × (line ≡ l) }
{}
