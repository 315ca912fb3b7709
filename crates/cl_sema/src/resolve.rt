//! Names, types and sizes of a program.

ghost use Rattle.std.specs.Prelude.{◌≡◌, ◌⊎◌, ℕ, IfOk, IfErr, MatchResult};
ghost use Rattle.cl_tree.specs.declared.tree.Program.{Program as ProgramValue};
ghost use Rattle.cl_mean.specs.declared.checked.Typed.{Typed as TypedValue};
ghost use Rattle.cl_typing.specs.Typing.{rules, IsTyped, TypingFails};
ghost use Rattle.cl_sema.specs.Answer.{IsFailure, TypedAnswer, HasTyping, HasFailure};

use crate::facts::{functions_of, objects_of};
use crate::rules::look_all;
use crate::stop::SemaStop;
use cl_mean::checked::Typed;
use cl_tree::tree::Program;
use std::alloc::Global;

fn type_program(alloc: Global, program: Program) -> Result<Typed, SemaStop>
    ensures { TypedAnswer program result }
{
    look_all(alloc, &program)?;
    let functions = functions_of(alloc, &program)?;
    let objects = objects_of(alloc, &program)?;
    Ok(Typed {
        program,
        functions,
        objects,
    })
}

/// Looks at the rules E08, E09, E19, E18, E20, E21 and E22 in this order, and gives the program with its
/// functions and its objects of static duration. On a refusal the program is given up.
///
/// # Errors
///
/// The first rule that fails, with the line of its first place; or want of memory, with which a program of 2^32
/// items or functions ends too, since facts keep their numbers in 32 bits.
pub fn resolve(alloc: Global, program: Program) -> Result<Typed, SemaStop>
    // What is answered is the typed program, and no rule fails.
    ensures found { IfOk result (λ t. IsTyped program t) }
    // What has a typing is typed so, unless memory runs out.
    ensures only { (t : TypedValue) → IsTyped program t → MatchResult result (λ x. x ≡ t)
        (λ e. e ≡ SemaStop.NoMemory) }
    // A refusal names the first rule that fails, and its first place.
    ensures fails { IfErr result (λ e. IsFailure (rules program) e) }
    // Where a rule fails, the refusal names the first one and its first place.
    ensures rule { (rule line : ℕ) → TypingFails program rule line
        → MatchResult result (λ _. ⊥) (λ e. (e ≡ SemaStop.Rule rule line) ⊎ (e ≡ SemaStop.NoMemory)) }
{
    type_program(alloc, program)
}

/// A law: a program has a typing or a rule that fails first, and not both; it has no two typings, and it fails in
/// no two ways.
pub fn one_answer()
    ensures some { (program : ProgramValue) → HasTyping program ⊎ HasFailure program }
    ensures not_both { (program : ProgramValue) → HasTyping program → HasFailure program → ⊥ }
    ensures one_typing { (program : ProgramValue) (x t : TypedValue) → IsTyped program x → IsTyped program t → x ≡ t }
    ensures one_failure { (program : ProgramValue) (rule line r l : ℕ) → TypingFails program rule line
        → TypingFails program r l → (rule ≡ r) × (line ≡ l) }
{}
