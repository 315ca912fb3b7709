//! The rules in their order.

ghost use Rattle.std.specs.Prelude.{◌≡◌};
ghost use Rattle.cl_typing.specs.declared.sought.Sought.TheVariants.{Pointers, Reals};
ghost use Rattle.cl_typing.specs.Tokens.{program_tokens};
ghost use Rattle.cl_typing.specs.Twice.{twice};
ghost use Rattle.cl_typing.specs.Unknown.{unknown};
ghost use Rattle.cl_typing.specs.Wrong.{wrong};
ghost use Rattle.cl_typing.specs.Sizes.{too_large};
ghost use Rattle.cl_typing.specs.Facts.{no_main};
ghost use Rattle.cl_typing.specs.Typing.{rules};
ghost use Rattle.cl_sema.specs.Answer.{stopped, RuleAnswer, RulesAnswer};

use crate::ends;
use crate::stop::SemaStop;
use cl_forbidden::stmts::look_program as look_tokens;
use cl_large::items as large;
use cl_scope::stop::Stop;
use cl_tree::tree::Program;
use cl_twice::items as twice;
use cl_typing::sought::Sought;
use cl_unknown::items as unknown;
use cl_wrong::items as wrong;
use std::alloc::Global;

/// How the search for a rule's first place ends, as the rule's answer.
fn of_rule(rule: u8, stop: Stop) -> SemaStop
    ensures { result ≡ stopped rule stop }
{
    match stop {
        Stop::At(line) => SemaStop::Rule { rule, line },
        Stop::NoMemory => SemaStop::NoMemory,
    }
}

fn pointers(program: &Program) -> Result<(), SemaStop>
    ensures { RuleAnswer 8 (program_tokens Pointers program.now) result }
{
    match look_tokens(Sought::Pointers, program) {
        Ok(()) => Ok(()),
        Err(stop) => Err(of_rule(8, stop)),
    }
}

fn reals(program: &Program) -> Result<(), SemaStop>
    ensures { RuleAnswer 9 (program_tokens Reals program.now) result }
{
    match look_tokens(Sought::Reals, program) {
        Ok(()) => Ok(()),
        Err(stop) => Err(of_rule(9, stop)),
    }
}

fn second_declarations(alloc: Global, program: &Program) -> Result<(), SemaStop>
    ensures { RuleAnswer 19 (twice program.now) result }
{
    match twice::look_program(alloc, program) {
        Ok(()) => Ok(()),
        Err(stop) => Err(of_rule(19, stop)),
    }
}

fn unknown_names(alloc: Global, program: &Program) -> Result<(), SemaStop>
    ensures { RuleAnswer 18 (unknown program.now) result }
{
    match unknown::look_program(alloc, program) {
        Ok(()) => Ok(()),
        Err(stop) => Err(of_rule(18, stop)),
    }
}

fn wrong_types(alloc: Global, program: &Program) -> Result<(), SemaStop>
    ensures { RuleAnswer 20 (wrong program.now) result }
{
    match wrong::look_program(alloc, program) {
        Ok(()) => Ok(()),
        Err(stop) => Err(of_rule(20, stop)),
    }
}

fn large_objects(alloc: Global, program: &Program) -> Result<(), SemaStop>
    ensures { RuleAnswer 21 (too_large program.now) result }
{
    match large::look_program(alloc, program) {
        Ok(()) => Ok(()),
        Err(stop) => Err(of_rule(21, stop)),
    }
}

fn missing_main(program: &Program) -> Result<(), SemaStop>
    ensures { RuleAnswer 22 (no_main program.now) result }
{
    match ends::look_program(program) {
        Ok(()) => Ok(()),
        Err(stop) => Err(of_rule(22, stop)),
    }
}

/// Looks at the rules of names, types and sizes in their order.
pub fn look_all(alloc: Global, program: &Program) -> Result<(), SemaStop>
    ensures { RulesAnswer (rules program.now) result }
{
    pointers(program)?;
    reals(program)?;
    second_declarations(alloc, program)?;
    unknown_names(alloc, program)?;
    wrong_types(alloc, program)?;
    large_objects(alloc, program)?;
    missing_main(program)
}
