//! From tokens to the program that they spell.

ghost use Rattle.std.specs.Prelude.{◌≡◌, ◌⊎◌, ℕ, List, [], IfOk, IfErr, MatchResult};
ghost use Rattle.cl_tree.specs.declared.grammar.Terminal.{Terminal as TerminalValue};
ghost use Rattle.cl_tree.specs.Spelling.{Reads};
ghost use Rattle.cl_tree.specs.declared.token.Token.{Token as TokenValue};
ghost use Rattle.cl_tree.specs.declared.tree.Program.{Program as ProgramValue};
ghost use Rattle.cl_tree.specs.Items.{cut, WellFormed, program_spelling};
ghost use Rattle.cl_tree.specs.Reading.{AreItems, ReadsAs, WithinLimits, HasProgram, HasFailure, ParseFails};
ghost use Rattle.cl_parse.specs.Answer.{IsFailure, ItemAnswer, ItemsAnswer, ProgramAnswer};

use crate::first::first_item;
use crate::limits::limit_passed;
use crate::stop::ParseStop;
use cl_parse_expr::cursor::line_of;
use cl_parse_expr::stop::Stop;
use cl_parse_stmt::whole::item;
use cl_terminals::terminals::terminals;
use cl_tree::grammar::Terminal;
use cl_tree::token::Token;
use cl_tree::tree::{Item, Program};
use sqlite_items::Items;
use std::alloc::Global;

/// One item, or E06 at its first terminal.
#[tactic(auto, using(crate::proofs::Itemwise::item_unread, crate::proofs::Itemwise::same_line))]
fn read_item(alloc: Global, terminals: &[Terminal]) -> Result<Item, ParseStop>
    ensures { ItemAnswer terminals.now result }
{
    match item(alloc, terminals) {
        Ok(read) => Ok(read),
        Err(Stop::Memory) => Err(ParseStop::NoMemory),
        Err(Stop::Unread) => Err(ParseStop::Rule {
            rule: 6,
            line: line_of(terminals),
        }),
    }
}

/// The items of terminals, one after the other.
#[tactic(auto, using(crate::proofs::Itemwise::goes_cut, crate::proofs::Itemwise::goes_next, crate::proofs::Itemwise::goes_stop, crate::proofs::Itemwise::goes_done, crate::proofs::Cut::first_within, crate::proofs::Cut::first_some))]
fn read_items(alloc: Global, terminals: &[Terminal]) -> Result<Items<Item>, ParseStop>
    ensures { ItemsAnswer (cut terminals.now) result }
{
    let mut done = Items::new(alloc);
    let mut after = false;
    let mut rest = terminals;
    'items: while !rest.is_empty() {
        let (size, closes) = first_item(alloc, after, rest)?;
        let (first, next) = rest.split_at(size);
        done.push(read_item(alloc, first)?)?;
        after = closes;
        rest = next;
    }
    Ok(done)
}

#[tactic(auto, unfolding(cl_tree::specs::Reading::passed_at))]
fn read_program(alloc: Global, tokens: &[Token]) -> Result<Program, ParseStop>
    ensures { ProgramAnswer tokens.now result }
{
    let terminals = terminals(alloc, tokens)?;
    if let Some(line) = limit_passed(alloc, terminals.as_slice())? {
        return Err(ParseStop::Rule { rule: 23, line });
    }
    let items = read_items(alloc, terminals.as_slice())?;
    Ok(Program { items })
}

/// The program that tokens spell (C11 6.9, as far as the profile goes). E23 at the first token that
/// passes a limit; where none does, E06 at the beginning of the first item that has no reading.
#[tactic(auto, using(crate::proofs::Answered::answer_found, crate::proofs::Answered::answer_only, crate::proofs::Answered::answer_fails, crate::proofs::Answered::answer_rule))]
pub fn parse(alloc: Global, tokens: &[Token]) -> Result<Program, ParseStop>
    // What is read keeps the limits, and the tokens spell it.
    ensures found { IfOk result (λ p. WithinLimits tokens.now × ReadsAs tokens.now p) }
    // What the tokens spell is read, unless memory runs out.
    ensures only { (p : ProgramValue) → WithinLimits tokens.now → ReadsAs tokens.now p → MatchResult result (λ x. x ≡ p) (λ e. e ≡ ParseStop.NoMemory) }
    // A refusal names a rule that fails, and its line.
    ensures fails { IfErr result (λ e. IsFailure tokens.now e) }
    // Where a rule fails there is no program, and the refusal names that rule.
    ensures rule { (rule line : ℕ) → ParseFails tokens.now rule line → MatchResult result (λ _. ⊥) (λ e. (e ≡ ParseStop.Rule rule line) ⊎ (e ≡ ParseStop.NoMemory)) }
{
    read_program(alloc, tokens)
}

/// A law: tokens have a program within the limits or a failure, and not both; no tokens are two
/// programs, and none fail in two ways.
pub fn one_answer()
    ensures some { (tokens : List TokenValue) → HasProgram tokens ⊎ HasFailure tokens }
    ensures not_both { (tokens : List TokenValue) → HasProgram tokens → HasFailure tokens → ⊥ }
    ensures one_program { (tokens : List TokenValue) (p q : ProgramValue) → ReadsAs tokens p → ReadsAs tokens q → p ≡ q }
    ensures one_failure { (tokens : List TokenValue) (rule line r l : ℕ) → ParseFails tokens rule line → ParseFails tokens r l → (rule ≡ r) × (line ≡ l) }
{}

/// A law: the spelling of a well-formed program is cut back into its items, and terminals that are cut into
/// its items are that spelling.
pub fn one_spelling()
    ensures cut_back { (program : ProgramValue) (terminals : List TerminalValue) → WellFormed program → Reads (program_spelling program) terminals [] → AreItems (cut terminals) program.items }
    ensures spelled { (program : ProgramValue) (terminals : List TerminalValue) → AreItems (cut terminals) program.items → WellFormed program × Reads (program_spelling program) terminals [] }
{}
