//! The limits of the profile that tokens can pass.

ghost use Rattle.std.specs.Prelude.{◌≡◌, ◌≤◌, [], IfOk, false};
ghost use Rattle.cl_base.specs.declared.limits.TheConstants.{RUN_TOKENS, ITEM_ELSES};
ghost use Rattle.cl_tree.specs.Limits as limits;
ghost use Rattle.cl_parse.specs.Walk.{passes, else_count, unseparated, limit_from};

use crate::brackets::{OpenBrackets, is_close};
use cl_base::limits::{ITEM_ELSES, OPEN_BRACKETS, RUN_TOKENS};
use cl_base::name::NoMemory;
use cl_tree::grammar::{Keyword, Sign, Terminal};
use cl_tree::token::Mark;
use std::alloc::Global;

fn is_else(what: &Sign) -> bool
    ensures { result ≡ limits.is_else what.now }
{
    match what {
        Sign::Key(Keyword::Else) => true,
        _ => false,
    }
}

fn else_count(what: &Sign) -> u32
    ensures { result ≡ else_count what.now }
{
    if is_else(what) { 1 } else { 0 }
}

fn separates(what: &Sign) -> bool
    ensures { result ≡ limits.separates what.now }
{
    match what {
        Sign::Mark(Mark::OpenBrace | Mark::CloseBrace | Mark::Semicolon | Mark::Comma) => true,
        Sign::Cle(_) => true,
        _ => false,
    }
}

/// The terminals since the last separator, the given one with them.
fn unseparated(run: u32, what: &Sign) -> u32
    requires { run ≤ RUN_TOKENS }
    ensures { result ≡ unseparated run what.now }
{
    if separates(what) { 0 } else { run + 1 }
}

fn is_over(brackets: &OpenBrackets, elses: u32, run: u32) -> bool
    ensures over { result ≡ passes brackets.now elses run }
    ensures within { result ≡ false → (elses ≤ ITEM_ELSES) × (run ≤ RUN_TOKENS) }
{
    brackets.len() > OPEN_BRACKETS as usize || elses > ITEM_ELSES || run > RUN_TOKENS
}

#[tactic(auto, unfolding(crate::specs::Walk::limit_from), using(crate::proofs::Passed::limit_next, crate::proofs::Passed::limit_stop))]
fn first_over(alloc: Global, terminals: &[Terminal]) -> Result<Option<u32>, NoMemory>
    ensures { IfOk result (λ line. line ≡ limit_from [] false 0 0 terminals.now) }
{
    let mut brackets = OpenBrackets::new(alloc);
    let mut after = false;
    let mut elses = 0;
    let mut run = 0;
    let mut rest = terminals;
    'terminals: while let [first, next @ ..] = rest {
        let ends = brackets.pass(after, &first.what, next)?;
        elses += else_count(&first.what);
        run = unseparated(run, &first.what);
        if is_over(&brackets, elses, run) {
            return Ok(Some(first.line));
        }
        if ends {
            elses = 0;
        }
        after = is_close(&first.what);
        rest = next;
    }
    Ok(None)
}

/// The line of the first terminal that passes a limit: a 65th open bracket, a 257th `else` in one item, or
/// a 513th terminal in a row without `{`, `}`, `;`, `,` or a pragma line.
#[tactic(auto, using(crate::proofs::Passed::limit_is))]
pub fn limit_passed(alloc: Global, terminals: &[Terminal]) -> Result<Option<u32>, NoMemory>
    ensures { IfOk result (λ line. line ≡ limits.limit_passed terminals.now) }
{
    first_over(alloc, terminals)
}
