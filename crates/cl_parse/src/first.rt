//! The first item of terminals.

ghost use Rattle.std.specs.Prelude.{◌≡◌, [], IfOk};
ghost use Rattle.cl_parse.specs.First.{first_length, first_closes};

use crate::brackets::{OpenBrackets, is_close};
use cl_base::name::NoMemory;
use cl_tree::grammar::Terminal;
use std::alloc::Global;

/// How many terminals the first item has, and whether the last of them is a `)`. `after`: the terminal
/// before the first is a `)`.
#[tactic(auto, unfolding(crate::specs::First::first_length, crate::specs::First::first_closes))]
pub fn first_item(
    alloc: Global,
    after: bool,
    terminals: &[Terminal],
) -> Result<(usize, bool), NoMemory>
    ensures size { IfOk result (λ r. r.0 ≡ first_length [] after terminals.now) }
    ensures closes { IfOk result (λ r. r.1 ≡ first_closes [] after terminals.now) }
{
    let mut brackets = OpenBrackets::new(alloc);
    let mut closes = after;
    let mut size = 0;
    let mut rest = terminals;
    'terminals: while let [first, next @ ..] = rest {
        let ends = brackets.pass(closes, &first.what, next)?;
        closes = is_close(&first.what);
        size += 1;
        if ends {
            return Ok((size, closes));
        }
        rest = next;
    }
    Ok((size, closes))
}
