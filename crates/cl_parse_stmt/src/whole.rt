//! All of the terminals as one item.

ghost use Rattle.std.specs.Prelude.{◌≡◌, ◌⊎◌, IfOk, List, MatchResult};
ghost use Rattle.cl_tree.specs.Reading.{IsItem, IsUnread};
ghost use Rattle.cl_tree.specs.declared.tree.Item.{Item as ItemValue};
ghost use Rattle.cl_tree.specs.declared.grammar.Terminal.{Terminal as TerminalValue};
ghost use Rattle.cl_parse_expr.specs.Cursor.{Gives};
ghost use Rattle.cl_parse_stmt.specs.Itemising.{terminals_come, whole_item};

use crate::item::item_at;
use cl_parse_expr::stop::Stop;
use cl_terminals::comes::comes;
use cl_tree::grammar::Terminal;
use cl_tree::tree::Item;
use sqlite_items::Boxed;
use std::alloc::Global;

/// Whether a source can bring each of the terminals.
fn terminals_come(mut terminals: &[Terminal]) -> bool
    ensures { result ≡ terminals_come terminals.entry.now }
{
    while let [first, rest @ ..] = terminals {
        if !comes(&first.what) {
            return false;
        }
        terminals = rest;
    }
    true
}

#[tactic(auto, unfolding(crate::specs::Itemising::whole_item))]
fn whole_item(alloc: Global, room: usize, terminals: &[Terminal]) -> Result<Boxed<Item>, Stop>
    ensures { Gives (λ x. x) result (whole_item room terminals.now) }
{
    if !terminals_come(terminals) {
        return Err(Stop::Unread);
    }
    let (item, rest) = item_at(alloc, room, terminals)?;
    match rest {
        [] => Ok(item),
        _ => Err(Stop::Unread),
    }
}

#[tactic(auto, using(crate::proofs::AllItems::item_found))]
fn boxed_item(alloc: Global, terminals: &[Terminal]) -> Result<Boxed<Item>, Stop>
    ensures found { IfOk result (λ i. IsItem terminals.now i) }
    ensures only { (i : ItemValue) → IsItem terminals.now i → MatchResult result (λ x. x ≡ i) (λ e. e ≡ Stop.Memory) }
{
    whole_item(alloc, terminals.len() + 1, terminals)
}

/// The item that all of the terminals are (C11 6.9). `Stop::Unread` where they are none.
pub fn item(alloc: Global, terminals: &[Terminal]) -> Result<Item, Stop>
    // What is read is spelled so, line by line, and well-formed.
    ensures found { IfOk result (λ i. IsItem terminals.now i) }
    // What is spelled so is read, unless memory runs out.
    ensures only { (i : ItemValue) → IsItem terminals.now i → MatchResult result (λ x. x ≡ i) (λ e. e ≡ Stop.Memory) }
{
    Ok(boxed_item(alloc, terminals)?.into_inner())
}

/// A law: terminals are one item or none.
pub fn one_item()
    ensures some { (terminals : List TerminalValue) → ((item : ItemValue) × IsItem terminals item) ⊎ IsUnread terminals }
    ensures one { (terminals : List TerminalValue) (i j : ItemValue) → IsItem terminals i → IsItem terminals j → i ≡ j }
{}
