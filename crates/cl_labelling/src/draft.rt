//! A definition of a label as its text says it: levels and labels stand as their names.

use cl_base::name::Name;
use cl_mean::labels::{Direction, Operation, RedactField};
use sqlite_items::Items;

/// Some names.
#[derive(Drop)]
pub struct Names {
    pub all: Items<Name>,
}

/// The three taint lists of a function's label: the names for each parameter, for its body, and for its result.
#[derive(Drop)]
pub struct TaintsDraft {
    pub args: Items<Names>,
    pub code: Items<Name>,
    pub result: Items<Name>,
}

/// What a definition says about another level, which `remote` names.
#[derive(Drop)]
pub struct EntryDraft {
    pub remote: Name,
    pub direction: Direction,
    pub operation: Operation,
    pub redact: Items<RedactField>,
}

/// What the text of a definition says.
#[derive(Drop)]
pub struct Draft {
    pub level: Name,
    pub entries: Items<EntryDraft>,
    pub taints: Option<TaintsDraft>,
}
