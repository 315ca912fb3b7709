//! The rules of a policy as its text says them: levels, functions and paths stand as their names.

use cl_base::name::Name;
use sqlite_items::Items;

/// A path of a request, or of a reply, and the number that each integer under it becomes.
#[derive(Drop)]
pub struct Field {
    pub path: Items<Name>,
    pub with: i128,
}

/// What a rule does.
#[derive(Drop)]
pub enum ActDraft {
    Allow,
    Block,
    Quota(u64),
    Redact(Items<Field>),
}

/// A rule for the calls of a function by one level at another; without a function it is for all of them.
#[derive(Drop)]
pub struct RuleDraft {
    pub from: Name,
    pub to: Name,
    pub function: Option<Name>,
    pub reply: bool,
    pub act: ActDraft,
}
