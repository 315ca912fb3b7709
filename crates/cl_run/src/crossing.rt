//! What crosses between levels.

use sqlite_items::Items;

/// What a request or a reply holds: numbers in the order of its payload, or nothing, since it was
/// blocked or since the call is broken off by a trap.
#[derive(Drop)]
pub enum Content {
    Values(Items<i128>),
    Blocked,
    Broken,
}

/// The request or the reply of a call by a row, which is named by its number.
#[derive(Drop)]
pub struct Crossing {
    pub row: u32,
    pub reply: bool,
    pub content: Content,
}
