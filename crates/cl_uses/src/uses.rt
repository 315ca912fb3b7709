//! What the functions of a program use.

use cl_levels::uses::Body;
use sqlite_items::Items;

/// What each function uses, in the order of the definitions, and the line of the declaration of each object
/// of static duration.
#[derive(Drop)]
pub struct Uses {
    pub functions: Items<Body>,
    pub lines: Items<u32>,
}
