//! The levels that annotations give.

ghost use Rattle.std.specs.Prelude.{◌≡◌, map, None, IfOk, slice_index_or};
ghost use Rattle.cl_groups.specs.Own.{own_of};

use cl_base::name::NoMemory;
use cl_mean::labels::{LabelFact, LabelTable};
use cle_share::shareable::label_at;
use sqlite_items::Items;
use std::alloc::Global;

/// The level of each annotated function and object, none of the others.
#[derive(Drop)]
pub struct Own {
    pub functions: Items<Option<u32>>,
    pub objects: Items<Option<u32>>,
}

/// The level of a label, if it is one.
fn level_of(labels: &[LabelFact], label: Option<u32>) -> Option<u32>
    ensures { result ≡ own_of labels.now label }
{
    match label {
        Some(k) => match label_at(labels, k) {
            Some(fact) => Some(fact.level),
            None => None,
        },
        None => None,
    }
}

fn levels_of(
    alloc: Global,
    labels: &[LabelFact],
    on: &[Option<u32>],
) -> Result<Items<Option<u32>>, NoMemory>
    ensures { IfOk result (λ own. own ≡ map (own_of labels.now) on.now) }
{
    let mut own = Items::new(alloc);
    for label in on {
        own.push(level_of(labels, *label))?;
    }
    Ok(own)
}

impl Own {
    pub fn of(alloc: Global, table: &LabelTable) -> Result<Own, NoMemory>
        ensures functions { IfOk result (λ own. own.functions ≡ map (own_of table.now.labels) table.now.on_functions) }
        ensures objects { IfOk result (λ own. own.objects ≡ map (own_of table.now.labels) table.now.on_objects) }
    {
        let labels = table.labels.as_slice();
        let functions = levels_of(alloc, labels, table.on_functions.as_slice())?;
        let objects = levels_of(alloc, labels, table.on_objects.as_slice())?;
        Ok(Own { functions, objects })
    }
}

/// The level of the symbol of a number; none of one that isn't there.
pub fn own_at(own: &[Option<u32>], k: usize) -> Option<u32>
    ensures { result ≡ slice_index_or own.now k None }
{
    match own.get(k) {
        Some(level) => *level,
        None => None,
    }
}
