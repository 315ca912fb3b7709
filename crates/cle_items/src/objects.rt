//! The labels of objects of static duration.

ghost use Rattle.std.specs.Prelude.{◌≡◌, ◌++◌, ◌∷◌, [], OnOk, IfOk};
ghost use Rattle.cl_mean.specs.Shape.{times};
ghost use Rattle.cl_regions.specs.Roles.{subject_of};
ghost use Rattle.cle_items.specs.Numbered.{labels_by, numbered, object_labels};

use crate::numbers::Numbered;
use cl_base::name::NoMemory;
use cl_regions::roles::Subject;
use sqlite_items::Items;
use std::alloc::Global;

/// Adds a label for each of so many objects.
#[tactic(auto, using(crate::proofs::Labels::one_more_time))]
fn push_times(
    found: &mut Items<Option<u32>>,
    count: usize,
    label: Option<u32>,
) -> Result<(), NoMemory>
    ensures { OnOk result (found.new ≡ found.old ++ times count (label ∷ [])) }
{
    for _ in 0..count {
        found.push(label)?;
    }
    Ok(())
}

fn push(found: &mut Items<Option<u32>>, item: &Numbered<'_>) -> Result<(), NoMemory>
    ensures { OnOk result (found.new ≡ found.old ++ labels_by (subject_of item.now.subject) item.now.label) }
{
    match item.subject {
        Subject::Objects(count) => push_times(found, count, item.label),
        Subject::Function(_) => Ok(()),
    }
}

/// The label of each object of static duration, in the order of the source.
pub fn on_objects(alloc: Global, all: &[Numbered<'_>]) -> Result<Items<Option<u32>>, NoMemory>
    ensures { IfOk result (λ found. found ≡ object_labels (numbered all.now)) }
{
    let mut found = Items::new(alloc);
    for item in all {
        push(&mut found, item)?;
    }
    Ok(found)
}
