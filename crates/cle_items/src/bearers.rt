//! The declarations of functions that have a label.

ghost use Rattle.std.specs.Prelude.{◌≡◌, ◌++◌, OnOk, IfOk};
ghost use Rattle.cl_regions.specs.Roles.{subject_of};
ghost use Rattle.cle_share.specs.Bearings.{bearing_by, bearings};
ghost use Rattle.cle_items.specs.Numbered as item;
ghost use Rattle.cle_items.specs.Numbered.{numbered};

use crate::numbers::Numbered;
use cl_base::name::NoMemory;
use cl_regions::roles::Subject;
use cle_share::bearings::Bearing;
use std::alloc::Global;

/// Adds an item that is a declaration of a function with a label.
fn add<'a>(found: &mut Vec<Bearing<'a>>, item: &Numbered<'a>) -> Result<(), NoMemory>
    ensures { OnOk result (bearings found.new.items ≡ bearings found.old.items ++ bearing_by item.now.line (subject_of item.now.subject) item.now.label) }
{
    let (Subject::Function(function), Some(label)) = (item.subject, item.label) else {
        return Ok(());
    };
    found.push(Bearing {
        function,
        label,
        line: item.line,
    })?;
    Ok(())
}

/// The declarations of functions that have a label, in the order of the source.
pub fn bearers<'a>(alloc: Global, all: &[Numbered<'a>]) -> Result<Vec<Bearing<'a>>, NoMemory>
    ensures { IfOk result (λ found. bearings found.items ≡ item.bearers (numbered all.now)) }
{
    let mut found = Vec::new(alloc);
    for item in all {
        add(&mut found, item)?;
    }
    Ok(found)
}
