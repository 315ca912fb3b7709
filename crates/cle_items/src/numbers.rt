//! The numbers of the labels of items.

ghost use Rattle.std.specs.Prelude.{◌≡◌, ◌<◌, ◌^◌, length, map, IfOk};
ghost use Rattle.cl_regions.specs.Few.{few_of};
ghost use Rattle.cl_regions.specs.Marks.{kept_all};
ghost use Rattle.cle_items.specs.Numbered.{number_by, number_kept, numbered};

use cl_base::name::NoMemory;
use cl_regions::labels::Labels as Kept;
use cl_regions::marks::Marked;
use cl_regions::roles::Subject;
use cle_names::labels::Labels;
use std::alloc::Global;

/// An item, with the line of its first token and the number of its label.
#[derive(Clone, Copy, Drop)]
pub struct Numbered<'a> {
    pub subject: Subject<'a>,
    pub line: u32,
    pub label: Option<u32>,
}

/// The number of the label, if there is one.
fn number(names: &Labels<'_>, labels: Kept<'_>) -> Option<u32>
    requires { length names.now < 2 ^ 32 }
    ensures { result ≡ number_by names.now (few_of labels.entry) }
{
    match labels {
        Kept::One(name) => Some(names.number(name) as u32),
        Kept::Nothing | Kept::Many => None,
    }
}

/// The items with the numbers of their labels, which have these names.
pub fn numbers<'a>(
    alloc: Global,
    names: &Labels<'_>,
    marks: &[Marked<'a>],
) -> Result<Vec<Numbered<'a>>, NoMemory>
    requires { length names.now < 2 ^ 32 }
    ensures { IfOk result (λ all. numbered all.items ≡ map (number_kept names.now) (kept_all marks.now)) }
{
    let mut all = Vec::with_capacity(alloc, marks.len())?;
    for mark in marks {
        all.push(Numbered {
            subject: mark.subject,
            line: mark.line,
            label: number(names, mark.labels),
        })?;
    }
    Ok(all)
}
