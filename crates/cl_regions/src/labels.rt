//! How many labels an item has.

ghost use Rattle.std.specs.Prelude.{◌≡◌};
ghost use Rattle.cl_regions.specs.Few as few;

use cl_base::name::Name;

/// The labels of an item: none, one, or more than one.
#[derive(Clone, Copy, Drop)]
pub enum Labels<'a> {
    Nothing,
    One(&'a Name),
    Many,
}

/// What two lists of labels have together.
pub fn both<'a>(first: Labels<'a>, second: Labels<'a>) -> Labels<'a>
    ensures { few.few_of result ≡ few.both (few.few_of first.entry) (few.few_of second.entry) }
{
    match (first, second) {
        (Labels::Nothing, _) => second,
        (_, Labels::Nothing) => first,
        (Labels::One(_) | Labels::Many, Labels::One(_) | Labels::Many) => Labels::Many,
    }
}
