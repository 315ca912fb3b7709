//! The ways among notes.

ghost use Rattle.std.specs.Prelude.{◌≡◌, ◌≤◌, ◌<◌, ◌*◌, ◌+◌, ◌^◌, ◌++◌, All, OnOk, IfOk};
ghost use Rattle.cle_table.specs.Exact.{noted};
ghost use Rattle.std.specs.List.{flat_map};
ghost use Rattle.cle_table.specs.Numbers as numbers;
ghost use Rattle.cle_table.specs.Numbers.{way_in, ways_in, OriginBelow, WayBelow};

use cl_base::name::NoMemory;
use cl_mean::labels::Mention;
use cle_walk::program::Notes;
use cle_ways::ways::{Body, Note, Origin, Way};
use std::alloc::Global;

/// The number of a label, among the labels and the labels of levels.
pub fn label_number(m: Mention) -> usize
    ensures number { result ≡ numbers.label_number m }
    ensures below { result < 2 ^ 33 }
{
    match m {
        Mention::Label(k) => k as usize * 2,
        Mention::Level(k) => k as usize * 2 + 1,
    }
}

fn add_way(note: &Note, ways: &mut Vec<Way>) -> Result<(), NoMemory>
    ensures { OnOk result (ways.new.items ≡ ways.old.items ++ way_in note.now) }
{
    if let Note::Flows(way) = note {
        ways.push(*way)?;
    }
    Ok(())
}

#[tactic(auto, unfolding(crate::specs::Numbers::ways_in))]
fn add_ways(notes: &[Note], ways: &mut Vec<Way>) -> Result<(), NoMemory>
    ensures { OnOk result (ways.new.items ≡ ways.old.items ++ ways_in notes.now) }
{
    for note in notes {
        add_way(note, ways)?;
    }
    Ok(())
}

fn add_bodies(functions: &[Body], ways: &mut Vec<Way>) -> Result<(), NoMemory>
    ensures { OnOk result (ways.new.items ≡ ways.old.items ++ flat_map (λ b. ways_in b.notes) functions.now) }
{
    for function in functions {
        add_ways(function.notes.as_slice(), ways)?;
    }
    Ok(())
}

/// The ways among all that is noted.
pub fn ways_of(alloc: Global, notes: &Notes) -> Result<Vec<Way>, NoMemory>
    ensures { IfOk result (λ ways. ways.items ≡ ways_in (noted notes.now)) }
{
    let mut ways = Vec::new(alloc);
    add_ways(notes.objects.as_slice(), &mut ways)?;
    add_bodies(notes.functions.as_slice(), &mut ways)?;
    Ok(ways)
}

/// A count that a number of a label is below, and no less than it was.
fn more(count: usize, from: Origin) -> usize
    requires { count ≤ 2 ^ 33 }
    ensures grown { count ≤ result }
    ensures below { OriginBelow result from }
    ensures few { result ≤ 2 ^ 33 }
{
    match from {
        Origin::Just(m) => {
            let number = label_number(m);
            if number < count { count } else { number + 1 }
        }
        Origin::AllOf(_) => count,
    }
}

/// How many numbers of labels there are: one more than the greatest.
pub fn count_labels(ways: &[Way]) -> usize
    ensures below { All (WayBelow result) ways.now }
    ensures few { result ≤ 2 ^ 33 }
{
    let mut count = 0;
    for way in ways {
        count = more(count, way.from);
    }
    count
}
