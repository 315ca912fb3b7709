//! The text of a source that is accepted: what each level has, and the calls across levels.

ghost use Rattle.std.specs.Prelude.{◌≡◌, ◌==◌, IfOk, count_by, string_bytes};
ghost use Rattle.cl_job.specs.Listing.{call_line, call_lines, level_line, level_lines, listing};

use crate::texts::name_at;
use cl_base::name::Name;
use cl_mean::checked::{Checked, GedlRow};
use std::alloc::{AllocError, Global};

/// How many of these levels are this one.
fn count_of(levels: &[u32], level: usize) -> usize
    ensures { result ≡ count_by (λ l. l == level) levels.now }
{
    levels.iter().filter(|l| **l as usize == level).count()
}

/// The line of a level.
#[tactic(auto, unfolding(crate::specs::Listing::level_line))]
fn level_line(
    alloc: Global,
    name: &Name,
    functions: usize,
    globals: usize,
) -> Result<String, AllocError>
    ensures { IfOk result (λ text. string_bytes text ≡ level_line name.now functions globals) }
{
    let name = name.text();
    format!(in alloc; "level {name} functions {functions} globals {globals}\n")
}

/// The lines of the levels.
#[tactic(auto, using(crate::proofs::Lines::one_more))]
fn level_lines(alloc: Global, checked: &Checked) -> Result<String, AllocError>
    ensures { IfOk result (λ text. string_bytes text ≡ level_lines checked.now.levels 0 checked.now.labels.levels) }
{
    let mut text = String::new(alloc);
    let mut level = 0;
    let mut left = checked.labels.levels.as_slice();
    while let [name, rest @ ..] = left {
        let functions = count_of(checked.levels.of_functions.as_slice(), level);
        let globals = count_of(checked.levels.of_objects.as_slice(), level);
        let line = level_line(alloc, name, functions, globals)?;
        text.push_str(line.as_str())?;
        level += 1;
        left = rest;
    }
    Ok(text)
}

/// The line of a row of calls across levels.
#[tactic(auto, unfolding(crate::specs::Listing::call_line))]
fn call_line(alloc: Global, names: &[Name], row: &GedlRow) -> Result<String, AllocError>
    ensures { IfOk result (λ text. string_bytes text ≡ call_line names.now row.now) }
{
    let from = name_at(names, row.from);
    let to = name_at(names, row.to);
    let function = row.name.text();
    let request = row.request;
    let reply = row.reply;
    format!(in alloc; "call {from} {to} {function} request {request} reply {reply}\n")
}

/// The lines of the calls across levels.
#[tactic(auto, using(crate::proofs::Lines::one_more))]
fn call_lines(alloc: Global, names: &[Name], rows: &[GedlRow]) -> Result<String, AllocError>
    ensures { IfOk result (λ text. string_bytes text ≡ call_lines names.now rows.now) }
{
    let mut text = String::new(alloc);
    let mut left = rows;
    while let [row, rest @ ..] = left {
        let line = call_line(alloc, names, row)?;
        text.push_str(line.as_str())?;
        left = rest;
    }
    Ok(text)
}

/// What is told of a source that is accepted.
#[tactic(auto, unfolding(crate::specs::Listing::listing))]
pub fn listing(alloc: Global, checked: &Checked) -> Result<String, AllocError>
    ensures { IfOk result (λ text. string_bytes text ≡ listing checked.now) }
{
    let levels = level_lines(alloc, checked)?;
    let levels = levels.as_str();
    let names = checked.labels.levels.as_slice();
    let calls = call_lines(alloc, names, checked.gedl.rows.as_slice())?;
    let calls = calls.as_str();
    format!(in alloc; "accepted\n{levels}{calls}")
}
