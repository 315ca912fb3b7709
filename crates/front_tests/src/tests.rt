mod flows;
mod made;
mod sources;

use crate::tests::flows::{CARRIED, FLOWS};
use crate::tests::made::{brackets, chain, levels};
use crate::tests::sources::{ACCEPTED, LEVELS, REFUSED};
use cl_base::limits::SOURCE_BYTES;
use cl_front::accept::accept;
use cl_front::stop::FrontStop;
use cl_mean::checked::{Carried, CarriedLocals, Checked, Flow, GedlRow};
use cl_mean::labels::Mention;
use std::alloc::{AllocError, Global};
use std::test::Fail;

/// Why a source isn't accepted.
#[derive(Clone, Copy, Debug, PartialEq, Eq)]
enum End {
    Refused { rule: u8, line: u32 },
    NoMemory,
    TooLong,
}

fn checked(alloc: Global, source: &str) -> Result<Checked, End> {
    let bytes = source.as_bytes();
    if bytes.len() > SOURCE_BYTES {
        return Err(End::TooLong);
    }
    match accept(alloc, bytes) {
        Ok(checked) => Ok(checked),
        Err(FrontStop::Refused { rule, line }) => Err(End::Refused { rule, line }),
        Err(FrontStop::NoMemory) => Err(End::NoMemory),
    }
}

/// The first row that doesn't break the rule at the line.
fn misjudged(alloc: Global, rows: &[(&str, u8, u32)]) -> Option<(usize, Option<End>)> {
    for (place, row) in rows.iter().enumerate() {
        let (source, rule, line) = *row;
        let end = checked(alloc, source).err();
        if end != Some(End::Refused { rule, line }) {
            return Some((place, end));
        }
    }
    None
}

fn add_row(alloc: Global, text: &mut String, row: &GedlRow) -> Result<(), AllocError> {
    let name = row.name.text();
    let shown = format!(in alloc;
        "{} {} {name} {} {};",
        row.from, row.to, row.request, row.reply
    )?;
    text.push_str(shown.as_str())
}

/// What is shown of the rows of a source that is accepted; why it isn't, else.
fn rows(alloc: Global, source: &str) -> Result<String, AllocError> {
    let mut text = String::new(alloc);
    match checked(alloc, source) {
        Ok(found) => {
            for row in found.gedl.rows.as_slice() {
                add_row(alloc, &mut text, row)?;
            }
        }
        Err(end) => {
            let shown = format!(in alloc; "{end:?}")?;
            text.push_str(shown.as_str())?;
        }
    }
    Ok(text)
}

/// The first row that is refused, or has other rows.
fn other_rows(alloc: Global) -> Result<Option<(usize, String)>, AllocError> {
    for (place, row) in ACCEPTED.iter().enumerate() {
        let (source, wanted) = *row;
        let text = rows(alloc, source)?;
        if text.as_str() != wanted {
            return Ok(Some((place, text)));
        }
    }
    Ok(None)
}

fn add_levels(alloc: Global, text: &mut String, levels: &[u32]) -> Result<(), AllocError> {
    for (k, level) in levels.iter().enumerate() {
        let comma = if k == 0 { "" } else { "," };
        let shown = format!(in alloc; "{comma}{level}")?;
        text.push_str(shown.as_str())?;
    }
    Ok(())
}

/// What is shown of the levels of a source that is accepted, and else nothing.
fn levels_of(alloc: Global, source: &str) -> Result<String, AllocError> {
    let mut text = String::new(alloc);
    if let Ok(found) = checked(alloc, source) {
        add_levels(alloc, &mut text, found.levels.of_functions.as_slice())?;
        text.push_str(" ")?;
        add_levels(alloc, &mut text, found.levels.of_objects.as_slice())?;
        let main = format!(in alloc; " {}", found.levels.main)?;
        text.push_str(main.as_str())?;
    }
    Ok(text)
}

/// The first row whose levels are others.
fn mislevelled(alloc: Global) -> Result<Option<usize>, AllocError> {
    for (place, row) in LEVELS.iter().enumerate() {
        let (source, wanted) = *row;
        let text = levels_of(alloc, source)?;
        if text.as_str() != wanted {
            return Ok(Some(place));
        }
    }
    Ok(None)
}

fn add_mention(alloc: Global, text: &mut String, mention: Mention) -> Result<(), AllocError> {
    let shown = match mention {
        Mention::Label(k) => format!(in alloc; "{k}")?,
        Mention::Level(level) => format!(in alloc; "@{level}")?,
    };
    text.push_str(shown.as_str())
}

/// The labels of one holder, in brackets.
fn add_carried(alloc: Global, text: &mut String, carried: &Carried) -> Result<(), AllocError> {
    text.push_str("[")?;
    for (k, mention) in carried.labels.as_slice().iter().enumerate() {
        text.push_str(if k == 0 { "" } else { "," })?;
        add_mention(alloc, text, *mention)?;
    }
    text.push_str("]")
}

fn add_all(alloc: Global, text: &mut String, all: &[Carried]) -> Result<(), AllocError> {
    for (k, carried) in all.iter().enumerate() {
        text.push_str(if k == 0 { "" } else { " " })?;
        add_carried(alloc, text, carried)?;
    }
    Ok(())
}

fn add_locals(
    alloc: Global,
    text: &mut String,
    functions: &[CarriedLocals],
) -> Result<(), AllocError> {
    for (k, function) in functions.iter().enumerate() {
        text.push_str(if k == 0 { "" } else { "; " })?;
        add_all(alloc, text, function.locals.as_slice())?;
    }
    Ok(())
}

/// What is shown of a flow: the objects, the locals function by function, and the results.
fn add_flow(alloc: Global, text: &mut String, flow: &Flow) -> Result<(), AllocError> {
    add_all(alloc, text, flow.objects.as_slice())?;
    text.push_str(" | ")?;
    add_locals(alloc, text, flow.locals.as_slice())?;
    text.push_str(" | ")?;
    add_all(alloc, text, flow.results.as_slice())
}

/// What is shown of the flow of a source that is accepted; why it isn't, else.
fn flow_of(alloc: Global, source: &str) -> Result<String, AllocError> {
    let mut text = String::new(alloc);
    match checked(alloc, source) {
        Ok(found) => add_flow(alloc, &mut text, &found.flow)?,
        Err(end) => {
            let shown = format!(in alloc; "{end:?}")?;
            text.push_str(shown.as_str())?;
        }
    }
    Ok(text)
}

/// The first row that is refused, or has another flow.
fn other_flow(alloc: Global) -> Result<Option<(usize, String)>, AllocError> {
    for (place, row) in FLOWS.iter().enumerate() {
        let (source, wanted) = *row;
        let text = flow_of(alloc, source)?;
        if text.as_str() != wanted {
            return Ok(Some((place, text)));
        }
    }
    Ok(None)
}

/// How many rows a source has, if it is accepted.
fn count(alloc: Global, source: &str) -> Result<usize, End> {
    match checked(alloc, source) {
        Ok(found) => Ok(found.gedl.rows.len()),
        Err(end) => Err(end),
    }
}

#[test]
fn the_first_rule_that_fails_is_named(rt: HostRuntime) -> Result<(), Fail> {
    assert_eq!(rt; misjudged(rt.alloc(), &REFUSED), None);
    assert_eq!(rt; misjudged(rt.alloc(), &CARRIED), None);
    Ok(())
}

#[test]
fn sources_have_their_rows(rt: HostRuntime) -> Result<(), Fail> {
    assert_eq!(rt; other_rows(rt.alloc())?, None);
    Ok(())
}

#[test]
fn data_carries_its_labels(rt: HostRuntime) -> Result<(), Fail> {
    assert_eq!(rt; other_flow(rt.alloc())?, None);
    Ok(())
}

#[test]
fn sources_have_their_levels(rt: HostRuntime) -> Result<(), Fail> {
    assert_eq!(rt; mislevelled(rt.alloc())?, None);
    Ok(())
}

#[test]
fn a_chain_of_calls_may_have_all_functions_of_a_program(rt: HostRuntime) -> Result<(), Fail> {
    let alloc = rt.alloc();
    let text = chain(alloc, 4095)?;
    assert_eq!(rt; count(alloc, text.as_str()), Ok(0));
    Ok(())
}

#[test]
fn levels_may_call_in_a_row_and_not_in_a_circle(rt: HostRuntime) -> Result<(), Fail> {
    let alloc = rt.alloc();
    let row = levels(alloc, "")?;
    let circle = levels(alloc, "f0(); ")?;
    assert_eq!(rt; count(alloc, row.as_str()), Ok(31));
    assert_eq!(rt;
        count(alloc, circle.as_str()),
        Err(End::Refused { rule: 28, line: 98 })
    );
    Ok(())
}

#[test]
fn so_many_brackets_may_be_open(rt: HostRuntime) -> Result<(), Fail> {
    let alloc = rt.alloc();
    let most = brackets(alloc, 63)?;
    let more = brackets(alloc, 64)?;
    let many = brackets(alloc, 300)?;
    assert_eq!(rt; count(alloc, most.as_str()), Ok(0));
    assert_eq!(rt;
        count(alloc, more.as_str()),
        Err(End::Refused { rule: 23, line: 2 })
    );
    assert_eq!(rt;
        count(alloc, many.as_str()),
        Err(End::Refused { rule: 23, line: 2 })
    );
    Ok(())
}
