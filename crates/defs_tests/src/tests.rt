mod sources;

use crate::tests::sources::{REFUSED, RIGHT_KINDS, TABLES, WRONG_KINDS};
use cl_base::limits::SOURCE_BYTES;
use cl_mean::checked::Typed;
use cl_mean::labels::{LabelFact, LabelTable};
use cl_read::read::read_source;
use cl_sema::resolve::resolve;
use cle_defs::labels::labels;
use cle_defs::stop::CleStop;
use std::alloc::{AllocError, Global};
use std::test::Fail;

/// How a source ends, short of a table.
#[derive(Clone, Copy, Debug, PartialEq, Eq)]
enum End {
    Fails { rule: u8, line: u32 },
    Untyped,
    NoMemory,
}

fn typed(alloc: Global, source: &str) -> Option<Typed> {
    let bytes = source.as_bytes();
    if bytes.len() > SOURCE_BYTES {
        return None;
    }
    let Ok(program) = read_source(alloc, bytes) else {
        return None;
    };
    resolve(alloc, program).ok()
}

fn table(alloc: Global, source: &str) -> Result<LabelTable, End> {
    let Some(typed) = typed(alloc, source) else {
        return Err(End::Untyped);
    };
    match labels(alloc, &typed) {
        Ok(table) => Ok(table),
        Err(CleStop::Rule { rule, line }) => Err(End::Fails { rule, line }),
        Err(CleStop::NoMemory) => Err(End::NoMemory),
    }
}

fn end_of(alloc: Global, source: &str) -> Option<End> {
    table(alloc, source).err()
}

/// The first row that doesn't fail the rule at the line.
fn misjudged(alloc: Global) -> Option<(usize, Option<End>)> {
    for (place, row) in REFUSED.iter().enumerate() {
        let (source, rule, line) = *row;
        let end = end_of(alloc, source);
        if end != Some(End::Fails { rule, line }) {
            return Some((place, end));
        }
    }
    None
}

fn add_label(
    alloc: Global,
    text: &mut String,
    label: Option<u32>,
    first: bool,
) -> Result<(), AllocError> {
    let comma = if first { "" } else { "," };
    let shown = match label {
        Some(k) => format!(in alloc; "{comma}{k}")?,
        None => format!(in alloc; "{comma}-")?,
    };
    text.push_str(shown.as_str())
}

fn add_labels(alloc: Global, text: &mut String, labels: &[Option<u32>]) -> Result<(), AllocError> {
    if labels.is_empty() {
        return text.push_str("none");
    }
    for (k, label) in labels.iter().enumerate() {
        add_label(alloc, text, *label, k == 0)?;
    }
    Ok(())
}

fn add_fact(
    alloc: Global,
    text: &mut String,
    fact: &LabelFact,
    first: bool,
) -> Result<(), AllocError> {
    let comma = if first { "" } else { "," };
    let name = fact.name.text();
    let entries = fact.entries.len();
    let shown = format!(in alloc; "{comma}{name}/{}/{}/{entries}", fact.level, fact.line)?;
    text.push_str(shown.as_str())
}

fn add_facts(alloc: Global, text: &mut String, facts: &[LabelFact]) -> Result<(), AllocError> {
    for (k, fact) in facts.iter().enumerate() {
        add_fact(alloc, text, fact, k == 0)?;
    }
    Ok(())
}

fn shown(alloc: Global, table: &LabelTable) -> Result<String, AllocError> {
    let mut text = String::new(alloc);
    for (k, level) in table.levels.as_slice().iter().enumerate() {
        text.push_str(if k == 0 { "" } else { "," })?;
        text.push_str(level.text())?;
    }
    text.push_str(" ")?;
    add_facts(alloc, &mut text, table.labels.as_slice())?;
    text.push_str(" functions ")?;
    add_labels(alloc, &mut text, table.on_functions.as_slice())?;
    text.push_str(" objects ")?;
    add_labels(alloc, &mut text, table.on_objects.as_slice())?;
    Ok(text)
}

/// What is shown of the table of a source, and else nothing.
fn table_of(alloc: Global, source: &str) -> Result<String, AllocError> {
    match table(alloc, source) {
        Ok(table) => shown(alloc, &table),
        Err(_) => Ok(String::new(alloc)),
    }
}

/// The first row whose table is another one.
fn mistabled(alloc: Global) -> Result<Option<usize>, AllocError> {
    for (place, row) in TABLES.iter().enumerate() {
        let (source, wanted) = *row;
        let text = table_of(alloc, source)?;
        if text.as_str() != wanted {
            return Ok(Some(place));
        }
    }
    Ok(None)
}

#[test]
fn the_first_rule_that_fails_is_named(rt: HostRuntime) -> Result<(), Fail> {
    assert_eq!(rt; misjudged(rt.alloc()), None);
    Ok(())
}

#[test]
fn sources_have_their_tables(rt: HostRuntime) -> Result<(), Fail> {
    assert_eq!(rt; mistabled(rt.alloc())?, None);
    Ok(())
}

/// A source whose second line defines a label by a text.
fn defining(alloc: Global, text: &str) -> Result<String, AllocError> {
    format!(in alloc;
        "#pragma cle def P {{\"level\":\"purple\"}}\n#pragma cle def Q {text}\nint main(void) {{ return 0; }}\n"
    )
}

/// The first text whose definition ends otherwise.
fn misdefined(
    alloc: Global,
    texts: &[&str],
    wanted: Option<End>,
) -> Result<Option<usize>, AllocError> {
    for (place, text) in texts.iter().enumerate() {
        let source = defining(alloc, text)?;
        if end_of(alloc, source.as_str()) != wanted {
            return Ok(Some(place));
        }
    }
    Ok(None)
}

#[test]
fn a_key_of_the_wrong_kind_is_a_wrong_shape(rt: HostRuntime) -> Result<(), Fail> {
    let wrong = Some(End::Fails { rule: 11, line: 2 });
    assert_eq!(rt; misdefined(rt.alloc(), &WRONG_KINDS, wrong)?, None);
    assert_eq!(rt; misdefined(rt.alloc(), &RIGHT_KINDS, None)?, None);
    Ok(())
}

const LABELS: u32 = 1024;

const ITEMS: u32 = 4096;

/// As many definitions and variables as a source may have, each variable with a label of its own, behind as many regions in each
/// other.
fn largest(alloc: Global) -> Result<String, AllocError> {
    let mut text = String::new(alloc);
    for k in 0..LABELS {
        let line = format!(in alloc; "#pragma cle def L{k} {{\"level\":\"purple\"}}\n")?;
        text.push_str(line.as_str())?;
    }
    for k in 0..ITEMS {
        let line = format!(in alloc; "#pragma cle begin L{}\n", k % LABELS)?;
        text.push_str(line.as_str())?;
    }
    for k in 0..ITEMS {
        let line = format!(in alloc; "#pragma cle end L{}\n", k % LABELS)?;
        text.push_str(line.as_str())?;
    }
    for k in 0..ITEMS {
        let line = format!(in alloc; "#pragma cle L{}\nint x{k};\n", k % LABELS)?;
        text.push_str(line.as_str())?;
    }
    text.push_str("int main(void) { return 0; }\n")?;
    Ok(text)
}

/// The first object that hasn't the label of its pragma.
fn mislabelled(labels: &[Option<u32>]) -> Option<usize> {
    for (k, label) in labels.iter().enumerate() {
        if k > u32::MAX as usize || *label != Some(k as u32 % LABELS) {
            return Some(k);
        }
    }
    None
}

#[test]
fn the_largest_source_has_its_table(rt: HostRuntime) -> Result<(), Fail> {
    let alloc = rt.alloc();
    let source = largest(alloc)?;
    let Ok(table) = table(alloc, source.as_str()) else {
        assert!(rt; false, "a table");
        return Ok(());
    };
    assert_eq!(rt; table.levels.len(), 1);
    assert_eq!(rt; table.labels.len(), LABELS as usize);
    assert_eq!(rt; table.on_functions.len(), 1);
    assert_eq!(rt; table.on_objects.len(), ITEMS as usize);
    assert_eq!(rt; mislabelled(table.on_objects.as_slice()), None);
    Ok(())
}
