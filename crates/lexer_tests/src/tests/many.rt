// Long terminals, and many short ones.

use cl_base::limits::SOURCE_BYTES;
use cl_lex::lex::lex;
use std::alloc::{AllocError, Global};
use std::test::Fail;

fn counted(alloc: Global, source: &[u8]) -> Option<usize> {
    if source.len() > SOURCE_BYTES {
        return None;
    }
    match lex(alloc, source) {
        Ok(tokens) => Some(tokens.len()),
        Err(_) => None,
    }
}

fn add(source: &mut Vec<u8>, times: u32, unit: &str) -> Result<(), AllocError> {
    for _ in 0..times {
        source.extend_from_slice(unit.as_bytes())?;
    }
    Ok(())
}

// How many tokens `before`, a unit so many times, and `behind` are.
const UNITS: [(&str, &str, u32, &str, usize); 8] = [
    ("", "a", 20000, "", 1),
    ("/*", "*", 20000, "*/", 0),
    ("\"", "x", 20000, "\"", 1),
    ("", ">>= ", 5000, "", 5000),
    ("", "\\\n", 10000, "", 0),
    ("", "\"\"", 10000, "", 1),
    ("#pragma x ", "/**/", 5000, "", 0),
    ("0x", "0", 20000, "", 1),
];

fn repeated(
    alloc: Global,
    before: &str,
    unit: &str,
    times: u32,
    behind: &str,
) -> Result<Option<usize>, AllocError> {
    let mut source = Vec::new(alloc);
    source.extend_from_slice(before.as_bytes())?;
    add(&mut source, times, unit)?;
    source.extend_from_slice(behind.as_bytes())?;
    Ok(counted(alloc, source.as_slice()))
}

fn miscounted<'a>(
    alloc: Global,
    rows: &'a [(&str, &str, u32, &str, usize)],
) -> Result<Option<&'a str>, AllocError> {
    for (before, unit, times, behind, wanted) in rows {
        if repeated(alloc, before, unit, *times, behind)? != Some(*wanted) {
            return Ok(Some(unit));
        }
    }
    Ok(None)
}

#[test]
fn long_sources_are_counted(rt: HostRuntime) -> Result<(), Fail> {
    let alloc = rt.alloc();
    assert_eq!(rt; miscounted(alloc, &UNITS)?, None);
    Ok(())
}

fn define(source: &mut Vec<u8>, letter: u8, number: u8) -> Result<(), AllocError> {
    source.extend_from_slice(b"#define ")?;
    source.push(letter)?;
    source.push(b'0' + number / 10 % 10)?;
    source.push(b'0' + number % 10)?;
    source.extend_from_slice(b" 7\n")
}

fn define_hundred(source: &mut Vec<u8>, letter: u8) -> Result<(), AllocError> {
    for number in 0..100 {
        define(source, letter, number)?;
    }
    Ok(())
}

// 2,600 names are defined, and the last is used 10,000 times.
#[test]
fn many_definitions_are_used(rt: HostRuntime) -> Result<(), Fail> {
    let alloc = rt.alloc();
    let mut source = Vec::new(alloc);
    for letter in b'a'..=b'z' {
        define_hundred(&mut source, letter)?;
    }
    add(&mut source, 10000, "z99 ")?;
    assert_eq!(rt; counted(alloc, source.as_slice()), Some(10000));
    Ok(())
}
