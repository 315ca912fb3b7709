// Words as tokens, each on a line of its own, with what the reader says of them.

use cl_base::name::{Name, NoMemory};
use cl_parse::first::first_item;
use cl_parse::limits::limit_passed;
use cl_parse::reader::parse;
use cl_parse::stop::ParseStop;
use cl_terminals::terminals::terminals;
use cl_tree::token::{Lexeme, Mark, Token};
use sqlite_items::Items;
use std::alloc::Global;
use std::test::Fail;

fn lexeme(alloc: Global, word: &str) -> Result<Lexeme, NoMemory> {
    match word {
        "(" => Ok(Lexeme::Mark(Mark::OpenParen)),
        ")" => Ok(Lexeme::Mark(Mark::CloseParen)),
        "{" => Ok(Lexeme::Mark(Mark::OpenBrace)),
        "}" => Ok(Lexeme::Mark(Mark::CloseBrace)),
        ";" => Ok(Lexeme::Mark(Mark::Semicolon)),
        _ => Ok(Lexeme::Word(Name::of(alloc, word)?)),
    }
}

fn add(alloc: Global, tokens: &mut Items<Token>, words: &[&str]) -> Result<(), NoMemory> {
    for word in words {
        let line = u32::try_from(tokens.len()).unwrap_or(0).saturating_add(1);
        let what = lexeme(alloc, word)?;
        tokens.push(Token {
            line,
            start: 0,
            end: 0,
            what,
        })?;
    }
    Ok(())
}

fn repeated(
    alloc: Global,
    begin: &[&str],
    times: u32,
    words: &[&str],
) -> Result<Items<Token>, NoMemory> {
    let mut tokens = Items::new(alloc);
    add(alloc, &mut tokens, begin)?;
    for _ in 0..times {
        add(alloc, &mut tokens, words)?;
    }
    Ok(tokens)
}

// Words, others so many times, and the line of the first terminal that passes a limit.
const LIMITS: [(&[&str], u32, &[&str], Option<u32>); 7] = [
    (&[], 64, &["("], None),
    (&[], 65, &["("], Some(65)),
    (&[], 512, &["x"], None),
    (&[], 513, &["x"], Some(513)),
    // In one item, and over several.
    (&["{"], 256, &["else", ";"], None),
    (&["{"], 257, &["else", ";"], Some(514)),
    (&[], 300, &["else", ";"], None),
];

fn over(alloc: Global, tokens: &[Token]) -> Result<Option<u32>, NoMemory> {
    let terminals = terminals(alloc, tokens)?;
    limit_passed(alloc, terminals.as_slice())
}

// How often the first row that passes another limit repeats its words.
fn limit_differs(
    alloc: Global,
    rows: &[(&[&str], u32, &[&str], Option<u32>)],
) -> Result<Option<u32>, NoMemory> {
    for (begin, times, words, line) in rows {
        let tokens = repeated(alloc, begin, *times, words)?;
        if over(alloc, tokens.as_slice())? != *line {
            return Ok(Some(*times));
        }
    }
    Ok(None)
}

#[test]
fn limits_are_kept_by_items(rt: HostRuntime) -> Result<(), Fail> {
    let alloc = rt.alloc();
    assert_eq!(rt; limit_differs(alloc, &LIMITS)?, None);
    Ok(())
}

// Words, how many of them the first item has, and whether its last is a `)`.
const ITEMS: [(&[&str], usize, bool); 5] = [
    (&["x", ";", "y"], 2, false),
    (&["f", "(", ")", "{", ";", "}", ";"], 6, false),
    (&["s", "{", ";", "}", ";", "y"], 5, false),
    (&[")", "{"], 1, true),
    (&["x", "y"], 2, false),
];

fn first(alloc: Global, tokens: &[Token]) -> Result<(usize, bool), NoMemory> {
    let terminals = terminals(alloc, tokens)?;
    first_item(alloc, false, terminals.as_slice())
}

// The size that the row says of the first item that is another.
fn item_differs(alloc: Global, rows: &[(&[&str], usize, bool)]) -> Result<Option<usize>, NoMemory> {
    for (words, size, closes) in rows {
        let tokens = repeated(alloc, words, 0, &[])?;
        if first(alloc, tokens.as_slice())? != (*size, *closes) {
            return Ok(Some(*size));
        }
    }
    Ok(None)
}

#[test]
fn items_end_at_semicolons_and_bodies(rt: HostRuntime) -> Result<(), Fail> {
    let alloc = rt.alloc();
    assert_eq!(rt; item_differs(alloc, &ITEMS)?, None);
    Ok(())
}

// Words, others so many times, and how many items they are, or the rule that they break and its line.
const PARSED: [(&[&str], u32, &[&str], Result<usize, ParseStop>); 5] = [
    (&[], 0, &[], Ok(0)),
    (
        &["int", "x", ";", "int", "f", "(", "void", ")", "{", "}"],
        0,
        &[],
        Ok(2),
    ),
    (
        &["x", ";"],
        0,
        &[],
        Err(ParseStop::Rule { rule: 6, line: 1 }),
    ),
    // The first of two items without a reading.
    (
        &["unsigned", "int", "x", ";", ")", "int", "y", ";", "z", ";"],
        0,
        &[],
        Err(ParseStop::Rule { rule: 6, line: 5 }),
    ),
    // A limit goes before an item that has no reading.
    (
        &["x", ";"],
        65,
        &["("],
        Err(ParseStop::Rule { rule: 23, line: 67 }),
    ),
];

fn item_count(alloc: Global, tokens: &[Token]) -> Result<usize, ParseStop> {
    let program = parse(alloc, tokens)?;
    Ok(program.items.len())
}

// What the first row says that is parsed otherwise.
fn parse_differs(
    alloc: Global,
    rows: &[(&[&str], u32, &[&str], Result<usize, ParseStop>)],
) -> Result<Option<Result<usize, ParseStop>>, NoMemory> {
    for (begin, times, words, wanted) in rows {
        let tokens = repeated(alloc, begin, *times, words)?;
        if item_count(alloc, tokens.as_slice()) != *wanted {
            return Ok(Some(*wanted));
        }
    }
    Ok(None)
}

#[test]
fn the_first_failure_is_told(rt: HostRuntime) -> Result<(), Fail> {
    let alloc = rt.alloc();
    assert_eq!(rt; parse_differs(alloc, &PARSED)?, None);
    Ok(())
}
