// Sources at a limit, and one past it.

use super::{End, end_of, misjudged, program};
use std::alloc::{AllocError, Global};
use std::test::Fail;

/// Items from line 2 on that go over at a line.
const OVER: [(&str, u8, u32); 10] = [
    ("int a[65537];", 21, 2),
    ("int a;\nint\na2[70000];", 21, 3),
    ("int a[65535][65535][65535];", 21, 2),
    ("int a[4294967296][4294967296];", 21, 2),
    ("int a[16][65536];", 21, 2),
    ("struct s { int m[70000]; };\nstruct s a;", 21, 3),
    (
        "struct s { int m[32768]; };\nstruct t { struct s a; int x; struct s b; };\nstruct t c;",
        21,
        4,
    ),
    ("void\nf(int a[8193]) { }", 21, 2),
    (
        "void f(int a[8000]) { { int b[100]; } for (int i = 0;;) { int c[92]; } }",
        21,
        2,
    ),
    ("void f(void) {\nstatic int\nb[65537]; }", 21, 3),
];

/// Items that go over no limit.
const WITHIN: [&str; 9] = [
    "int a[65536];",
    "int a[256][256];",
    "struct s { int m[70000]; };",
    "struct s { int m[65536]; };\nstruct s a;",
    "struct s { int m[32768]; };\nstruct t { struct s a; struct s b; };\nstruct t c;",
    "void f(int a[8192]) { }",
    "void f(int a[8193]);",
    "void f(int a[8000]) { { int b[100]; } int c[92]; }",
    "void f(int a[8192]) { static int b[65536]; }",
];

/// The first items with which a program isn't typed.
fn refused(
    alloc: Global,
    rows: &[&'static str],
) -> Result<Option<(&'static str, End)>, AllocError> {
    for items in rows {
        let source = program(alloc, "", items, "")?;
        let end = end_of(alloc, source.as_str());
        if end != End::Typed {
            return Ok(Some((*items, end)));
        }
    }
    Ok(None)
}

#[test]
fn sizes_within_the_limits_pass(rt: HostRuntime) -> Result<(), Fail> {
    assert_eq!(rt; refused(rt.alloc(), &WITHIN)?, None);
    Ok(())
}

#[test]
fn sizes_over_the_limits_are_refused(rt: HostRuntime) -> Result<(), Fail> {
    assert_eq!(rt; misjudged(rt.alloc(), &OVER)?, None);
    Ok(())
}

/// As many lines, each the text with its number behind it and an end.
fn lines(alloc: Global, count: u32, text: &str, end: &str) -> Result<String, AllocError> {
    let mut all = String::new(alloc);
    for n in 0..count {
        let line = format!(in alloc; "{text}{n}{end}\n")?;
        all.push_str(line.as_str())?;
    }
    Ok(all)
}

/// How a program of as many lines of one kind ends. `main` and the label count too.
fn end_of_lines(alloc: Global, count: u32, text: &str, end: &str) -> Result<End, AllocError> {
    let items = lines(alloc, count, text, end)?;
    let source = program(alloc, "", items.as_str(), "")?;
    Ok(end_of(alloc, source.as_str()))
}

/// Items of one kind, how many are within the limit beside `main` and the label, and the line of what goes over where
/// there is one more: the last item's, or `main`'s.
const COUNTED: [(&str, &str, u32, u32); 5] = [
    ("struct s", " { int a; };", 256, 258),
    ("int a", ";", 4096, 4098),
    ("int a", "[65536];", 16, 18),
    ("int f", "(void) { return 0; }", 4095, 4099),
    ("#pragma cle def L", " {}", 1023, 1025),
];

/// The first kind of item that ends otherwise at the limit, or one past it.
fn miscounted(
    alloc: Global,
    rows: &[(&'static str, &'static str, u32, u32)],
) -> Result<Option<(&'static str, End)>, AllocError> {
    for (text, end, most, line) in rows {
        let at = end_of_lines(alloc, *most, text, end)?;
        if at != End::Typed {
            return Ok(Some((*text, at)));
        }
        let past = end_of_lines(alloc, most.saturating_add(1), text, end)?;
        let wanted = End::Fails {
            rule: 21,
            line: *line,
        };
        if past != wanted {
            return Ok(Some((*text, past)));
        }
    }
    Ok(None)
}

#[test]
fn counts_go_over_one_past_the_limit(rt: HostRuntime) -> Result<(), Fail> {
    assert_eq!(rt; miscounted(rt.alloc(), &COUNTED)?, None);
    Ok(())
}
