// Sources that are refused, by which rule and at which line.

use super::read;
use cl_read::stop::ReadStop;
use std::alloc::Global;
use std::test::Fail;

// The first source that is not refused by the rule and at the line of its row.
fn differs<'a>(alloc: Global, rows: &'a [(&str, u8, u32)]) -> Option<&'a str> {
    for (source, rule, line) in rows {
        let (rule, line) = (*rule, *line);
        if read(alloc, source).err() != Some(ReadStop::Refused { rule, line }) {
            return Some(source);
        }
    }
    None
}

// An item without a reading is refused by E06, at the line where it begins.
const ITEMS: [(&str, u8, u32); 24] = [
    ("int a", 6, 1),
    ("\nint\na", 6, 2),
    ("int f(int);", 6, 1),
    ("int f(int v[]) { }", 6, 1),
    ("int f(int a, ...);", 6, 1),
    ("int a[] = {1};", 6, 1),
    ("int a = {};", 6, 1),
    ("int a[1] = {1,};", 6, 1),
    ("int a = sizeof b;", 6, 1),
    ("int a = b++;", 6, 1),
    ("int a = b = c;", 6, 1),
    ("int a = (1, 2);", 6, 1),
    ("int a = f()();", 6, 1),
    ("struct s { };", 6, 1),
    ("struct s { int a; } b;", 6, 1),
    ("typedef int t;", 6, 1),
    ("t a;", 6, 1),
    ("static static int a;", 6, 1),
    ("int while;", 6, 1),
    ("int f(void) { };", 6, 1),
    (";", 6, 1),
    ("}", 6, 1),
    ("int a;\nint b;\n\nint c = ;\nint d", 6, 4),
    ("int a;\n)\n\nint b;\nint c", 6, 2),
];

// A lexical rule goes before all that the reader finds, wherever it stands.
const LEXICAL: [(&str, u8, u32); 6] = [
    ("int a = \n\u{7};", 2, 2),
    ("int a;\nint b @;", 3, 2),
    ("int a;\n\n/* int b;", 4, 3),
    ("int a;\n#if 1\nint b;", 5, 2),
    ("int a = 08;", 7, 1),
    ("int a\n\n@", 3, 3),
];

// Statements without a reading.
const STATEMENTS: [&str; 32] = [
    "switch (a) { }",
    "a = b = c;",
    "f(), g();",
    "a, b;",
    "5 + 1;",
    "a;",
    "*a;",
    "(f());",
    "a + b = c;",
    "++a++;",
    "goto a;",
    "a: ;",
    "if (a)",
    "if a ;",
    "else ;",
    "while () ;",
    "do ; while (a)",
    "for (;) ;",
    "for (a; b; c) ;",
    "for (;; int a = 1) ;",
    "for (;;) int a;",
    "if (a) int b;",
    "return 1, 2;",
    "return int;",
    "break 1;",
    "continue",
    "int;",
    "int f(void);",
    "struct s { int a; };",
    "a[] = 1;",
    "a. = 1;",
    "(int) = 1;",
];

// The first statement that is read in the body of a function, which begins on line 2.
fn passes<'a>(alloc: Global, statements: &'a [&str]) -> Result<Option<&'a str>, Fail> {
    let stop = ReadStop::Refused { rule: 6, line: 2 };
    for statement in statements {
        let source = format!(in alloc; "int a;\nint main(void) {{\n{statement}\n}}")?;
        if read(alloc, source.as_str()).err() != Some(stop) {
            return Ok(Some(statement));
        }
    }
    Ok(None)
}

#[test]
fn items_are_refused_where_they_begin(rt: HostRuntime) {
    let alloc = rt.alloc();
    assert_eq!(rt; differs(alloc, &ITEMS), None);
}

#[test]
fn lexical_rules_go_first(rt: HostRuntime) {
    let alloc = rt.alloc();
    assert_eq!(rt; differs(alloc, &LEXICAL), None);
}

#[test]
fn statements_are_refused(rt: HostRuntime) -> Result<(), Fail> {
    let alloc = rt.alloc();
    assert_eq!(rt; passes(alloc, &STATEMENTS)?, None);
    Ok(())
}
