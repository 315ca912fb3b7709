// Pointers, floating types, second declarations, unknown names, and the order of the rules.

use super::{End, ends_otherwise, misjudged};
use std::test::Fail;

/// Items from line 2 on, the rule that they fail, and its line.
const FAILING: [(&str, u8, u32); 37] = [
    ("int *p;", 8, 2),
    ("int\n*p;", 8, 3),
    ("int a; int f(int *p);", 8, 2),
    ("int f(void) {\nreturn *3; }", 8, 3),
    ("int f(void) { return x\n->y; }", 8, 3),
    ("double x;", 9, 2),
    ("int a;\nint *p; double x;", 8, 3),
    ("int a = 1.5;", 9, 2),
    ("int f(void) { return (\ndouble)1; }", 9, 3),
    ("int a; int a;", 19, 2),
    ("int a;\nint\na;", 19, 4),
    ("int f(int a, int a);", 19, 2),
    ("int f(int a) {\nint a; return 0; }", 19, 3),
    (
        "int f(void) { for (int i = 0;;) { } }\nint f(void);\nint f(void) { return 0; }",
        19,
        4,
    ),
    ("int f;\nint f(void);", 19, 3),
    ("int f(void);\nint f;", 19, 3),
    ("int printf;", 19, 2),
    ("int putchar(int c);", 19, 2),
    ("int f(int getchar);", 19, 2),
    ("struct s { int a; };\nstruct s { int b; };", 19, 3),
    ("struct s { int a;\nint a; };", 19, 3),
    ("int f(void) { return x; }", 18, 2),
    ("int f(void) { return\nx; }", 18, 3),
    (
        "int f(void) { return g(1); }\nint g(int a) { return a; }",
        18,
        2,
    ),
    ("int g(int a);\nint f(void) { return g(1); }", 18, 3),
    ("struct s {\nstruct s a; };", 18, 3),
    ("struct s a;", 18, 2),
    ("int f(void) { { int i; }\ni = 1; return 0; }", 18, 3),
    (
        "int f(void) { for (int i = 0; i < 1; i++) { }\nreturn i; }",
        18,
        3,
    ),
    (
        "int f(int a) { return 0; }\nint g(void) { return a; }",
        18,
        3,
    ),
    // an earlier rule comes first, wherever its place is
    ("int f(void) { return x; }\nint a; int a;", 19, 3),
    ("int a; int a;\nint f(void) { return 1.5; }", 9, 3),
    ("float a;\nint *p;", 8, 3),
    ("int f(void) {\nbreak; }\nint g(void) { return x; }", 18, 4),
    ("int a[70000];\nint f(void) { break; }", 20, 3),
    ("int main(int a);\nint a[70000];", 20, 4),
    // a function's name where no function is meant is known
    (
        "int f(void) { return 1 + f; }\nint g(void) { return x; }",
        18,
        3,
    ),
];

#[test]
fn the_first_rule_and_its_line_are_told(rt: HostRuntime) -> Result<(), Fail> {
    assert_eq!(rt; misjudged(rt.alloc(), &FAILING)?, None);
    Ok(())
}

const STRUCT: &str = "struct s { int n; int m[2]; };";

/// Statements that use names as they may.
const PASSING: [&str; 11] = [
    "{ int n; n = 1; }",
    "{ int v; v = n; }",
    "int m = m;",
    "int a = 1, b = a;",
    "for (int i = 0; i < n; i++) { int i; i = 2; }",
    "for (int i = 0; i < n; i++) ; for (int i = 0; i < n; i++) ;",
    "static int k = 3; k++;",
    "f(n, v);",
    "n = getchar();",
    "struct s a; a.n = a.m[1];",
    "int s = 1; s = s;",
];

#[test]
fn names_are_used_as_they_may(rt: HostRuntime) -> Result<(), Fail> {
    assert_eq!(rt;
        ends_otherwise(rt.alloc(), STRUCT, &PASSING, End::Typed)?,
        None
    );
    Ok(())
}
