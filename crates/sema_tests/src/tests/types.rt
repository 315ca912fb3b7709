// E20: each rule on types broken once, and the nearest program that keeps it. That variables, members and parameters
// aren't `void`, and what a result may be, is kept by the grammar and by E08 and E09.

use super::{End, ends_otherwise, misjudged};
use std::test::Fail;

/// What the statements use: structs, a function without a result, one of an integer, one of a struct, and an array.
const ITEMS: &str = "struct s { int n; int m[2]; }; struct t { int n; }; void g(void) { } \
int h(long a) { return 1; } struct s j(void) { struct s a; return a; } int k[2] = {1, 2}; int main(void);";

/// Operands, conditions, indexes, casts and members.
const WRONG_EXPRESSIONS: [&str; 33] = [
    "n = v;",
    "n = g();",
    "n = k + 1;",
    "n = -v;",
    "n = !j();",
    "n = v[v];",
    "n = n[0];",
    "n = v[0][0];",
    "n = f;",
    "n = printf;",
    "n = n ? v : v;",
    "n = v ? 1 : 2;",
    "n = 1 && v;",
    "n = 1 << g();",
    "n = (int)v;",
    "n = (void)n;",
    "struct s a; a = (struct s)a;",
    "struct s a; n = a.x;",
    "n = n.n;",
    "struct s a[2]; n = a.n;",
    "n = \"a\"[0];",
    "n = \"a\";",
    "if (v) ;",
    "while (g()) ;",
    "do ; while (v);",
    "for (; v;) ;",
    "n();",
    "main();",
    "n = main();",
    "n = putchar(1);",
    "h(printf(\"a\"));",
    "h(g());",
    "getchar(1);",
];

/// Stores, initialisers, arguments and what else stands in a body.
const WRONG_STATEMENTS: [&str; 52] = [
    "v = v;",
    "int w[2][2]; w[0] = w[1];",
    "3 = n;",
    "h(1) = n;",
    "j().n = 1;",
    "f(n, v)++;",
    "v++;",
    "struct s a; a = n;",
    "struct s a; struct t b; a = b;",
    "struct s a; n = a;",
    "struct s a; a++;",
    "struct s a; a += 1;",
    "v += 1;",
    "struct s a = {1, {1, 2}, 3};",
    "struct s a = {1, {1, 2, 3}};",
    "struct s a = 1;",
    "int a = {1};",
    "int a[2] = 1;",
    "int a[2] = v;",
    "int a[2] = {1, 2, 3};",
    "int a[2] = {{1}, 2};",
    "int a[0];",
    "int a[2][0];",
    "static int a = n;",
    "static int a = h(1);",
    "static struct s a = j();",
    "static int a = 0 && n;",
    "static int a = 1 ? 2 : n;",
    "static int a = 1 / 0;",
    "static int a = 1 << 32;",
    "static int a = -1 << 1;",
    "static int a = 2147483647 + 1;",
    "static int a[2] = {1, 1 % 0};",
    "f(n);",
    "f(n, v, n);",
    "f(v, v);",
    "f(n, n);",
    "f(n, v[0]);",
    "f(n, j().m);",
    "int w[3]; f(n, w);",
    "int w[1][2]; f(n, w);",
    "unsigned int w[2]; f(n, w);",
    "putchar();",
    "putchar(1, 2);",
    "putchar(v);",
    "putchar(\"a\");",
    "return;",
    "return v;",
    "return g();",
    "for (static int i = 0;;) ;",
    "if (n) break;",
    "{ continue; }",
];

/// The format of `printf` and its arguments; the types of arguments show what operators give.
const WRONG_FORMATS: [&str; 23] = [
    "printf(n);",
    "printf();",
    "printf((\"x\"));",
    "printf(\"%d\");",
    "printf(\"%d\", n, n);",
    "printf(\"%d\", 1l);",
    "printf(\"%ld\", n);",
    "printf(\"%lld\", 1l);",
    "printf(\"%ld\", 1ll);",
    "printf(\"%d\\n\", -2147483648);",
    "printf(\"%d\", 1u + 1l);",
    "printf(\"%ld\", 1 << 1l);",
    "printf(\"%ld\", 1l == 1l);",
    "printf(\"%ld\", 'a');",
    "printf(\"%5d\", n);",
    "printf(\"%\");",
    "printf(\"%l\", 1l);",
    "printf(\"%lc\", 1l);",
    "printf(\"%s\", \"a\");",
    "printf(\"a\\0b\");",
    "printf(\"%d\", v);",
    "printf(\"%d\", g());",
    "printf(\"%d\", j());",
];

const RIGHT: [&str; 52] = [
    ";",
    "n = v[0];",
    "v[0] = v[1];",
    "g();",
    "n = k[1] + 1;",
    "n = -v[0];",
    "n = v[v[0]];",
    "(n) = 1;",
    "(v[1])++;",
    "n = j().n; n = j().m[1];",
    "struct s a; a = j(); a = (a);",
    "struct s a; struct s b; a = b;",
    "struct s a; n = a.n; a.m[0] = 1; a.n++;",
    "struct s a; a.m[0] += 1;",
    "struct s a[2]; n = a[1].n; a[0] = a[1];",
    "struct s a = {1, {1, 2}};",
    "struct s a = {1};",
    "struct s a = j();",
    "struct s a; struct s b[2] = {a};",
    "int a[2] = {1, 2};",
    "int a[2][2] = {{1}, {2, 3}};",
    "int a[1];",
    "static int a = 1 ? 2 : 1 / 0;",
    "static int a = 0 && 1 / 0;",
    "static int a = 1 || 1 / 0;",
    "static int a = (char)300 + 'a' * -2;",
    "static int a = -2147483648;",
    "static unsigned int a = 4294967295u + 1u;",
    "static int a = 1 << 30;",
    "static int a[2] = {1, 1 % 1};",
    "static struct s a = {1, {2}};",
    "f(n, v);",
    "f(n, (v));",
    "struct s a; f(n, a.m);",
    "int w[3][2]; f(n, w[2]);",
    "h(n); h(1ull); n = h(h(1)); h('a');",
    "n = getchar(); getchar();",
    "printf(\"\"); printf(\"%%\");",
    "printf(\"%d %u %x %c\\n\", n, 1u, 'a', n);",
    "printf(\"%ld\\n\", -2147483648);",
    "printf(\"%ld %lu %lx\\n\", 1l, 1ul, 1u + 1l);",
    "printf(\"%lld %llu %llx\\n\", 1ll, 1ull, 1ll);",
    "printf(\"%d%d%d\", 1 << 1l, 1l == 1l, 1u);",
    "short a = 1; printf(\"%d\", a);",
    "putchar(n); putchar(1ll);",
    "return n;",
    "return (char)n;",
    "if (n) ; while (n) break; do continue; while (n); for (; n;) break;",
    "for (int i = 0, j = 1; i < j; i++) { if (n) { break; } }",
    "for (;;) { { break; } }",
    "n = n ? 1 : v[0];",
    "unsigned long a = 1; n = a + n;",
];

/// A statement on line 3 is wrong at its own line.
const WRONG: End = End::Fails { rule: 20, line: 3 };

#[test]
fn expressions_break_rules_of_types(rt: HostRuntime) -> Result<(), Fail> {
    assert_eq!(rt;
        ends_otherwise(rt.alloc(), ITEMS, &WRONG_EXPRESSIONS, WRONG)?,
        None
    );
    Ok(())
}

#[test]
fn statements_break_rules_of_types(rt: HostRuntime) -> Result<(), Fail> {
    assert_eq!(rt;
        ends_otherwise(rt.alloc(), ITEMS, &WRONG_STATEMENTS, WRONG)?,
        None
    );
    Ok(())
}

#[test]
fn formats_break_rules_of_types(rt: HostRuntime) -> Result<(), Fail> {
    assert_eq!(rt;
        ends_otherwise(rt.alloc(), ITEMS, &WRONG_FORMATS, WRONG)?,
        None
    );
    Ok(())
}

#[test]
fn the_nearest_statements_keep_the_rules(rt: HostRuntime) -> Result<(), Fail> {
    assert_eq!(rt;
        ends_otherwise(rt.alloc(), ITEMS, &RIGHT, End::Typed)?,
        None
    );
    Ok(())
}

/// Items from line 2 on, and the line of what is wrong in them.
const WRONG_ITEMS: [(&str, u8, u32); 19] = [
    (
        "int f(void) {\ndo {\nbreak; } while (1);\ncontinue; }",
        20,
        5,
    ),
    (
        "int f(int v[2]) {\nif (1) {\nreturn\nv; } return 0; }",
        20,
        4,
    ),
    ("int f(int v[2]) {\ndo {\nv = v; }\nwhile (v); }", 20, 3),
    ("int f(int v[2]) {\nfor (\nint i = v;\nv; i++) { } }", 20, 3),
    (
        "int f(int v[2]) {\nfor (\nint i = v; i < 1; i++) { } }",
        20,
        4,
    ),
    ("int f(int v[2]) {\nif (v)\nreturn v; }", 20, 3),
    ("int f(int v[2]) {\nint a,\nb = v; }", 20, 3),
    ("int a[0];", 20, 2),
    ("struct s {\nint a[0]; };", 20, 2),
    ("int\na, b = a;", 20, 2),
    ("int f(void);\nlong f(void);", 20, 3),
    ("int f(int a);\nint f(void) { return 0; }", 20, 3),
    ("int f(int a);\nint\nf(long a);", 20, 3),
    ("int f(int v[2]);\nint f(int v[3]);", 20, 3),
    ("int f(int v[2][3]);\nint f(int v[2]);", 20, 3),
    ("int f(int v[0]);", 20, 2),
    ("void f(void) {\nreturn 1; }", 20, 3),
    ("void f(void) { }\nvoid g(void) {\nreturn f(); }", 20, 4),
    ("int main(void);\nint f(void) { return main(); }", 20, 3),
];

#[test]
fn wrong_types_are_told_by_statement_or_item(rt: HostRuntime) -> Result<(), Fail> {
    assert_eq!(rt; misjudged(rt.alloc(), &WRONG_ITEMS)?, None);
    Ok(())
}
