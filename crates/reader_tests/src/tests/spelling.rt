// The spelling of what a source is read as is the source's tokens again, on the lines that the tree keeps.

use super::read;
use cl_base::limits::SOURCE_BYTES;
use cl_lex::lex::lex;
use cl_parse::reader::parse;
use cl_plain::items::{spelled, well_formed};
use cl_plain::wanted::{Want, Wanted};
use cl_terminals::terminals::terminals;
use cl_tree::grammar::{Sign, Terminal};
use cl_tree::token::Token;
use sqlite_items::Items;
use std::alloc::{AllocError, Global};
use std::test::Fail;

fn is_sign(alloc: Global, wanted: &Sign, found: &Sign) -> Result<bool, AllocError> {
    let wanted = format!(in alloc; "{wanted:?}")?;
    let found = format!(in alloc; "{found:?}")?;
    Ok(wanted.as_str() == found.as_str())
}

fn is_wanted(alloc: Global, want: &Want, found: &Sign) -> Result<bool, AllocError> {
    match (want, found) {
        (Want::Is(sign), _) => is_sign(alloc, sign, found),
        (Want::Size(size), Sign::Integer { value, .. }) => Ok(size == value),
        _ => Ok(false),
    }
}

fn stands(lines: &[u32], line: u32) -> bool {
    lines.iter().all(|kept| *kept == line)
}

// Where the terminals first differ, or which of the two is longer.
fn difference(
    alloc: Global,
    wanted: &[Wanted],
    found: &[Terminal],
) -> Result<Option<usize>, AllocError> {
    for (i, want) in wanted.iter().enumerate() {
        let Some(terminal) = found.get(i) else {
            return Ok(Some(i));
        };
        if !is_wanted(alloc, &want.what, &terminal.what)? {
            return Ok(Some(i));
        }
        if !stands(want.lines.as_slice(), terminal.line) {
            return Ok(Some(i));
        }
    }
    if found.len() > wanted.len() {
        return Ok(Some(wanted.len()));
    }
    Ok(None)
}

fn spelled_tokens(alloc: Global, tokens: &[Token]) -> Result<Items<Wanted>, Fail> {
    let program = parse(alloc, tokens)?;
    Ok(spelled(alloc, &program)?)
}

fn spelled_again(alloc: Global, tokens: &[Token]) -> Result<Option<usize>, Fail> {
    let wanted = spelled_tokens(alloc, tokens)?;
    let found = terminals(alloc, tokens)?;
    Ok(difference(alloc, wanted.as_slice(), found.as_slice())?)
}

fn changed(alloc: Global, source: &str) -> Result<Option<usize>, Fail> {
    let bytes = source.as_bytes();
    if bytes.len() > SOURCE_BYTES {
        return Ok(Some(0));
    }
    let tokens = lex(alloc, bytes)?;
    spelled_again(alloc, tokens.as_slice())
}

fn is_well_formed(alloc: Global, source: &str) -> Result<bool, Fail> {
    let program = read(alloc, source)?;
    Ok(well_formed(alloc, &program)?)
}

// Between them these use each form of item, statement and expression.
const SOURCES: [&str; 31] = [
    "",
    "#pragma cle def P {\t\"level\":\"purple\"}\nint a;\n",
    "#pragma cle def P {\"level\":\"p\"}\n#pragma cle P\nint a;\n#pragma cle begin Q\n#pragma cle end Q\n",
    "struct s {\n  int a, *b[2][3];\n  struct t *\nc;\n};",
    "static int a = 1,\n *b = &a,\n **c[2] = {&b, {d}};",
    "unsigned long long\na[2][2] = {{1, 2},\n{3, 4u}};",
    "double d = 1.5;\nfloat *e;",
    "struct s t;\nstatic struct s *u[4];",
    "int f();\nint g(void);\nstatic void *h(int a, struct s *b,\n uint8_t\nc[2]);",
    "int h(int a,\n struct s *b);",
    "void f(void) { }",
    "static struct s\n*f() {\n;\n{ ; { } }\n}",
    "long double f(void) { return 1.5; }",
    "void f(void) {\n#pragma cle begin P\na = 1;\n#pragma cle end P\n#pragma cle Q\nint b;\n}",
    "void f(void) { int a, *b = &a; static int c[2] = {1,\n2}; struct s d; }",
    "void f(void) { a = 1; b += 2; c -= 3; d *= 4; e /= 5; g %= 6; }",
    "void f(void) { a <<= 1; b >>= 2; c &= 3; d |= 4; e ^= 5; *p =\n1; a[1]\n= 2; }",
    "void f(void) { a++; b--; ++c; --\nd; *p++; ++*p; a.b++; }",
    "void f(void) { g(); g(1); g(1,\nh(2, 3)); }",
    "int f(void) { return; return 1;\nreturn\n(1); }",
    "void f(void) { if (a) ; if (a) b = 1; else b = 2; }",
    "void f(void) { if (a) if (b) ; else ; if (a) { if (b) ; } else\n; }",
    "void f(void) { if (a) b(); else if (c) d(); else e(); }",
    "void f(void) { while (a) while (b) { continue; } }",
    "void f(void) { do ; while (a); do { break; } while\n(b); }",
    "void f(void) { for (;;) ; for (a = 1;;) ; for (; a;) ; for (;; a++) ; }",
    "void f(void) { for (int i = 0, *j; i < 3; i += 1) g(i); for (f();; --a) { } }",
    "int a = b || c && d | e ^ f & g == h != i;",
    "int a = b < c > d <= e >= f << g >> h + i - j * k / l % m;",
    "int a = b\n? (c)\n: d ? 'e' : \"f\" \"g\";",
    "int a = (int)-b + (struct s *)\n+c * ~d - !*e->f\n.g[h\n][1] & &i / (void *) j;",
];

// The first source whose reading is spelled otherwise, or is not well-formed.
fn differs<'a>(alloc: Global, sources: &'a [&str]) -> Result<Option<&'a str>, Fail> {
    for source in sources {
        if changed(alloc, source)?.is_some() || !is_well_formed(alloc, source)? {
            return Ok(Some(source));
        }
    }
    Ok(None)
}

#[test]
fn what_is_read_is_spelled_again(rt: HostRuntime) -> Result<(), Fail> {
    let alloc = rt.alloc();
    assert_eq!(rt; differs(alloc, &SOURCES)?, None);
    Ok(())
}
