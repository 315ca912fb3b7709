// What expressions are read as (C11 6.5, 6.4.4).

use super::read;
use super::shown::show;
use cl_tree::tree::{Act, Declarator, Expr, Init, Item, Program, Stmt};
use std::alloc::{AllocError, Global};
use std::test::Fail;

fn initial(names: &[Declarator]) -> Option<&Expr> {
    match names {
        [name] => match &name.init {
            Some(Init::One(value)) => Some(value),
            _ => None,
        },
        _ => None,
    }
}

fn returned(body: &[Stmt]) -> Option<&Expr> {
    match body {
        [only] => match &only.node {
            Act::Return(Some(value)) => Some(value),
            _ => None,
        },
        _ => None,
    }
}

// The one value of a program of one item.
fn value(program: &Program) -> Option<&Expr> {
    match program.items.as_slice() {
        [Item::Variables(declaration)] => initial(declaration.names.as_slice()),
        [
            Item::Function {
                body: Some(body),
                ..
            },
        ] => returned(body.as_slice()),
        _ => None,
    }
}

fn shown(alloc: Global, program: &Program) -> Result<String, AllocError> {
    let mut out = String::new(alloc);
    if let Some(value) = value(program) {
        show(alloc, &mut out, value)?;
    }
    Ok(out)
}

fn value_in(alloc: Global, source: &str) -> Result<String, Fail> {
    let program = read(alloc, source)?;
    Ok(shown(alloc, &program)?)
}

fn value_of(alloc: Global, expression: &str) -> Result<String, Fail> {
    let source = format!(in alloc; "int a = {expression};")?;
    value_in(alloc, source.as_str())
}

// The first source whose value is another than its row says.
fn source_differs<'a>(alloc: Global, rows: &'a [(&str, &str)]) -> Result<Option<&'a str>, Fail> {
    for (source, wanted) in rows {
        if value_in(alloc, source)?.as_str() != *wanted {
            return Ok(Some(source));
        }
    }
    Ok(None)
}

// The first initialiser that is another value than its row says.
fn differs<'a>(alloc: Global, rows: &'a [(&str, &str)]) -> Result<Option<&'a str>, Fail> {
    for (expression, wanted) in rows {
        if value_of(alloc, expression)?.as_str() != *wanted {
            return Ok(Some(expression));
        }
    }
    Ok(None)
}

const SOURCES: [(&str, &str); 5] = [
    ("int main(void) { return 1 - 2 - 3; }", "Sub(Sub(1, 2), 3)"),
    ("int a = 0x80000000;", "2147483648:U32"),
    ("int a = 2147483648;", "2147483648:Long"),
    ("int a = 0xffffffffffffffff;", "18446744073709551615:ULong"),
    ("#define N 7u\nlong a = N;", "7:U32"),
];

const GROUPS: [(&str, &str); 10] = [
    ("b - (c - d)", "Sub(b, Paren(Sub(c, d)))"),
    ("b / c % d * e", "Mul(Rem(Div(b, c), d), e)"),
    ("b << c >> d", "Right(Left(b, c), d)"),
    ("b != c == d", "Equal(Unequal(b, c), d)"),
    (
        "b < c > d <= e >= f",
        "AtLeast(AtMost(Greater(Less(b, c), d), e), f)",
    ),
    (
        "b || c && d | e ^ f & g == h < i << j + k * l",
        "Or(b, And(c, BitOr(d, Xor(e, BitAnd(f, Equal(g, Less(h, Left(i, Add(j, Mul(k, l))))))))))",
    ),
    (
        "b * c + d << e < f == g & h ^ i | j && k || l",
        "Or(And(BitOr(Xor(BitAnd(Equal(Less(Left(Add(Mul(b, c), d), e), f), g), h), i), j), k), l)",
    ),
    ("b ? c : d ? e : f", "Choice(b, c, Choice(d, e, f))"),
    ("b ? c ? d : e : f", "Choice(b, Choice(c, d, e), f)"),
    ("b || c ? d : e", "Choice(Or(b, c), d, e)"),
];

const OPERANDS: [(&str, &str); 14] = [
    ("(int)b * c", "Mul(Cast(I32, b), c)"),
    ("(int)-b", "Cast(I32, Minus(b))"),
    ("-(int)b", "Minus(Cast(I32, b))"),
    ("(b) - c", "Sub(Paren(b), c)"),
    ("(struct s **)(void *)b", "Cast(s**, Cast(void*, b))"),
    ("(unsigned char)b[1]", "Cast(U8, Index(b, 1))"),
    ("!~+- -b", "Not(Flip(Plus(Minus(Minus(b)))))"),
    ("*&b[1]", "Star(Amp(Index(b, 1)))"),
    ("-b[1].c->d", "Minus(Arrow(Member(Index(b, 1), c), d))"),
    (
        "f() + g(b, h(c), 1)[2]",
        "Add(Call(f), Index(Call(g b Call(h c) 1), 2))",
    ),
    ("'A' + 1.5", "Add(Letter 65, Real)"),
    ("\"a\" \"b\"", "Text [97, 98]"),
    ("b & &c", "BitAnd(b, Amp(c))"),
    ("b - -1", "Sub(b, Minus(1))"),
];

#[test]
fn whole_sources_are_read(rt: HostRuntime) -> Result<(), Fail> {
    let alloc = rt.alloc();
    assert_eq!(rt; source_differs(alloc, &SOURCES)?, None);
    Ok(())
}

#[test]
fn operators_bind_by_their_levels(rt: HostRuntime) -> Result<(), Fail> {
    let alloc = rt.alloc();
    assert_eq!(rt; differs(alloc, &GROUPS)?, None);
    Ok(())
}

#[test]
fn operands_are_read(rt: HostRuntime) -> Result<(), Fail> {
    let alloc = rt.alloc();
    assert_eq!(rt; differs(alloc, &OPERANDS)?, None);
    Ok(())
}
