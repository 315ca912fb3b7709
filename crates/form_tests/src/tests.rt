// Sources and their programs, by tables.

use cl_base::limits::SOURCE_BYTES;
use cl_base::name::Name;
use cl_form::form::{one_reading, read_form};
use cl_mean::checked::{Checked, GedlRow};
use cl_mean::labels::Operation;
use cl_tree::kinds::{BinOp, IntKind};
use cl_tree::token::Pragma;
use cl_tree::tree::{Act, CType, Expr, Item, Node, Stmt};
use std::alloc::Global;
use std::test::Fail;

fn show_number(alloc: Global, out: &mut String, number: u64) -> Result<(), Fail> {
    let text = format!(in alloc; "{number}")?;
    out.push_str(text.as_str())?;
    Ok(())
}

// The two lines of a node.
fn show_lines(alloc: Global, out: &mut String, line: u32, second: u32) -> Result<(), Fail> {
    let text = format!(in alloc; "{line}.{second}")?;
    out.push_str(text.as_str())?;
    Ok(())
}

fn show_operator(alloc: Global, out: &mut String, op: BinOp, line: u32) -> Result<(), Fail> {
    let text = format!(in alloc; " {op:?}@{line} ")?;
    out.push_str(text.as_str())?;
    Ok(())
}

// An expression with its lines: `5@2` is a literal of line 2, and `[a -@3 b]@2` begins on line 2.
#[cycle(show)]
fn show_expr(alloc: Global, out: &mut String, e: &Expr) -> Result<(), Fail> {
    match &e.node {
        Node::Number {
            value,
            kind: IntKind::I32,
        } => {
            show_number(alloc, out, *value)?;
            out.push_str("@")?;
            show_lines(alloc, out, e.line, e.second)?;
        }
        Node::Paren(inner) => {
            out.push_str("(@")?;
            show_lines(alloc, out, e.line, e.second)?;
            out.push_str(" ")?;
            show_expr(alloc, out, inner.get())?;
            out.push_str(")")?;
        }
        Node::Binary(op, left, right) => {
            out.push_str("[@")?;
            show_number(alloc, out, u64::from(e.line))?;
            out.push_str(" ")?;
            show_expr(alloc, out, left.get())?;
            show_operator(alloc, out, *op, e.second)?;
            show_expr(alloc, out, right.get())?;
            out.push_str("]")?;
        }
        Node::Variable(name) => {
            out.push_str(name.text())?;
            out.push_str("@")?;
            show_lines(alloc, out, e.line, e.second)?;
        }
        Node::Call(name, arguments) => {
            out.push_str(name.text())?;
            out.push_str("@")?;
            show_lines(alloc, out, e.line, e.second)?;
            out.push_str("{")?;
            show_all(alloc, out, arguments.as_slice())?;
            out.push_str("}")?;
        }
        _ => out.push_str("?")?,
    }
    Ok(())
}

#[cycle(show)]
fn show_all(alloc: Global, out: &mut String, all: &[Expr]) -> Result<(), Fail> {
    for e in all {
        show_expr(alloc, out, e)?;
    }
    Ok(())
}

fn show_set(alloc: Global, out: &mut String, place: &Expr, value: &Expr) -> Result<(), Fail> {
    show_expr(alloc, out, place)?;
    out.push_str(" = ")?;
    show_expr(alloc, out, value)
}

fn show_stmt(alloc: Global, out: &mut String, s: &Stmt) -> Result<(), Fail> {
    match &s.node {
        Act::Call(e) => show_expr(alloc, out, e),
        Act::Return(Some(e)) => {
            out.push_str("return ")?;
            show_expr(alloc, out, e)
        }
        Act::Set {
            op: None,
            place,
            value,
        } => show_set(alloc, out, place, value),
        _ => Ok(out.push_str("?")?),
    }
}

fn show_stmts(alloc: Global, out: &mut String, all: &[Stmt]) -> Result<(), Fail> {
    for s in all {
        out.push_str(" ")?;
        show_lines(alloc, out, s.line, s.second)?;
        out.push_str(" ")?;
        show_stmt(alloc, out, s)?;
        out.push_str(";")?;
    }
    Ok(())
}

fn show_pragma(alloc: Global, out: &mut String, pragma: &Pragma, line: u32) -> Result<(), Fail> {
    match pragma {
        Pragma::Def(name, text) => {
            out.push_str("def ")?;
            out.push_str(name.text())?;
            out.push_str(" ")?;
            show_number(alloc, out, text.as_slice().len() as u64)?;
        }
        Pragma::Next(name) => {
            out.push_str("next ")?;
            out.push_str(name.text())?;
        }
        _ => return Ok(out.push_str("?")?),
    }
    out.push_str("@")?;
    show_number(alloc, out, u64::from(line))?;
    out.push_str("|")?;
    Ok(())
}

fn show_item(alloc: Global, out: &mut String, item: &Item) -> Result<(), Fail> {
    match item {
        Item::Cle(pragma, line) => show_pragma(alloc, out, pragma, *line),
        Item::Function {
            is_static: false,
            result: CType::Integer(IntKind::I32),
            name,
            void_word: true,
            params,
            body: Some(body),
            line,
            second,
        } => {
            out.push_str(name.text())?;
            out.push_str(" ")?;
            show_number(alloc, out, params.len() as u64)?;
            out.push_str("@")?;
            show_lines(alloc, out, *line, *second)?;
            out.push_str(":")?;
            show_stmts(alloc, out, body.as_slice())
        }
        _ => Ok(out.push_str("?")?),
    }
}

// The levels and the items.
fn program_of(alloc: Global, c: &Checked) -> Result<String, Fail> {
    let mut out = String::new(alloc);
    for level in c.labels.levels.as_slice() {
        out.push_str(level.text())?;
        out.push_str("|")?;
    }
    for item in c.typed.program.items.as_slice() {
        show_item(alloc, &mut out, item)?;
    }
    Ok(out)
}

// What is read is held in this, `facts` and `item_count` alone, each with one exit, since the proof of each exit drops
// the whole tree.
fn shown(alloc: Global, source: &[u8]) -> Result<String, Fail> {
    if source.len() > SOURCE_BYTES {
        return Ok(String::new(alloc));
    }
    match read_form(alloc, source) {
        Ok(c) => program_of(alloc, &c),
        Err(stop) => Ok(format!(in alloc; "{stop:?}")?),
    }
}

// Whether the source is shown so.
fn is_shown(alloc: Global, source: &str, wanted: &str) -> Result<bool, Fail> {
    let shown = shown(alloc, source.as_bytes())?;
    Ok(shown.as_str() == wanted)
}

// Whether the source is of no form.
fn is_refused(alloc: Global, source: &str) -> Result<bool, Fail> {
    is_shown(alloc, source, "NoReading")
}

const HEAD: &str = "#pragma cle def P {\"level\":\"purple\"}\n";

/// What stands behind the first line, and the statements of `main` as they are shown.
const READ: [(&str, &str); 6] = [
    (
        "int main(void) { putchar(72); return 0; }",
        " 2.2 putchar@2.2{72@2.2}; 2.2 return 0@2.2;",
    ),
    ("int main(void){}\n\t \n", ""),
    (
        "int main(void) { return 2 - 3 - 4; }",
        " 2.2 return [@2 [@2 2@2.2 Sub@2 3@2.2] Sub@2 4@2.2];",
    ),
    (
        "int main(void) { return 2 - (3 - 4); }",
        " 2.2 return [@2 2@2.2 Sub@2 (@2.2 [@2 3@2.2 Sub@2 4@2.2])];",
    ),
    (
        "int main(void) { return(2+3*4); }",
        " 2.2 return (@2.2 [@2 2@2.2 Add@2 [@2 3@2.2 Mul@2 4@2.2]]);",
    ),
    (
        "int main(void) {\nreturn\n2\n*\n3\n+\n2147483647;}",
        " 3.3 return [@4 [@4 2@4.4 Mul@5 3@6.6] Add@7 2147483647@8.8];",
    ),
];

// Whether the source behind the first line is read, with these statements of `main`.
fn is_read(alloc: Global, rest: &str, statements: &str) -> Result<bool, Fail> {
    let source = format!(in alloc; "{HEAD}{rest}")?;
    let wanted = format!(in alloc; "purple|def P 18@1|main 0@2.2:{statements}")?;
    is_shown(alloc, source.as_str(), wanted.as_str())
}

#[test]
fn reads_programs(rt: HostRuntime) -> Result<(), Fail> {
    one_reading();
    for row in &READ {
        let (rest, statements) = *row;
        assert!(rt; is_read(rt.alloc(), rest, statements)?, "at {rest:?}");
    }
    Ok(())
}

/// What is of no form behind the first line.
const OTHERS: [&str; 18] = [
    "int main(void) {\r\n}",
    "int main(void) {\u{c}}",
    "int main(void) { /* */ }",
    "int main() {}",
    "intmain(void) {}",
    "int main(void) { return 007; }",
    "int main(void) { return 2147483648; }",
    "int main(void) { return 1u; }",
    "int main(void) { return1; }",
    "int main(void) {} x",
    "int main(void) { return x; }",
    "int main(void) { ;; }",
    "int main(void) { return (); }",
    "int main(void) { return 1 }",
    "int main(void) { return - 1; }",
    "signed main(void) {}",
    "int32_t main(void) {}",
    "",
];

// Whether the first line and the rest are of no form.
fn are_refused(alloc: Global, first: &str, rest: &str) -> Result<bool, Fail> {
    let source = format!(in alloc; "{first}{rest}")?;
    is_refused(alloc, source.as_str())
}

#[test]
fn refuses_others(rt: HostRuntime) -> Result<(), Fail> {
    for rest in OTHERS {
        assert!(rt; are_refused(rt.alloc(), HEAD, rest)?, "at {rest:?}");
    }
    Ok(())
}

/// First lines, and whether a form begins so.
const FIRST_LINES: [(&str, bool); 11] = [
    (
        "#pragma cle def int {\"level\":\"a2345678901234567890123456789012\"}\n",
        true,
    ),
    ("#pragma cle def _1 {\"level\":\"A\"}\n", true),
    (
        "#pragma cle def P {\"level\":\"a23456789012345678901234567890123\"}\n",
        false,
    ),
    ("#pragma cle def P {\"level\":\"\"}\n", false),
    ("#pragma cle def P {\"level\":\"1a\"}\n", false),
    ("#pragma cle def P {\"level\":\"a_b\"}\n", false),
    ("#pragma cle def  P {\"level\":\"a\"}\n", false),
    ("#pragma cle def P {\"level\":\"a\"} \n", false),
    ("#pragma cle def 1P {\"level\":\"a\"}\n", false),
    ("#pragma cle def P {\"level\":\"a\"}", false),
    ("", false),
];

#[test]
fn reads_first_lines(rt: HostRuntime) -> Result<(), Fail> {
    for row in &FIRST_LINES {
        let (line, wanted) = *row;
        let refused = are_refused(rt.alloc(), line, "int main(void){}")?;
        assert_eq!(rt; !refused, wanted, "at {line:?}");
    }
    assert!(rt; is_refused(rt.alloc(), "")?);
    Ok(())
}

fn add(out: &mut String, part: &str, count: u32) -> Result<(), Fail> {
    for _ in 0..count {
        out.push_str(part)?;
    }
    Ok(())
}

fn repeated(
    alloc: Global,
    before: &str,
    part: &str,
    count: u32,
    behind: &str,
) -> Result<String, Fail> {
    let mut out = String::new(alloc);
    out.push_str(HEAD)?;
    out.push_str(before)?;
    add(&mut out, part, count)?;
    out.push_str(behind)?;
    Ok(out)
}

fn show_fact(
    alloc: Global,
    out: &mut String,
    name: &Name,
    item: u32,
    line: u32,
) -> Result<(), Fail> {
    let name = name.text();
    let one = format!(in alloc; "{name} {item}@{line}|")?;
    out.push_str(one.as_str())?;
    Ok(())
}

// The functions and the objects, with their items and lines.
fn show_typed(alloc: Global, out: &mut String, c: &Checked) -> Result<(), Fail> {
    for f in c.typed.functions.as_slice() {
        show_fact(alloc, out, &f.name, f.item, f.line)?;
    }
    for o in c.typed.objects.as_slice() {
        show_fact(alloc, out, &o.name, o.item, o.line)?;
    }
    Ok(())
}

fn show_numbers(alloc: Global, out: &mut String, numbers: &[u32]) -> Result<(), Fail> {
    for n in numbers {
        let one = format!(in alloc; "{n} ")?;
        out.push_str(one.as_str())?;
    }
    out.push_str("|")?;
    Ok(())
}

fn show_row(alloc: Global, out: &mut String, row: &GedlRow) -> Result<(), Fail> {
    let from = row.from;
    let to = row.to;
    let function = row.function;
    let name = row.name.text();
    let label = row.label.text();
    let ends = format!(in alloc; "{from}>{to} {function} {name} {label} ")?;
    out.push_str(ends.as_str())?;
    let operation: Operation = row.operation;
    let count = row.args.len();
    let request = row.request;
    let reply = row.reply;
    let oneway = row.oneway;
    let frames = format!(in alloc; "{operation:?} {count} {request} {reply} {oneway}|")?;
    out.push_str(frames.as_str())?;
    Ok(())
}

// What the checks say of a source: functions, objects, levels and rows.
fn facts_of(alloc: Global, c: &Checked) -> Result<String, Fail> {
    let mut out = String::new(alloc);
    show_typed(alloc, &mut out, c)?;
    show_numbers(alloc, &mut out, c.levels.of_functions.as_slice())?;
    show_numbers(alloc, &mut out, c.levels.of_objects.as_slice())?;
    for row in c.gedl.rows.as_slice() {
        show_row(alloc, &mut out, row)?;
    }
    Ok(out)
}

fn facts(alloc: Global, source: &[u8]) -> Result<String, Fail> {
    if source.len() > SOURCE_BYTES {
        return Ok(String::new(alloc));
    }
    match read_form(alloc, source) {
        Ok(c) => facts_of(alloc, &c),
        Err(_) => Ok(String::new(alloc)),
    }
}

const PAIR: &str =
    "#pragma cle def PURPLE {\"level\":\"purple\"}\n#pragma cle def ORANGE {\"level\":\"orange\"}\n#pragma cle def RESP {\"level\":\"purple\"}\n#pragma cle def GETA {\"level\":\"orange\",\"cdf\":[{\"remotelevel\":\"purple\",\"direction\":\"bidirectional\",\"guarddirective\":{\"operation\":\"allow\"},\"argtaints\":[],\"codtaints\":[\"ORANGE\"],\"rettaints\":[\"RESP\"]}]}\n#pragma cle ORANGE\nint a;\n#pragma cle GETA\nint f(void) { a = a + 1; return a; }\nint main(void) { putchar(48 + f()); return 0; }\n";

fn replaced(alloc: Global, source: &str, old: &str, new: &str) -> Result<String, Fail> {
    let mut out = String::new(alloc);
    for (i, piece) in source.split(old).enumerate() {
        if i != 0 {
            out.push_str(new)?;
        }
        out.push_str(piece)?;
    }
    Ok(out)
}

/// A text, what stands in its place, and the row that there is then.
const READ_PAIRS: [(&str, &str, &str); 3] = [
    ("RESP", "RESP", "0>1 0 f GETA Allow 0 0 4 false|"),
    ("f()", "( f\t( ) )\n*2", "0>1 0 f GETA Allow 0 0 4 false|"),
    ("48 + f()", "48", ""),
];

/// How the source of two levels is shown.
const PAIR_SHOWN: &str =
    "purple|orange|def PURPLE 18@1|def ORANGE 18@2|def RESP 18@3|def GETA 177@4|next ORANGE@5|?next GETA@7|f 0@8.8: 8.8 a@8.8 = [@8 a@8.8 Add@8 1@8.8]; 8.8 return a@8.8;main 0@9.9: 9.9 putchar@9.9{[@9 48@9.9 Add@9 f@9.9{}]}; 9.9 return 0@9.9;";

// Whether a text in the place of another leaves two levels, with this row.
fn has_row(alloc: Global, old: &str, new: &str, row: &str) -> Result<bool, Fail> {
    let source = replaced(alloc, PAIR, old, new)?;
    let wanted = format!(in alloc; "f 7@8|main 8@9|a 5@6|1 0 |1 |{row}")?;
    let found = facts(alloc, source.as_bytes())?;
    Ok(found.as_str() == wanted.as_str())
}

#[test]
fn reads_two_levels(rt: HostRuntime) -> Result<(), Fail> {
    assert!(rt; is_shown(rt.alloc(), PAIR, PAIR_SHOWN)?);
    for row in &READ_PAIRS {
        let (old, new, wanted) = *row;
        assert!(rt; has_row(rt.alloc(), old, new, wanted)?, "at {new:?}");
    }
    Ok(())
}

/// A text, and what stands in its place, so that the source is of no form.
const OTHER_PAIRS: [(&str, &str); 17] = [
    ("orange", "purple"),
    ("RESP", "PURPLE"),
    ("GETA", "f"),
    ("PURPLE", "def"),
    ("return a; }", "a = 2; }"),
    ("a = a + 1; return a;", ""),
    ("f()", "f(1)"),
    ("a + 1", "a + f()"),
    ("return 0", "return a"),
    ("cle ORANGE\n", "cle  ORANGE\n"),
    ("int a;", "int a ;"),
    ("int f", "signed f"),
    ("int main", "int32_t main"),
    ("RESP {", "RESQ {"),
    ("48", "048"),
    ("#pragma cle ORANGE", "#pragma cle PURPLE"),
    ("argtaints\":[]", "argtaints\":[[]]"),
];

// Whether a text in the place of another leaves a source of no form.
fn spoils(alloc: Global, old: &str, new: &str) -> Result<bool, Fail> {
    let source = replaced(alloc, PAIR, old, new)?;
    is_refused(alloc, source.as_str())
}

#[test]
fn refuses_other_pairs(rt: HostRuntime) -> Result<(), Fail> {
    for row in &OTHER_PAIRS {
        let (old, new) = *row;
        assert!(rt; spoils(rt.alloc(), old, new)?, "at {new:?}");
    }
    Ok(())
}

/// Two changes, for both of which the source is of no form.
const CHANGED_TWICE: [(&str, &str, &str, &str); 3] = [
    (
        "int a;",
        "int main;",
        "a = a + 1; return a;",
        "main = main + 1; return main;",
    ),
    ("int f(", "int putchar(", "f())", "putchar())"),
    // The other order of the second and the third line.
    (
        "ORANGE {\"level\":\"orange\"}\n#pragma cle def ",
        "",
        "GETA {",
        "ORANGE {\"level\":\"orange\"}\n#pragma cle def GETA {",
    ),
];

// Whether the two changes leave a source of no form.
fn spoil(alloc: Global, row: &(&str, &str, &str, &str)) -> Result<bool, Fail> {
    let (old, new, then, last) = *row;
    let once = replaced(alloc, PAIR, old, new)?;
    let twice = replaced(alloc, once.as_str(), then, last)?;
    is_refused(alloc, twice.as_str())
}

#[test]
fn refuses_changed_twice(rt: HostRuntime) -> Result<(), Fail> {
    for row in &CHANGED_TWICE {
        assert!(rt; spoil(rt.alloc(), row)?);
    }
    Ok(())
}

/// What stands before a text that is repeated, the text, what stands in the middle, a text that is repeated as often,
/// what stands behind it, how often, and whether that is read. `return`, 1 and 255 times `+ 1` are 512 tokens.
const LIMITS: [(&str, &str, &str, &str, &str, u32, bool); 4] = [
    ("int main(void){return 1", "+1", "", "", ";}", 255, true),
    ("int main(void){putchar(1", "+1", "", "", ");}", 255, false),
    ("int main(void){return ", "(", "1", ")", ";}", 63, true),
    ("int main(void){return ", "(", "1", ")", ";}", 64, false),
];

fn is_over(alloc: Global, row: &(&str, &str, &str, &str, &str, u32, bool)) -> Result<bool, Fail> {
    let (before, part, middle, other, behind, count, _) = *row;
    let mut source = repeated(alloc, before, part, count, middle)?;
    add(&mut source, other, count)?;
    source.push_str(behind)?;
    is_refused(alloc, source.as_str())
}

#[test]
fn keeps_limits(rt: HostRuntime) -> Result<(), Fail> {
    for row in &LIMITS {
        assert_eq!(rt; !is_over(rt.alloc(), row)?, row.6);
    }
    Ok(())
}

fn item_count(alloc: Global, source: &[u8]) -> Option<usize> {
    if source.len() > SOURCE_BYTES {
        return None;
    }
    match read_form(alloc, source) {
        Ok(c) => Some(c.typed.program.items.len()),
        Err(_) => None,
    }
}

#[test]
fn reads_a_mebibyte(rt: HostRuntime) -> Result<(), Fail> {
    let alloc = rt.alloc();
    let source = repeated(alloc, "int main(void){", "return (1+2)*3-4;\n", 58000, "}")?;
    assert_eq!(rt; item_count(alloc, source.as_bytes()), Some(2));
    Ok(())
}
