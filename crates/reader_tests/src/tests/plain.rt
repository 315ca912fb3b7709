// A source spelled with its lines, and small trees that no source brings, judged.

use super::read;
use cl_base::name::{Name, NoMemory};
use cl_plain::examples;
use cl_plain::expressions::{spelled_expr, well_formed_expr};
use cl_plain::items::{spelled, well_formed};
use cl_plain::statements::well_formed_stmt;
use cl_plain::wanted::{Want, Wanted};
use cl_tree::grammar::{Keyword, Sign};
use cl_tree::kinds::{BinOp, IntKind};
use cl_tree::token::Mark;
use cl_tree::tree::{Act, CType, Expr, Item, Node, Program, Stmt};
use sqlite_items::{Boxed, Items};
use std::alloc::{AllocError, Global};
use std::test::Fail;

fn expr(alloc: Global, line: u32, node: Node) -> Result<Boxed<Expr>, NoMemory> {
    let second = line;
    let e = Boxed::new(alloc, Expr { line, second, node })?;
    Ok(e)
}

fn stmt(alloc: Global, node: Act) -> Result<Boxed<Stmt>, NoMemory> {
    let line = 1;
    let second = 1;
    let s = Boxed::new(alloc, Stmt { line, second, node })?;
    Ok(s)
}

fn number(alloc: Global, line: u32, value: u64) -> Result<Boxed<Expr>, NoMemory> {
    let kind = IntKind::I32;
    expr(alloc, line, Node::Number { value, kind })
}

fn variable(alloc: Global, name: &str) -> Result<Boxed<Expr>, NoMemory> {
    let name = Name::of(alloc, name)?;
    expr(alloc, 1, Node::Variable(name))
}

fn binary(
    alloc: Global,
    op: BinOp,
    left: Boxed<Expr>,
    right: Boxed<Expr>,
) -> Result<Boxed<Expr>, NoMemory> {
    expr(alloc, 1, Node::Binary(op, left, right))
}

// 1 - 2 - 3
fn left_first(alloc: Global) -> Result<Boxed<Expr>, NoMemory> {
    let one = number(alloc, 1, 1)?;
    let two = number(alloc, 1, 2)?;
    let first = binary(alloc, BinOp::Sub, one, two)?;
    let three = number(alloc, 1, 3)?;
    binary(alloc, BinOp::Sub, first, three)
}

// 1 - (2 - 3), without the parentheses
fn right_first(alloc: Global) -> Result<Boxed<Expr>, NoMemory> {
    let one = number(alloc, 1, 1)?;
    let two = number(alloc, 1, 2)?;
    let three = number(alloc, 1, 3)?;
    let second = binary(alloc, BinOp::Sub, two, three)?;
    binary(alloc, BinOp::Sub, one, second)
}

fn one<T: Drop>(alloc: Global, item: Boxed<T>) -> Result<Items<T>, NoMemory> {
    let mut items = Items::new(alloc);
    items.push(item.into_inner())?;
    Ok(items)
}

fn choice(
    alloc: Global,
    name: &str,
    first: Boxed<Stmt>,
    other: Option<Boxed<Stmt>>,
) -> Result<Boxed<Stmt>, NoMemory> {
    let test = variable(alloc, name)?;
    stmt(alloc, Act::If(test.into_inner(), first, other))
}

// if (a) ; else if (b) ; else ;
fn chain(alloc: Global) -> Result<Boxed<Stmt>, NoMemory> {
    let last = stmt(alloc, Act::Empty)?;
    let middle = stmt(alloc, Act::Empty)?;
    let other = choice(alloc, "b", middle, Some(last))?;
    let first = stmt(alloc, Act::Empty)?;
    choice(alloc, "a", first, Some(other))
}

// if (a) if (b) ; else ;, with the `else` taken by the first `if`
fn dangling(alloc: Global) -> Result<Boxed<Stmt>, NoMemory> {
    let inner = stmt(alloc, Act::Empty)?;
    let first = choice(alloc, "b", inner, None)?;
    let other = stmt(alloc, Act::Empty)?;
    choice(alloc, "a", first, Some(other))
}

// int NAME(void) BODY
fn function(alloc: Global, name: &str, body: Items<Stmt>) -> Result<Boxed<Item>, NoMemory> {
    let name = Name::of(alloc, name)?;
    let item = Boxed::new(
        alloc,
        Item::Function {
            is_static: false,
            result: CType::Integer(IntKind::I32),
            name,
            void_word: true,
            params: Items::new(alloc),
            body: Some(body),
            line: 1,
            second: 1,
        },
    )?;
    Ok(item)
}

fn named(alloc: Global, name: &str) -> Result<Program, NoMemory> {
    let item = function(alloc, name, Items::new(alloc))?;
    let items = one(alloc, item)?;
    Ok(Program { items })
}

fn mark_text(mark: Mark) -> &'static str {
    match mark {
        Mark::OpenParen => "(",
        Mark::CloseParen => ")",
        Mark::OpenBracket => "[",
        Mark::CloseBracket => "]",
        Mark::OpenBrace => "{",
        Mark::CloseBrace => "}",
        Mark::Semicolon => ";",
        Mark::Comma => ",",
        Mark::Assign => "=",
        Mark::PlusPlus => "++",
        Mark::Minus => "-",
        Mark::Star => "*",
        Mark::Less => "<",
        _ => "another mark",
    }
}

fn key_text(key: Keyword) -> &'static str {
    match key {
        Keyword::Struct => "struct",
        Keyword::Void => "void",
        Keyword::If => "if",
        Keyword::Else => "else",
        Keyword::For => "for",
        _ => "another keyword",
    }
}

fn show_what(alloc: Global, text: &mut String, what: &Want) -> Result<(), AllocError> {
    match what {
        Want::Is(Sign::Name(name)) => text.push_str(name.text()),
        Want::Is(Sign::Key(key)) => text.push_str(key_text(*key)),
        Want::Is(Sign::Kind(IntKind::I32)) => text.push_str("int"),
        Want::Is(Sign::Mark(mark)) => text.push_str(mark_text(*mark)),
        Want::Is(Sign::Integer { value, .. }) => text.push_str(&format!(in alloc; "{value}")?),
        Want::Size(size) => text.push_str(&format!(in alloc; "{size}")?),
        _ => text.push_str("another terminal"),
    }
}

// `@` and each line, one that is kept twice in a row once
fn show_lines(alloc: Global, text: &mut String, lines: &[u32]) -> Result<(), AllocError> {
    let mut shown = 0;
    for line in lines {
        if *line != shown {
            text.push_str(&format!(in alloc; "@{line}")?)?;
        }
        shown = *line;
    }
    Ok(())
}

// each terminal, with its lines, and a space behind it
fn shown(alloc: Global, terminals: &[Wanted]) -> Result<String, AllocError> {
    let mut text = String::new(alloc);
    for terminal in terminals {
        show_what(alloc, &mut text, &terminal.what)?;
        show_lines(alloc, &mut text, terminal.lines.as_slice())?;
        text.push_str(" ")?;
    }
    Ok(text)
}

fn expr_text(alloc: Global, e: &Expr) -> Result<String, NoMemory> {
    let terminals = spelled_expr(alloc, e)?;
    Ok(shown(alloc, terminals.as_slice())?)
}

// Sources with their terminals, and the lines that the tree keeps of each.
const SPELLED: [(&str, &str); 3] = [
    (
        "int\n*\na[3],\nb =\n1;\nstruct s {\nint x; };",
        "int@1 *@2 a@3 [ 3 ] , b@4 = 1@5 ; struct@6 s { int x@7 ; } ; ",
    ),
    (
        "int f(void) { for (i = 0; i < 3; i++) ; }",
        "int@1 f@1 ( void ) { for@1 ( i@1 =@1 0@1 ; i@1 <@1 3@1 ; i@1 ++@1 ) ;@1 } ",
    ),
    (
        "int\nf(void) { if (a) ; else if (b) ; else ; }",
        "int@1 f@2 ( void ) { if@2 ( a@2 ) ;@2 else if@2 ( b@2 ) ;@2 else ;@2 } ",
    ),
];

// What is read of a source, spelled. (A program is held by functions with few exits, since each drops the whole tree.)
fn spelled_source(alloc: Global, source: &str) -> Result<Items<Wanted>, Fail> {
    let program = read(alloc, source)?;
    Ok(spelled(alloc, &program)?)
}

fn is_spelled(alloc: Global, source: &str, wanted: &str) -> Result<bool, Fail> {
    let terminals = spelled_source(alloc, source)?;
    let text = shown(alloc, terminals.as_slice())?;
    Ok(text.as_str() == wanted)
}

// The first source that is spelled otherwise.
fn differs<'a>(alloc: Global, rows: &'a [(&str, &str)]) -> Result<Option<&'a str>, Fail> {
    for (source, wanted) in rows {
        if !is_spelled(alloc, source, wanted)? {
            return Ok(Some(source));
        }
    }
    Ok(None)
}

#[test]
fn programs_are_spelled_with_their_lines(rt: HostRuntime) -> Result<(), Fail> {
    let alloc = rt.alloc();
    assert_eq!(rt; differs(alloc, &SPELLED)?, None);
    Ok(())
}

// Whether the expressions that are grouped to the left and to the right are well-formed.
fn left_judged(alloc: Global) -> Result<bool, NoMemory> {
    let left = left_first(alloc)?;
    Ok(well_formed_expr(left.get()))
}

fn right_judged(alloc: Global) -> Result<bool, NoMemory> {
    let right = right_first(alloc)?;
    Ok(well_formed_expr(right.get()))
}

fn left_text(alloc: Global) -> Result<String, NoMemory> {
    let left = left_first(alloc)?;
    expr_text(alloc, left.get())
}

#[test]
fn operands_bind_to_the_left(rt: HostRuntime) -> Result<(), Fail> {
    assert!(rt; left_judged(rt.alloc())?);
    assert!(rt; !right_judged(rt.alloc())?);
    let text = left_text(rt.alloc())?;
    assert_eq!(rt; text.as_str(), "1@1 -@1 2@1 -@1 3@1 ");
    Ok(())
}

fn chain_judged(alloc: Global) -> Result<bool, NoMemory> {
    let chain = chain(alloc)?;
    Ok(well_formed_stmt(chain.get()))
}

fn dangling_judged(alloc: Global) -> Result<bool, NoMemory> {
    let dangling = dangling(alloc)?;
    Ok(well_formed_stmt(dangling.get()))
}

#[test]
fn an_else_belongs_to_the_nearest_if(rt: HostRuntime) -> Result<(), Fail> {
    assert!(rt; chain_judged(rt.alloc())?);
    assert!(rt; !dangling_judged(rt.alloc())?);
    Ok(())
}

const NAMES: [(&str, bool); 4] = [("f", true), ("while", false), ("int", false), ("2f", false)];

fn judged(alloc: Global, name: &str) -> Result<bool, NoMemory> {
    let program = named(alloc, name)?;
    well_formed(alloc, &program)
}

// The first name with which a function is judged otherwise.
fn misjudged<'a>(alloc: Global, rows: &'a [(&str, bool)]) -> Result<Option<&'a str>, NoMemory> {
    for (name, wanted) in rows {
        if judged(alloc, name)? != *wanted {
            return Ok(Some(name));
        }
    }
    Ok(None)
}

#[test]
fn reserved_words_are_no_names(rt: HostRuntime) -> Result<(), Fail> {
    let alloc = rt.alloc();
    assert_eq!(rt; misjudged(alloc, &NAMES)?, None);
    Ok(())
}

#[test]
fn the_examples_hold(_rt: HostRuntime) {
    examples::conversions();
    examples::divisions();
    examples::shifts();
    examples::wraps();
    examples::signs();
    examples::differences();
    examples::any_lines();
    examples::nearest_if();
    examples::item_ends();
    examples::inner_braces();
    examples::cut_short();
}
