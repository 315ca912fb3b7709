// The punctuators.

use super::shown::shown;
use std::alloc::Global;
use std::test::Fail;

// C11 6.4.6.
const MARKS: [(&str, &str); 48] = [
    ("(", "OpenParen"),
    (")", "CloseParen"),
    ("[", "OpenBracket"),
    ("]", "CloseBracket"),
    ("{", "OpenBrace"),
    ("}", "CloseBrace"),
    (";", "Semicolon"),
    (",", "Comma"),
    (".", "Dot"),
    ("->", "Arrow"),
    ("...", "Ellipsis"),
    ("=", "Assign"),
    ("+=", "PlusAssign"),
    ("-=", "MinusAssign"),
    ("*=", "StarAssign"),
    ("/=", "SlashAssign"),
    ("%=", "PercentAssign"),
    ("<<=", "LeftAssign"),
    (">>=", "RightAssign"),
    ("&=", "AmpAssign"),
    ("|=", "BarAssign"),
    ("^=", "CaretAssign"),
    ("++", "PlusPlus"),
    ("--", "MinusMinus"),
    ("+", "Plus"),
    ("-", "Minus"),
    ("*", "Star"),
    ("/", "Slash"),
    ("%", "Percent"),
    ("~", "Tilde"),
    ("!", "Bang"),
    ("&", "Amp"),
    ("|", "Bar"),
    ("^", "Caret"),
    ("<<", "LeftShift"),
    (">>", "RightShift"),
    ("<", "Less"),
    (">", "Greater"),
    ("<=", "AtMost"),
    (">=", "AtLeast"),
    ("==", "Equal"),
    ("!=", "Unequal"),
    ("&&", "AmpAmp"),
    ("||", "BarBar"),
    ("?", "Question"),
    (":", "Colon"),
    ("##", "HashHash"),
    ("#", "Hash"),
];

// The first punctuator that is another token behind a name.
fn differs_behind_name<'a>(
    alloc: Global,
    rows: &'a [(&str, &str)],
) -> Result<Option<&'a str>, Fail> {
    for (text, mark) in rows {
        let source = format!(in alloc; "a {text}")?;
        let n = source.len();
        let whole = format!(in alloc; "1:0-1 a;1:2-{n} {mark};")?;
        if shown(alloc, source.as_str())?.as_str() != whole.as_str() {
            return Ok(Some(text));
        }
    }
    Ok(None)
}

#[test]
fn each_punctuator_is_a_token(rt: HostRuntime) -> Result<(), Fail> {
    let alloc = rt.alloc();
    assert_eq!(rt; differs_behind_name(alloc, &MARKS)?, None);
    Ok(())
}
