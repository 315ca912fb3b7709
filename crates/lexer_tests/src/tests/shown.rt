// Tokens as text, and the first row of a table that is shown otherwise than it says.

use cl_base::limits::SOURCE_BYTES;
use cl_lex::lex::{LexStop, lex};
use cl_tree::token::{Lexeme, Pragma, Token};
use std::alloc::Global;
use std::test::Fail;

fn pragma_shown(alloc: Global, pragma: &Pragma) -> Result<String, Fail> {
    let (word, name) = match pragma {
        Pragma::Def(name, text) => {
            let name = name.text();
            let text = text.as_slice();
            return Ok(format!(in alloc; "Def {name} {text:?}")?);
        }
        Pragma::Begin(name) => ("Begin", name.text()),
        Pragma::End(name) => ("End", name.text()),
        Pragma::Next(name) => ("Next", name.text()),
    };
    Ok(format!(in alloc; "{word} {name}")?)
}

fn lexeme(alloc: Global, what: &Lexeme) -> Result<String, Fail> {
    match what {
        Lexeme::Word(name) => Ok(String::from_str(alloc, name.text())?),
        Lexeme::Integer { value, kind } => Ok(format!(in alloc; "{value} {kind:?}")?),
        Lexeme::Floating => Ok(String::from_str(alloc, "Floating")?),
        Lexeme::Letter(b) => Ok(format!(in alloc; "Letter {b}")?),
        Lexeme::Text(bytes) => {
            let text = bytes.as_slice();
            Ok(format!(in alloc; "Text {text:?}")?)
        }
        Lexeme::Mark(mark) => Ok(format!(in alloc; "{mark:?}")?),
        Lexeme::Cle(pragma) => pragma_shown(alloc, pragma),
    }
}

// Line, start, end, and what.
fn token_shown(alloc: Global, token: &Token) -> Result<String, Fail> {
    let line = token.line;
    let start = token.start;
    let end = token.end;
    let what = lexeme(alloc, &token.what)?;
    Ok(format!(in alloc; "{line}:{start}-{end} {what};")?)
}

fn all_shown(alloc: Global, tokens: &[Token]) -> Result<String, Fail> {
    let mut out = String::new(alloc);
    for token in tokens {
        let one = token_shown(alloc, token)?;
        out.push_str(one.as_str())?;
    }
    Ok(out)
}

/// The tokens in short, or the rule that the source breaks and its line.
pub fn shown(alloc: Global, source: &str) -> Result<String, Fail> {
    let bytes = source.as_bytes();
    if bytes.len() > SOURCE_BYTES {
        return Ok(String::new(alloc));
    }
    match lex(alloc, bytes) {
        Ok(tokens) => all_shown(alloc, tokens.as_slice()),
        Err(LexStop::NoMemory) => Ok(String::from_str(alloc, "memory")?),
        Err(LexStop::Rule { rule, line }) => Ok(format!(in alloc; "E0{rule} {line}")?),
    }
}

/// The first source whose tokens are not those of its row.
pub fn differs<'a>(alloc: Global, rows: &'a [(&str, &str)]) -> Result<Option<&'a str>, Fail> {
    for (source, wanted) in rows {
        if shown(alloc, source)?.as_str() != *wanted {
            return Ok(Some(source));
        }
    }
    Ok(None)
}

/// The first source that is not the one token of its row.
pub fn single_differs<'a>(
    alloc: Global,
    rows: &'a [(&str, &str)],
) -> Result<Option<&'a str>, Fail> {
    for (source, wanted) in rows {
        let n = source.len();
        let whole = format!(in alloc; "1:0-{n} {wanted};")?;
        if shown(alloc, source)?.as_str() != whole.as_str() {
            return Ok(Some(source));
        }
    }
    Ok(None)
}

/// The first source that the rule of literals doesn't refuse.
pub fn passes<'a>(alloc: Global, sources: &'a [&str]) -> Result<Option<&'a str>, Fail> {
    for source in sources {
        if shown(alloc, source)?.as_str() != "E07 1" {
            return Ok(Some(source));
        }
    }
    Ok(None)
}
