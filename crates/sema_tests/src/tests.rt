// Sources in tables, each in a constant, since a table within a test makes its proof slow. What is wanted comes from
// C11 and the rules of the profile.

mod facts;
mod limits;
mod names;
mod programs;
mod types;

use cl_base::limits::SOURCE_BYTES;
use cl_mean::checked::Typed;
use cl_read::read::read_source;
use cl_sema::resolve::resolve;
use cl_sema::stop::SemaStop;
use std::alloc::{AllocError, Global};

/// How a source ends.
#[derive(Clone, Copy, Debug, PartialEq, Eq)]
enum End {
    Typed,
    Fails { rule: u8, line: u32 },
    Unread,
    NoMemory,
}

fn typed(alloc: Global, source: &str) -> Result<Typed, End> {
    let bytes = source.as_bytes();
    if bytes.len() > SOURCE_BYTES {
        return Err(End::Unread);
    }
    let Ok(program) = read_source(alloc, bytes) else {
        return Err(End::Unread);
    };
    match resolve(alloc, program) {
        Ok(typed) => Ok(typed),
        Err(SemaStop::Rule { rule, line }) => Err(End::Fails { rule, line }),
        Err(SemaStop::NoMemory) => Err(End::NoMemory),
    }
}

fn end_of(alloc: Global, source: &str) -> End {
    match typed(alloc, source) {
        Ok(_) => End::Typed,
        Err(end) => end,
    }
}

/// A label on line 1, a text from line 2 on, and `main` behind it.
fn program(alloc: Global, before: &str, text: &str, behind: &str) -> Result<String, AllocError> {
    let mut source = String::from_str(alloc, "#pragma cle def P {\"level\":\"purple\"}\n")?;
    source.push_str(before)?;
    source.push_str(text)?;
    source.push_str(behind)?;
    source.push_str("\nint main(void) { return 0; }\n")?;
    Ok(source)
}

/// The first row whose items, from line 2 on, don't fail the rule at the line.
fn misjudged(
    alloc: Global,
    rows: &[(&'static str, u8, u32)],
) -> Result<Option<(&'static str, End)>, AllocError> {
    for (items, rule, line) in rows {
        let source = program(alloc, "", items, "")?;
        let end = end_of(alloc, source.as_str());
        let wanted = End::Fails {
            rule: *rule,
            line: *line,
        };
        if end != wanted {
            return Ok(Some((*items, end)));
        }
    }
    Ok(None)
}

/// The first statement that ends otherwise in `int f(int n, int v[2])` on line 3, behind items on line 2.
fn ends_otherwise(
    alloc: Global,
    items: &str,
    statements: &[&'static str],
    wanted: End,
) -> Result<Option<(&'static str, End)>, AllocError> {
    let mut before = String::from_str(alloc, items)?;
    before.push_str("\nint f(int n, int v[2]) { ")?;
    for statement in statements {
        let source = program(alloc, before.as_str(), statement, " return 0; }")?;
        let end = end_of(alloc, source.as_str());
        if end != wanted {
            return Ok(Some((*statement, end)));
        }
    }
    Ok(None)
}
