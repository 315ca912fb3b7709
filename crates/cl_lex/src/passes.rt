//! Strings that follow each other.
ghost use Rattle.std.specs.Prelude.{◌≡◌, ◌++◌, true, IfOk};
ghost use Rattle.cl_tree.specs.Tokens.{both_text, text_of, joined};
ghost use Rattle.cl_tree.specs.declared.token.Lexeme.TheVariants.{Text};

use cl_tree::bytes::Bytes;
use cl_tree::token::{Lexeme, Token};
use std::alloc::{AllocError, Global};

/// Whether both are strings.
fn both_text(u: &Lexeme, t: &Lexeme) -> bool
    ensures { result ≡ both_text u.now t.now }
{
    matches!(u, Lexeme::Text(_)) && matches!(t, Lexeme::Text(_))
}

/// One string of two.
fn glue(u: Lexeme, t: Lexeme) -> Result<Lexeme, AllocError>
    requires { both_text u t ≡ true }
    ensures { IfOk result (λ l. l ≡ Text (text_of u ++ text_of t)) }
{
    match (u, t) {
        (Lexeme::Text(a), Lexeme::Text(b)) => {
            let mut bytes = a.into_vec();
            bytes.extend_from_slice(b.as_slice())?;
            Ok(Lexeme::Text(Bytes::of(bytes)))
        }
        (u, _) => Ok(u),
    }
}

/// Strings side by side as one.
pub fn join_strings(alloc: Global, tokens: Vec<Token>) -> Result<Vec<Token>, AllocError>
    ensures { IfOk result (λ v. v.items ≡ joined tokens.items) }
{
    let mut out = Vec::new(alloc);
    let mut rest = tokens.into_iter();
    let Some(first) = rest.next() else {
        return Ok(out);
    };
    let mut last = first;
    for t in rest {
        if both_text(&last.what, &t.what) {
            let Token {
                line,
                start,
                end: _,
                what,
            } = last;
            let Token {
                line: _,
                start: _,
                end,
                what: more,
            } = t;
            last = Token {
                line,
                start,
                end,
                what: glue(what, more)?,
            };
        } else {
            out.push(last)?;
            last = t;
        }
    }
    out.push(last)?;
    Ok(out)
}
