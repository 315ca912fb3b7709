//! The items of a program, and what stands in them.

ghost use Rattle.std.specs.Prelude.{◌≡◌, IfOk, IfSome, true};
ghost use Rattle.cl_tree.specs.declared.tree.Declarator.{Declarator as DeclaratorValue};
ghost use Rattle.cl_form.specs.Form.{is_level};
ghost use Rattle.cl_form.specs.Reading.{Finds, Gives, behind, before, level_of, is_int_type, def_at, is_def, is_next, level_def, plain_name, one_name, variable_of, function_of};

use crate::shape::is_int;
use crate::stop::FormStop;
use crate::text::is_level;
use cl_base::name::{Name, NoMemory};
use cl_tree::token::Pragma;
use cl_tree::tree::{CType, Declarator, Item, Stmt};
use cl_tree::words::same;
use std::alloc::Global;

/// What follows a text that stands first.
#[tactic(auto, unfolding(crate::specs::Reading::behind))]
pub fn behind<'a>(part: &[u8], text: &'a [u8]) -> Option<&'a [u8]>
    ensures { Finds (λ x. x.now) result (behind part.now text.now) }
{
    text.strip_prefix(part)
}

/// What stands before a text that stands last.
#[tactic(auto, unfolding(crate::specs::Reading::before))]
fn before<'a>(part: &[u8], text: &'a [u8]) -> Option<&'a [u8]>
    ensures { Finds (λ x. x.now) result (before part.now text.now) }
{
    text.strip_suffix(part)
}

/// The level of a text `{"level":"LEVEL"}`.
#[tactic(auto, unfolding(crate::specs::Reading::level_of))]
fn level_of(text: &[u8]) -> Option<&[u8]>
    ensures found { Finds (λ x. x.now) result (level_of text.now) }
    ensures level { IfSome result (λ x. is_level x.now ≡ true) }
{
    let rest = behind(b"{\"level\":\"".as_slice(), text)?;
    let level = before(b"\"}".as_slice(), rest)?;
    if is_level(level) { Some(level) } else { None }
}

/// The name and the text of a line that defines a label, if it is this line.
pub fn def_at(line: u32, item: &Item) -> Option<(&Name, &[u8])>
    ensures { Finds (λ x. (x.0.now, x.1.now)) result (def_at line item.now) }
{
    match item {
        Item::Cle(Pragma::Def(name, text), at) => {
            if *at == line {
                Some((name, text.as_slice()))
            } else {
                None
            }
        }
        _ => None,
    }
}

/// Does this line define this label by this text?
pub fn is_def(line: u32, name: &Name, text: &[u8], item: &Item) -> bool
    ensures { result ≡ is_def line name.now text.now item.now }
{
    match item {
        Item::Cle(Pragma::Def(called, as_text), at) => {
            *at == line && called == name && same(as_text.as_slice(), text)
        }
        _ => false,
    }
}

/// Does this line give the next item this label?
pub fn is_next(line: u32, name: &Name, item: &Item) -> bool
    ensures { result ≡ is_next line name.now item.now }
{
    match item {
        Item::Cle(Pragma::Next(called), at) => *at == line && called == name,
        _ => false,
    }
}

#[tactic(auto, using(crate::proofs::Levels::level_is_text))]
fn name_of(alloc: Global, level: &[u8]) -> Result<Name, NoMemory>
    requires { is_level level.now ≡ true }
    ensures { IfOk result (λ n. n ≡ level.now) }
{
    Name::of(alloc, str::from_utf8(level).unwrap())
}

/// The label and the level of a line that defines a label of a level, if it is this line.
#[tactic(auto, unfolding(crate::specs::Reading::level_def))]
pub fn level_def(alloc: Global, line: u32, item: &Item) -> Result<(Name, Name), FormStop>
    ensures { Gives (λ x. (x.0, x.1)) result (level_def line item.now) }
{
    let Some((name, text)) = def_at(line, item) else {
        return Err(FormStop::NoReading);
    };
    let Some(level) = level_of(text) else {
        return Err(FormStop::NoReading);
    };
    let label = name.copy(alloc)?;
    Ok((label, name_of(alloc, level)?))
}

fn is_int_type(t: &CType) -> bool
    ensures { result ≡ is_int_type t.now }
{
    match t {
        CType::Integer(kind) => is_int(*kind),
        _ => false,
    }
}

fn plain_name(d: &Declarator) -> Option<&Name>
    ensures { Finds (λ x. x.now) result (plain_name d.now) }
{
    if is_int_type(&d.ctype) && d.init.is_none() && d.line == 6 && d.second == 6 {
        Some(&d.name)
    } else {
        None
    }
}

fn one_name(all: &[Declarator]) -> Option<&Name>
    ensures { Finds (λ x. x.now) result (one_name all.now) }
{
    match all {
        [d] => plain_name(d),
        _ => None,
    }
}

/// The variable of a line `int NAME;` that is the sixth.
pub fn variable_of(item: &Item) -> Option<&Name>
    ensures { Finds (λ x. x.now) result (variable_of item.now) }
{
    match item {
        Item::Variables(d) => {
            if d.is_static {
                None
            } else {
                one_name(d.names.as_slice())
            }
        }
        _ => None,
    }
}

/// The name of a function `int NAME(void) { .. }`, its line, and the statements.
pub fn function_of(item: &Item) -> Option<(&Name, u32, &[Stmt])>
    ensures { Finds (λ x. (x.0.now, x.1, x.2.now)) result (function_of item.now) }
{
    match item {
        Item::Function {
            is_static,
            result,
            name,
            void_word,
            params,
            body: Some(body),
            second,
            ..
        } => {
            match params.as_slice() {
                [] => {
                    if !*is_static && is_int_type(result) && *void_word {
                        Some((name, *second, body.as_slice()))
                    } else {
                        None
                    }
                }
                _ => None,
            }
        }
        _ => None,
    }
}
