//! What a source can bring.

ghost use Rattle.std.specs.Prelude.{◌≡◌, true};
ghost use Rattle.std.specs.List.{list_all};
ghost use Rattle.cl_tree.specs.Words as spec;
ghost use Rattle.cl_tree.specs.Letters.{is_on_line};

use cl_tree::grammar::Sign;
use cl_tree::kinds::IntKind;
use cl_tree::letters::{is_blank, is_name, is_on_line};
use cl_tree::token::{Pragma, is_cle_word};
use cl_tree::words::{is_type_word, keyword};

#[tactic(auto, unfolding(cl_tree::specs::Words::is_free))]
fn is_free(word: &[u8]) -> bool
    ensures { result ≡ spec.is_free word.now }
{
    keyword(word).is_none() && !is_type_word(word)
}

/// Whether a literal can have this value and this kind.
#[tactic(auto, unfolding(cl_tree::specs::Words::is_literal))]
pub fn is_literal(value: u64, kind: IntKind) -> bool
    ensures { result ≡ spec.is_literal value kind }
{
    match kind {
        IntKind::I8 | IntKind::U8 | IntKind::I16 | IntKind::U16 => false,
        IntKind::I32 => value < 1 << 31,
        IntKind::U32 => value < 1 << 32,
        IntKind::Long | IntKind::LLong => value < 1 << 63,
        IntKind::ULong | IntKind::ULLong => true,
    }
}

fn are_on_line(bytes: &[u8]) -> bool
    ensures { result ≡ list_all is_on_line bytes.now }
{
    bytes.iter().all(|byte| is_on_line(*byte))
}

#[tactic(auto, unfolding(cl_tree::specs::Words::is_definition))]
fn is_definition(text: &[u8]) -> bool
    ensures { result ≡ spec.is_definition text.now }
{
    !text.is_empty() && !is_blank(text[0]) && !is_blank(text[text.len() - 1]) && are_on_line(text)
}

#[tactic(auto, unfolding(cl_tree::specs::Words::is_pragma))]
fn is_pragma(pragma: &Pragma) -> bool
    ensures { result ≡ spec.is_pragma pragma.now }
{
    match pragma {
        Pragma::Def(name, text) => is_name(name.as_bytes()) && is_definition(text.as_slice()),
        Pragma::Begin(name) | Pragma::End(name) => is_name(name.as_bytes()),
        Pragma::Next(name) => is_name(name.as_bytes()) && !is_cle_word(name.as_bytes()),
    }
}

/// Any byte can stand in a character constant.
#[tactic(auto, unfolding(cl_tree::specs::Words::is_byte))]
fn letter_comes(byte: u8) -> bool
    ensures { result ≡ spec.is_byte byte }
{
    true
}

/// Any bytes can stand in a string literal.
#[tactic(auto, using(crate::proofs::Ends::bytes_come))]
fn text_comes(bytes: &[u8]) -> bool
    ensures { result ≡ list_all spec.is_byte bytes.now }
{
    true
}

/// Whether a source can bring it.
#[tactic(auto, unfolding(cl_tree::specs::Words::comes))]
pub fn comes(sign: &Sign) -> bool
    ensures { result ≡ spec.comes sign.now }
{
    match sign {
        Sign::Name(name) => is_name(name.as_bytes()) && is_free(name.as_bytes()),
        Sign::Integer { value, kind } => is_literal(*value, *kind),
        Sign::Text(bytes) => text_comes(bytes.as_slice()),
        Sign::Cle(pragma) => is_pragma(pragma),
        Sign::Letter(byte) => letter_comes(*byte),
        Sign::Key(_) | Sign::Kind(_) | Sign::Real | Sign::NoType | Sign::Floating | Sign::Mark(_) =>
            true,
    }
}
