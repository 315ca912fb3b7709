//! Tokens.

ghost use Rattle.std.specs.Prelude.{◌≡◌};
ghost use Rattle.cl_tree.specs.Words.{is_cle_word};

use crate::bytes::Bytes;
use crate::kinds::IntKind;
use crate::words::same;
use cl_base::name::Name;

/// The punctuators (C11 6.4.6, without digraphs).
#[derive(Clone, Copy, Debug, PartialEq, Eq)]
pub enum Mark {
    OpenParen,
    CloseParen,
    OpenBracket,
    CloseBracket,
    OpenBrace,
    CloseBrace,
    Semicolon,
    Comma,
    Dot,
    Arrow,
    Ellipsis,
    Assign,
    PlusAssign,
    MinusAssign,
    StarAssign,
    SlashAssign,
    PercentAssign,
    LeftAssign,
    RightAssign,
    AmpAssign,
    BarAssign,
    CaretAssign,
    PlusPlus,
    MinusMinus,
    Plus,
    Minus,
    Star,
    Slash,
    Percent,
    Tilde,
    Bang,
    Amp,
    Bar,
    Caret,
    LeftShift,
    RightShift,
    Less,
    Greater,
    AtMost,
    AtLeast,
    Equal,
    Unequal,
    AmpAmp,
    BarBar,
    Question,
    Colon,
    Hash,
    HashHash,
}

/// The punctuators by their texts.
pub const MARKS: [(&[u8], Mark); 48] = [
    (b"(", Mark::OpenParen),
    (b")", Mark::CloseParen),
    (b"[", Mark::OpenBracket),
    (b"]", Mark::CloseBracket),
    (b"{", Mark::OpenBrace),
    (b"}", Mark::CloseBrace),
    (b";", Mark::Semicolon),
    (b",", Mark::Comma),
    (b".", Mark::Dot),
    (b"->", Mark::Arrow),
    (b"...", Mark::Ellipsis),
    (b"=", Mark::Assign),
    (b"+=", Mark::PlusAssign),
    (b"-=", Mark::MinusAssign),
    (b"*=", Mark::StarAssign),
    (b"/=", Mark::SlashAssign),
    (b"%=", Mark::PercentAssign),
    (b"<<=", Mark::LeftAssign),
    (b">>=", Mark::RightAssign),
    (b"&=", Mark::AmpAssign),
    (b"|=", Mark::BarAssign),
    (b"^=", Mark::CaretAssign),
    (b"++", Mark::PlusPlus),
    (b"--", Mark::MinusMinus),
    (b"+", Mark::Plus),
    (b"-", Mark::Minus),
    (b"*", Mark::Star),
    (b"/", Mark::Slash),
    (b"%", Mark::Percent),
    (b"~", Mark::Tilde),
    (b"!", Mark::Bang),
    (b"&", Mark::Amp),
    (b"|", Mark::Bar),
    (b"^", Mark::Caret),
    (b"<<", Mark::LeftShift),
    (b">>", Mark::RightShift),
    (b"<", Mark::Less),
    (b">", Mark::Greater),
    (b"<=", Mark::AtMost),
    (b">=", Mark::AtLeast),
    (b"==", Mark::Equal),
    (b"!=", Mark::Unequal),
    (b"&&", Mark::AmpAmp),
    (b"||", Mark::BarBar),
    (b"?", Mark::Question),
    (b":", Mark::Colon),
    (b"#", Mark::Hash),
    (b"##", Mark::HashHash),
];

/// A line `#pragma cle`, which is a token of its own.
#[derive(Debug, Drop)]
pub enum Pragma {
    /// `def NAME TEXT`: the text defines the label.
    Def(Name, Bytes),
    /// `begin NAME`
    Begin(Name),
    /// `end NAME`
    End(Name),
    /// `NAME`, for the next item.
    Next(Name),
}

/// Whether a word has a meaning of its own behind `#pragma cle`.
#[tactic(auto, unfolding(crate::specs::Words::is_cle_word))]
pub fn is_cle_word(word: &[u8]) -> bool
    ensures { result ≡ is_cle_word word.now }
{
    same(b"def", word) || same(b"begin", word) || same(b"end", word)
}

/// What a token is.
#[derive(Drop)]
pub enum Lexeme {
    /// A name, a keyword or a type word.
    Word(Name),
    /// An integer literal with its value and its type.
    Integer { value: u64, kind: IntKind },
    /// A decimal floating literal.
    Floating,
    /// A character constant, by the byte that it holds.
    Letter(u8),
    /// A string literal, or several that follow each other, by their bytes.
    Text(Bytes),
    Mark(Mark),
    Cle(Pragma),
}

/// A token. `start` and `end` are places in the source as it came, counted in bytes from 0;
/// `line` is the line of its first byte, counted from 1.
#[derive(Drop)]
pub struct Token {
    pub line: u32,
    pub start: u32,
    pub end: u32,
    pub what: Lexeme,
}
