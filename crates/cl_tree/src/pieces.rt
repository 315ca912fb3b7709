//! The words that the definition of a source's tokens is made of.

use crate::kinds::IntKind;
use crate::token::Lexeme;
use cl_base::name::Name;

/// The rules that a source can break before it is read as a program.
#[derive(Clone, Copy, PartialEq, Eq)]
pub enum Rule {
    /// A byte is not allowed.
    E02,
    /// No token begins here.
    E03,
    /// A comment, a string or a character constant is not closed.
    E04,
    /// A directive has none of the forms.
    E05,
    /// A literal is spelled wrongly or has no type.
    E07,
}

/// A class of pieces that go on as long as each byte fits to the one before it.
#[derive(Clone, Copy, PartialEq, Eq)]
pub enum Run {
    /// A name.
    Letters,
    /// A preprocessing number (C11 6.4.8).
    Digits,
    /// A comment to the end of the line.
    Line,
    /// A directive line.
    Directive,
}

/// A class of pieces that end at the first close.
#[derive(Clone, Copy, PartialEq, Eq)]
pub enum Closed {
    /// A comment between `/*` and `*/`.
    Comment,
    /// A string.
    Quoted,
    /// A character constant.
    Letter,
}

/// The class of a piece, which its first two bytes choose.
#[derive(Clone, Copy, PartialEq, Eq)]
pub enum Opening {
    Runs(Run),
    Closes(Closed),
    /// A space, a tab, a newline or a CR, each a piece of its own.
    Space,
    Punct,
    /// A byte with which no piece begins.
    Other,
}

/// What a byte inside a closed piece does: the piece goes on, ends with it, or cannot have it.
#[derive(Clone, Copy, PartialEq, Eq)]
pub enum Next {
    /// It goes on; the flag says whether a star, or a backslash, stands before the next byte.
    More(bool),
    Shut,
    Broken,
}

/// Where a byte stands in the source as it came.
#[derive(Clone, Copy, PartialEq, Eq)]
pub struct Place {
    pub line: u32,
    pub start: u32,
    pub end: u32,
}

/// Where the list of types of an integer literal begins, by its suffix (C11 6.4.4.1).
#[derive(Clone, Copy, PartialEq, Eq)]
pub enum Width {
    Int,
    Long,
    LongLong,
}

/// What the literal of a `#define` means.
#[derive(Clone, Copy, PartialEq, Eq)]
pub enum Literal {
    Number { value: u64, kind: IntKind },
    Byte(u8),
}

/// What the bytes of an integer literal or a character constant mean.
#[derive(Clone, Copy, PartialEq, Eq)]
pub enum LiteralValue {
    /// It is none.
    Wrong,
    /// It is one, but no type holds its value, or no byte.
    Unfit,
    Holds(Literal),
}

/// What stands behind a backslash (C11 6.4.4.4), and how many bytes spell it there.
#[derive(Clone, Copy, PartialEq, Eq)]
pub enum Escape {
    NoEscape,
    /// A value above 255.
    TooBig(usize),
    Value(u8, usize),
}

/// The escapes of one letter behind the backslash, and the bytes that they mean.
pub const ESCAPES: [(u8, u8); 11] = [
    (b'n', b'\n'),
    (b't', b'\t'),
    (b'r', b'\r'),
    (b'a', 7),
    (b'b', 8),
    (b'f', 12),
    (b'v', 11),
    (b'\\', b'\\'),
    (b'\'', b'\''),
    (b'"', b'"'),
    (b'?', b'?'),
];

/// Where in a directive line a byte stands.
#[derive(Clone, Copy, PartialEq, Eq)]
pub enum Part {
    /// In no comment.
    Code,
    /// On the star that opens a comment.
    Opened,
    /// Inside a comment; the flag says whether a star stands before.
    Inside(bool),
    /// In a comment to the end of the line.
    ToEnd,
}

/// What a piece means.
#[derive(Drop)]
pub enum PieceMeaning {
    Blank,
    /// It breaks a rule at this byte of it.
    Bad(Rule, usize),
    Is(Lexeme),
    /// A `#define` of a name. Without a literal, no type holds the value that is spelled at byte `at`.
    Defines {
        name: Name,
        literal: Option<Literal>,
        at: usize,
    },
}
