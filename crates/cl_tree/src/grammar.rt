//! The terminals that the grammar speaks of: tokens, with each longest run of type words taken as one.

use crate::bytes::Bytes;
use crate::kinds::IntKind;
use crate::token::{Mark, Pragma};
use cl_base::name::Name;

/// A keyword that isn't a type word (C11 6.4.1).
#[derive(Clone, Copy, Debug, PartialEq, Eq)]
pub enum Keyword {
    Struct,
    Static,
    Void,
    If,
    Else,
    While,
    Do,
    For,
    Return,
    Break,
    Continue,
    /// A keyword that has no place in the grammar.
    Unused,
}

/// What a terminal is.
#[derive(Debug, Drop)]
pub enum Sign {
    /// A word that is neither a keyword nor a type word.
    Name(Name),
    Key(Keyword),
    /// A longest run of type words that spells an integer kind.
    Kind(IntKind),
    /// A longest run of type words that spells a floating type.
    Real,
    /// A longest run of type words that spells no type.
    NoType,
    /// An integer literal with its value and its type.
    Integer { value: u64, kind: IntKind },
    /// A floating literal.
    Floating,
    /// A character constant.
    Letter(u8),
    /// A string literal.
    Text(Bytes),
    Mark(Mark),
    Cle(Pragma),
}

/// A terminal. `line` is that of its first token.
#[derive(Drop)]
pub struct Terminal {
    pub line: u32,
    pub what: Sign,
}

/// What the declarators of one declaration have in common.
#[derive(Drop)]
pub enum Base {
    Void,
    Kind(IntKind),
    /// A floating type.
    Real,
    /// `struct` with its tag.
    Tag(Name),
}

/// The keywords, type words aside.
pub const KEYWORDS: [(&[u8], Keyword); 36] = [
    (b"struct", Keyword::Struct),
    (b"static", Keyword::Static),
    (b"void", Keyword::Void),
    (b"if", Keyword::If),
    (b"else", Keyword::Else),
    (b"while", Keyword::While),
    (b"do", Keyword::Do),
    (b"for", Keyword::For),
    (b"return", Keyword::Return),
    (b"break", Keyword::Break),
    (b"continue", Keyword::Continue),
    (b"auto", Keyword::Unused),
    (b"case", Keyword::Unused),
    (b"const", Keyword::Unused),
    (b"default", Keyword::Unused),
    (b"enum", Keyword::Unused),
    (b"extern", Keyword::Unused),
    (b"goto", Keyword::Unused),
    (b"inline", Keyword::Unused),
    (b"register", Keyword::Unused),
    (b"restrict", Keyword::Unused),
    (b"sizeof", Keyword::Unused),
    (b"switch", Keyword::Unused),
    (b"typedef", Keyword::Unused),
    (b"union", Keyword::Unused),
    (b"volatile", Keyword::Unused),
    (b"_Alignas", Keyword::Unused),
    (b"_Alignof", Keyword::Unused),
    (b"_Atomic", Keyword::Unused),
    (b"_Bool", Keyword::Unused),
    (b"_Complex", Keyword::Unused),
    (b"_Generic", Keyword::Unused),
    (b"_Imaginary", Keyword::Unused),
    (b"_Noreturn", Keyword::Unused),
    (b"_Static_assert", Keyword::Unused),
    (b"_Thread_local", Keyword::Unused),
];

/// The keywords that are type words (C11 6.7.2).
pub const TYPE_KEYWORDS: [&[u8]; 8] = [
    b"char",
    b"signed",
    b"unsigned",
    b"short",
    b"int",
    b"long",
    b"double",
    b"float",
];

/// The names of the types of fixed width (C11 7.20.1.1), which are type words and no keywords.
pub const FIXED_WIDTHS: [&[u8]; 8] = [
    b"int8_t",
    b"uint8_t",
    b"int16_t",
    b"uint16_t",
    b"int32_t",
    b"uint32_t",
    b"int64_t",
    b"uint64_t",
];

/// The runs of type words that spell an integer kind, with one space between two words. The first of
/// a kind is the one that is printed. That `char` and `signed char` are one type is the profile's own
/// rule.
pub const KINDS: [(&[u8], IntKind); 34] = [
    (b"char", IntKind::I8),
    (b"signed char", IntKind::I8),
    (b"int8_t", IntKind::I8),
    (b"unsigned char", IntKind::U8),
    (b"uint8_t", IntKind::U8),
    (b"short", IntKind::I16),
    (b"short int", IntKind::I16),
    (b"signed short", IntKind::I16),
    (b"signed short int", IntKind::I16),
    (b"int16_t", IntKind::I16),
    (b"unsigned short", IntKind::U16),
    (b"unsigned short int", IntKind::U16),
    (b"uint16_t", IntKind::U16),
    (b"int", IntKind::I32),
    (b"signed", IntKind::I32),
    (b"signed int", IntKind::I32),
    (b"int32_t", IntKind::I32),
    (b"unsigned int", IntKind::U32),
    (b"unsigned", IntKind::U32),
    (b"uint32_t", IntKind::U32),
    (b"long", IntKind::Long),
    (b"long int", IntKind::Long),
    (b"signed long", IntKind::Long),
    (b"signed long int", IntKind::Long),
    (b"int64_t", IntKind::Long),
    (b"unsigned long", IntKind::ULong),
    (b"unsigned long int", IntKind::ULong),
    (b"uint64_t", IntKind::ULong),
    (b"long long", IntKind::LLong),
    (b"long long int", IntKind::LLong),
    (b"signed long long", IntKind::LLong),
    (b"signed long long int", IntKind::LLong),
    (b"unsigned long long", IntKind::ULLong),
    (b"unsigned long long int", IntKind::ULLong),
];

/// The runs of type words that spell a floating type.
pub const REALS: [&[u8]; 3] = [b"double", b"float", b"long double"];
