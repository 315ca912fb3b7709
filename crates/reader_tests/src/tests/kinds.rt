// The type of `x` in `TYPE x;` (C11 6.7.2, 7.20.1.1).

use super::read;
use cl_read::stop::ReadStop;
use cl_tree::kinds::IntKind;
use cl_tree::tree::{CType, Declarator, Item, Program};
use std::alloc::Global;
use std::test::Fail;

// What a declared type is, or why the source is not read.
#[derive(Clone, Copy, PartialEq, Eq)]
enum Found {
    Kind(IntKind),
    Floating,
    Other,
    Refused(u8),
    NoMemory,
}

fn type_of(names: &[Declarator]) -> Found {
    match names {
        [name] => match &name.ctype {
            CType::Integer(kind) => Found::Kind(*kind),
            CType::Floating => Found::Floating,
            _ => Found::Other,
        },
        _ => Found::Other,
    }
}

fn variable(program: &Program) -> Found {
    match program.items.as_slice() {
        [Item::Variables(declaration)] => type_of(declaration.names.as_slice()),
        _ => Found::Other,
    }
}

fn declared(alloc: Global, spelling: &str) -> Result<Found, Fail> {
    let source = format!(in alloc; "{spelling} x;")?;
    match read(alloc, source.as_str()) {
        Ok(program) => Ok(variable(&program)),
        Err(ReadStop::Refused { rule, .. }) => Ok(Found::Refused(rule)),
        Err(ReadStop::NoMemory) => Ok(Found::NoMemory),
    }
}

// The first type that is declared otherwise than its row says.
fn differs<'a>(alloc: Global, rows: &'a [(&str, Found)]) -> Result<Option<&'a str>, Fail> {
    for (spelling, found) in rows {
        if declared(alloc, spelling)? != *found {
            return Ok(Some(spelling));
        }
    }
    Ok(None)
}

const NARROW: [(&str, Found); 20] = [
    ("char", Found::Kind(IntKind::I8)),
    ("signed char", Found::Kind(IntKind::I8)),
    ("int8_t", Found::Kind(IntKind::I8)),
    ("unsigned char", Found::Kind(IntKind::U8)),
    ("uint8_t", Found::Kind(IntKind::U8)),
    ("short", Found::Kind(IntKind::I16)),
    ("signed short", Found::Kind(IntKind::I16)),
    ("short int", Found::Kind(IntKind::I16)),
    ("signed short int", Found::Kind(IntKind::I16)),
    ("int16_t", Found::Kind(IntKind::I16)),
    ("unsigned short", Found::Kind(IntKind::U16)),
    ("unsigned short int", Found::Kind(IntKind::U16)),
    ("uint16_t", Found::Kind(IntKind::U16)),
    ("int", Found::Kind(IntKind::I32)),
    ("signed", Found::Kind(IntKind::I32)),
    ("signed int", Found::Kind(IntKind::I32)),
    ("int32_t", Found::Kind(IntKind::I32)),
    ("unsigned", Found::Kind(IntKind::U32)),
    ("unsigned int", Found::Kind(IntKind::U32)),
    ("uint32_t", Found::Kind(IntKind::U32)),
];

const WIDE: [(&str, Found); 15] = [
    ("long", Found::Kind(IntKind::Long)),
    ("signed long", Found::Kind(IntKind::Long)),
    ("long int", Found::Kind(IntKind::Long)),
    ("signed long int", Found::Kind(IntKind::Long)),
    ("int64_t", Found::Kind(IntKind::Long)),
    ("unsigned long", Found::Kind(IntKind::ULong)),
    ("unsigned long int", Found::Kind(IntKind::ULong)),
    ("uint64_t", Found::Kind(IntKind::ULong)),
    ("long long", Found::Kind(IntKind::LLong)),
    ("signed long long", Found::Kind(IntKind::LLong)),
    ("long long int", Found::Kind(IntKind::LLong)),
    ("signed long long int", Found::Kind(IntKind::LLong)),
    ("unsigned long long", Found::Kind(IntKind::ULLong)),
    ("unsigned long long int", Found::Kind(IntKind::ULLong)),
    // Blanks of any kind stand between the words.
    (
        "unsigned /* */\n\tlong\\\n int",
        Found::Kind(IntKind::ULong),
    ),
];

// The profile has no other order of the words, and no other types.
const OTHERS: [(&str, Found); 16] = [
    ("double", Found::Floating),
    ("float", Found::Floating),
    ("long double", Found::Floating),
    ("int unsigned", Found::Refused(6)),
    ("long unsigned", Found::Refused(6)),
    ("unsigned signed", Found::Refused(6)),
    ("unsigned double", Found::Refused(6)),
    ("unsigned uint8_t", Found::Refused(6)),
    ("long long long", Found::Refused(6)),
    ("int int", Found::Refused(6)),
    ("_Bool", Found::Refused(6)),
    ("const int", Found::Refused(6)),
    ("void", Found::Refused(6)),
    ("size_t", Found::Refused(6)),
    ("struct s", Found::Other),
    ("int *", Found::Other),
];

#[test]
fn narrow_kinds_have_their_spellings(rt: HostRuntime) -> Result<(), Fail> {
    let alloc = rt.alloc();
    assert_eq!(rt; differs(alloc, &NARROW)?, None);
    Ok(())
}

#[test]
fn wide_kinds_have_their_spellings(rt: HostRuntime) -> Result<(), Fail> {
    let alloc = rt.alloc();
    assert_eq!(rt; differs(alloc, &WIDE)?, None);
    Ok(())
}

#[test]
fn other_types_are_no_kinds(rt: HostRuntime) -> Result<(), Fail> {
    let alloc = rt.alloc();
    assert_eq!(rt; differs(alloc, &OTHERS)?, None);
    Ok(())
}
