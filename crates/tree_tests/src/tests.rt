// Tables of the arithmetic. What is wanted comes from C11 at the widths of the profile. Each table stands in a
// constant, since one within a test makes its proof slow.

use cl_tree::arithmetic::{apply, apply_one, convert, fits, letter_value};
use cl_tree::kinds::BinOp::{
    Add, And, AtLeast, AtMost, BitAnd, BitOr, Div, Equal, Greater, Left, Less, Mul, Or, Rem, Right,
    Sub, Unequal, Xor,
};
use cl_tree::kinds::IntKind::{I8, I16, I32, LLong, Long, U8, U16, U32, ULLong, ULong};
use cl_tree::kinds::TrapCause::{Divide, Overflow, Shift};
use cl_tree::kinds::UnOp::{Amp, Flip, Minus, Not, Plus, Star};
use cl_tree::kinds::{BinOp, IntKind, TrapCause, UnOp};

/// The greatest number of 64 bits, and the greatest and the least signed one.
const MOST: i128 = 18446744073709551615;

const MOST_SIGNED: i128 = 9223372036854775807;

const LEAST_SIGNED: i128 = -9223372036854775808;

/// A kind, a number, and the number in that kind.
const CONVERTED: [(IntKind, i128, i128); 12] = [
    (I8, 200, -56),
    (I8, -128, -128),
    (I8, -129, 127),
    (U8, 256, 0),
    (I16, 40000, -25536),
    (U16, -1, 65535),
    (I32, 2147483648, -2147483648),
    (U32, -1, 4294967295),
    (Long, MOST_SIGNED + 1, LEAST_SIGNED),
    (ULong, -1, MOST),
    (LLong, 18446744073709551621, 5),
    (ULLong, 18446744073709551616, 0),
];

fn misconverted(rows: &[(IntKind, i128, i128)]) -> Option<(IntKind, i128)> {
    for (kind, n, want) in rows {
        if convert(*kind, *n) != *want {
            return Some((*kind, *n));
        }
    }
    None
}

#[test]
fn numbers_are_taken_into_a_kind(rt: HostRuntime) {
    assert_eq!(rt; misconverted(&CONVERTED), None);
}

/// A kind, its width, whether it is signed, its least number and its greatest.
const RANGES: [(IntKind, u32, bool, i128, i128); 10] = [
    (I8, 8, true, -128, 127),
    (U8, 8, false, 0, 255),
    (I16, 16, true, -32768, 32767),
    (U16, 16, false, 0, 65535),
    (I32, 32, true, -2147483648, 2147483647),
    (U32, 32, false, 0, 4294967295),
    (Long, 64, true, LEAST_SIGNED, MOST_SIGNED),
    (ULong, 64, false, 0, MOST),
    (LLong, 64, true, LEAST_SIGNED, MOST_SIGNED),
    (ULLong, 64, false, 0, MOST),
];

fn ends(kind: IntKind, least: i128, greatest: i128) -> bool {
    let (before, after) = (least.saturating_sub(1), greatest.saturating_add(1));
    fits(kind, least) && fits(kind, greatest) && !fits(kind, before) && !fits(kind, after)
}

fn misjudged(rows: &[(IntKind, u32, bool, i128, i128)]) -> Option<IntKind> {
    for (kind, width, signed, least, greatest) in rows {
        let same = kind.width() == *width && kind.is_signed() == *signed;
        if !same || !ends(*kind, *least, *greatest) {
            return Some(*kind);
        }
    }
    None
}

#[test]
fn kinds_have_their_ranges(rt: HostRuntime) {
    assert_eq!(rt; misjudged(&RANGES), None);
}

/// An operator, the kind and the values of its two sides, and what it gives.
type Row = (BinOp, IntKind, i128, i128, Result<i128, TrapCause>);

/// `apply` on two numbers of the kind.
fn applied(op: BinOp, kind: IntKind, a: i128, b: i128) -> Option<Result<i128, TrapCause>> {
    if fits(kind, a) && fits(kind, b) {
        Some(apply(op, kind, a, b))
    } else {
        None
    }
}

/// The first row of which the operator gives something else.
fn differs(rows: &[Row]) -> Option<(BinOp, i128, i128)> {
    for (op, kind, a, b, want) in rows {
        if applied(*op, *kind, *a, *b) != Some(*want) {
            return Some((*op, *a, *b));
        }
    }
    None
}

const COMPARED: [Row; 18] = [
    (Or, I32, 0, 0, Ok(0)),
    (Or, I32, 0, 5, Ok(1)),
    (Or, I32, -5, 0, Ok(1)),
    (And, I32, 2, 0, Ok(0)),
    (And, I32, 0, 2, Ok(0)),
    (And, I32, 2, -1, Ok(1)),
    (Equal, I32, 3, 3, Ok(1)),
    (Equal, I32, 3, 4, Ok(0)),
    (Unequal, I32, 3, 3, Ok(0)),
    (Unequal, I32, 3, 4, Ok(1)),
    (Less, I32, -1, 0, Ok(1)),
    (Less, U32, 4294967295, 0, Ok(0)),
    (Greater, U8, 255, 1, Ok(1)),
    (Greater, I32, 3, 3, Ok(0)),
    (AtMost, I32, 3, 3, Ok(1)),
    (AtMost, I32, 4, 3, Ok(0)),
    (AtLeast, I32, 3, 3, Ok(1)),
    (AtLeast, I32, -1, 0, Ok(0)),
];

const BITS: [Row; 19] = [
    (BitOr, I32, 12, 10, Ok(14)),
    (BitOr, I32, -256, 15, Ok(-241)),
    (Xor, I8, -1, 1, Ok(-2)),
    (Xor, U8, 255, 15, Ok(240)),
    (BitAnd, I32, -1, 255, Ok(255)),
    (BitAnd, Long, -2, -3, Ok(-4)),
    (Left, I32, 1, 30, Ok(1073741824)),
    (Left, I32, 1, 31, Err(Overflow)),
    (Left, I32, 1, 32, Err(Shift)),
    (Left, I32, 1, -1, Err(Shift)),
    (Left, I32, -1, 1, Err(Shift)),
    (Left, U32, 1, 31, Ok(2147483648)),
    (Left, U32, 4294967295, 1, Ok(4294967294)),
    (Left, ULong, 1, 63, Ok(9223372036854775808)),
    (Right, I32, -5, 1, Ok(-3)),
    (Right, I32, 1, 32, Err(Shift)),
    (Right, I32, 1, -1, Err(Shift)),
    (Right, U32, 4294967295, 31, Ok(1)),
    (Right, Long, -1, 63, Ok(-1)),
];

const CALCULATED: [Row; 20] = [
    (Add, I32, 2147483647, 1, Err(Overflow)),
    (Add, U32, 4294967295, 1, Ok(0)),
    (Add, Long, -3, 5, Ok(2)),
    (Sub, U32, 0, 1, Ok(4294967295)),
    (Sub, I32, -2147483648, 1, Err(Overflow)),
    (Sub, I32, 0, 5, Ok(-5)),
    (Mul, ULong, MOST, MOST, Ok(1)),
    (Mul, U32, 65536, 65536, Ok(0)),
    (Mul, I32, 65536, 65536, Err(Overflow)),
    (Mul, LLong, 3037000500, 3037000500, Err(Overflow)),
    (Mul, Long, -3, 5, Ok(-15)),
    (Div, I32, -2147483648, -1, Err(Overflow)),
    (Div, I32, 7, 0, Err(Divide)),
    (Div, I32, -7, 2, Ok(-3)),
    (Div, U32, 4294967295, 2, Ok(2147483647)),
    (Rem, I32, -2147483648, -1, Err(Overflow)),
    (Rem, I32, 7, 0, Err(Divide)),
    (Rem, I32, -7, 3, Ok(-1)),
    (Rem, I32, 7, -3, Ok(1)),
    (Rem, U8, 255, 16, Ok(15)),
];

#[test]
fn comparisons_give_0_or_1(rt: HostRuntime) {
    assert_eq!(rt; differs(&COMPARED), None);
}

#[test]
fn bits_are_joined_and_shifted(rt: HostRuntime) {
    assert_eq!(rt; differs(&BITS), None);
}

#[test]
fn sums_and_quotients_keep_their_kind(rt: HostRuntime) {
    assert_eq!(rt; differs(&CALCULATED), None);
}

/// A kind, and the kind that it is promoted to.
const PROMOTED: [(IntKind, IntKind); 8] = [
    (I8, I32),
    (U8, I32),
    (I16, I32),
    (U16, I32),
    (I32, I32),
    (U32, U32),
    (Long, Long),
    (ULLong, ULLong),
];

fn mispromoted(rows: &[(IntKind, IntKind)]) -> Option<IntKind> {
    for (kind, want) in rows {
        if kind.promoted() != *want {
            return Some(*kind);
        }
    }
    None
}

#[test]
fn narrow_kinds_are_promoted(rt: HostRuntime) {
    assert_eq!(rt; mispromoted(&PROMOTED), None);
}

/// Two kinds, and their common one.
const COMMON: [(IntKind, IntKind, IntKind); 14] = [
    (U8, I16, I32),
    (U16, U16, I32),
    (I8, U32, U32),
    (I32, U32, U32),
    (I32, Long, Long),
    (I32, ULong, ULong),
    (U32, ULong, ULong),
    (Long, U32, Long),
    (Long, ULong, ULong),
    (Long, LLong, LLong),
    (Long, ULLong, ULLong),
    (LLong, U32, LLong),
    (LLong, ULong, ULLong),
    (ULong, ULLong, ULLong),
];

fn mismatched(rows: &[(IntKind, IntKind, IntKind)]) -> Option<(IntKind, IntKind)> {
    for (a, b, want) in rows {
        if a.common(*b) != *want || b.common(*a) != *want {
            return Some((*a, *b));
        }
    }
    None
}

#[test]
fn two_kinds_have_a_common_one(rt: HostRuntime) {
    assert_eq!(rt; mismatched(&COMMON), None);
}

/// `apply_one` on a number of the kind, by an operator of one number.
#[tactic(auto, unfolding(cl_tree::specs::Arithmetic::is_arithmetic))]
fn applied_one(op: UnOp, kind: IntKind, a: i128) -> Option<Result<i128, TrapCause>> {
    if !fits(kind, a) {
        return None;
    }
    match op {
        Star | Amp => None,
        Minus => Some(apply_one(Minus, kind, a)),
        Plus => Some(apply_one(Plus, kind, a)),
        Flip => Some(apply_one(Flip, kind, a)),
        Not => Some(apply_one(Not, kind, a)),
    }
}

/// An operator, the kind and the value of its operand, and what it gives.
const OF_ONE: [(UnOp, IntKind, i128, Result<i128, TrapCause>); 19] = [
    (Minus, I32, 5, Ok(-5)),
    (Minus, I32, 2147483647, Ok(-2147483647)),
    (Minus, I32, -2147483648, Err(Overflow)),
    (Minus, Long, LEAST_SIGNED, Err(Overflow)),
    (Minus, U32, 1, Ok(4294967295)),
    (Minus, U32, 0, Ok(0)),
    (Minus, ULong, MOST, Ok(1)),
    (Plus, I32, -7, Ok(-7)),
    (Plus, U32, 4294967295, Ok(4294967295)),
    (Flip, I32, 0, Ok(-1)),
    (Flip, I32, 5, Ok(-6)),
    (Flip, I32, -2147483648, Ok(2147483647)),
    (Flip, U32, 0, Ok(4294967295)),
    (Flip, U32, 4294967280, Ok(15)),
    (Flip, Long, -1, Ok(0)),
    (Flip, ULLong, 1, Ok(18446744073709551614)),
    (Not, I32, 0, Ok(1)),
    (Not, I32, -3, Ok(0)),
    (Not, ULong, MOST, Ok(0)),
];

fn differs_on_one(rows: &[(UnOp, IntKind, i128, Result<i128, TrapCause>)]) -> Option<(UnOp, i128)> {
    for (op, kind, a, want) in rows {
        if applied_one(*op, *kind, *a) != Some(*want) {
            return Some((*op, *a));
        }
    }
    None
}

#[test]
fn operators_of_one_number_keep_its_kind(rt: HostRuntime) {
    assert_eq!(rt; differs_on_one(&OF_ONE), None);
}

/// A byte, and the value of its character constant.
const LETTERS: [(u8, i128); 5] = [(0, 0), (65, 65), (127, 127), (128, -128), (255, -1)];

fn misvalued(rows: &[(u8, i128)]) -> Option<u8> {
    for (byte, want) in rows {
        if letter_value(*byte) != *want {
            return Some(*byte);
        }
    }
    None
}

#[test]
fn letters_are_signed(rt: HostRuntime) {
    assert_eq!(rt; misvalued(&LETTERS), None);
}
