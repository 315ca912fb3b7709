// Numbers, character constants and strings (C11 6.4.4, 6.4.5).

use super::shown::{passes, single_differs};
use std::test::Fail;

const NUMBERS: [(&str, &str); 29] = [
    ("0", "0 I32"),
    ("2147483647", "2147483647 I32"),
    ("2147483648", "2147483648 Long"),
    ("9223372036854775807", "9223372036854775807 Long"),
    ("0x7fffffff", "2147483647 I32"),
    ("0XFFFFffff", "4294967295 U32"),
    ("0x100000000", "4294967296 Long"),
    ("0x8000000000000000", "9223372036854775808 ULong"),
    ("017", "15 I32"),
    ("037777777777", "4294967295 U32"),
    ("5u", "5 U32"),
    ("5U", "5 U32"),
    ("4294967296u", "4294967296 ULong"),
    ("18446744073709551615u", "18446744073709551615 ULong"),
    ("5l", "5 Long"),
    ("5L", "5 Long"),
    ("5ul", "5 ULong"),
    ("5LU", "5 ULong"),
    ("5ll", "5 LLong"),
    ("5LL", "5 LLong"),
    ("5llU", "5 ULLong"),
    ("5uLL", "5 ULLong"),
    ("0xFFFFFFFFFFFFFFFFll", "18446744073709551615 ULLong"),
    ("1.5", "Floating"),
    ("1.", "Floating"),
    (".5f", "Floating"),
    ("1e5", "Floating"),
    ("09.5E-3L", "Floating"),
    ("1.e+2F", "Floating"),
];

const NO_NUMBERS: [&str; 19] = [
    "08",
    "1lL",
    "5Ll",
    "5ulu",
    "5uu",
    "5lul",
    "0x",
    "0xg",
    "1.2.3",
    "1e",
    "1e+",
    "1f",
    "0x1.8p3",
    ".5.",
    "1a",
    "99999999999999999999",
    "18446744073709551615",
    "9223372036854775808ll",
    "0x10000000000000000u",
];

const LETTERS: [(&str, &str); 10] = [
    ("'a'", "Letter 97"),
    ("'\"'", "Letter 34"),
    ("'\\''", "Letter 39"),
    ("'\\n'", "Letter 10"),
    ("'\\377'", "Letter 255"),
    ("'\\x41'", "Letter 65"),
    ("'\\x0000041'", "Letter 65"),
    ("\"\"", "Text []"),
    (
        "\"\\n\\t\\r\\a\\b\\f\\v\\\\\\'\\\"\\?'\"",
        "Text [10, 9, 13, 7, 8, 12, 11, 92, 39, 34, 63, 39]",
    ),
    (
        "\"\\0\\12\\1234\\x7G\\x0fZ\"",
        "Text [0, 10, 83, 52, 7, 71, 15, 90]",
    ),
];

const NO_LETTERS: [&str; 13] = [
    "''",
    "'ab'",
    "'\\400'",
    "'\\q'",
    "'\\x'",
    "'\\x100'",
    "'\\1234'",
    "\"\\q\"",
    "\"\\400\"",
    "\"\\x141\"",
    "\"\\xg\"",
    "'\t'",
    "\"\t\"",
];

#[test]
fn numbers_have_their_kinds(rt: HostRuntime) -> Result<(), Fail> {
    let alloc = rt.alloc();
    assert_eq!(rt; single_differs(alloc, &NUMBERS)?, None);
    assert_eq!(rt; passes(alloc, &NO_NUMBERS)?, None);
    Ok(())
}

#[test]
fn escapes_are_single_bytes(rt: HostRuntime) -> Result<(), Fail> {
    let alloc = rt.alloc();
    assert_eq!(rt; single_differs(alloc, &LETTERS)?, None);
    assert_eq!(rt; passes(alloc, &NO_LETTERS)?, None);
    Ok(())
}
