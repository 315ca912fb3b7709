// Lines, joined lines, comments, and what is no token.

use super::shown::differs;
use std::test::Fail;

const SOURCES: [(&str, &str); 24] = [
    ("", ""),
    ("a", "1:0-1 a;"),
    ("a\\\nb c", "1:0-4 ab;2:5-6 c;"),
    ("+\\\r\n+=", "1:0-5 PlusPlus;2:5-6 Assign;"),
    ("a\r\nb\r\n", "1:0-1 a;2:3-4 b;"),
    ("x+++y", "1:0-1 x;1:1-3 PlusPlus;1:3-4 Plus;1:4-5 y;"),
    ("/* a\n*/ 5 // x\n6", "2:8-9 5 I32;3:15-16 6 I32;"),
    ("/** **/a/*/ */b", "1:7-8 a;1:14-15 b;"),
    ("/* x", "E04 1"),
    ("\n\n/* ", "E04 3"),
    ("\"x", "E04 1"),
    ("\"a\nb\"", "E04 1"),
    ("\n'a", "E04 2"),
    ("\"a\\\nb", "E04 1"),
    ("\"a\\\nb\u{7}", "E02 2"),
    ("@", "E03 1"),
    ("a \\ b", "E03 1"),
    ("`", "E03 1"),
    ("\u{7}", "E02 1"),
    ("/* \u{7} */ a // \u{7}", "1:8-9 a;"),
    ("a\n\"\u{7}\"", "E02 2"),
    ("\"\\q\u{7}\"", "E02 1"),
    (
        "\"a\" /* */\n\"b\" 'c'",
        "1:0-13 Text [97, 98];2:14-17 Letter 99;",
    ),
    (
        "\"a\"\n#define N 1\n\"b\"N",
        "1:0-19 Text [97, 98];3:19-20 1 I32;",
    ),
];

#[test]
fn tokens_keep_their_lines(rt: HostRuntime) -> Result<(), Fail> {
    let alloc = rt.alloc();
    assert_eq!(rt; differs(alloc, &SOURCES)?, None);
    Ok(())
}
