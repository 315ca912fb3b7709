// Directive lines.

use super::shown::differs;
use std::test::Fail;

const DIRECTIVES: [(&str, &str); 11] = [
    ("#define N 3\nN N", "2:12-13 3 I32;2:14-15 3 I32;"),
    ("N\n#define N 'a'\nN", "1:0-1 N;3:16-17 Letter 97;"),
    (
        " \t# /* a */ define/**/N/**/0x10u // b\nN",
        "2:38-39 16 U32;",
    ),
    (
        "#include <stdio.h>\n#include<stdint.h>\r\n# include /**/<stdlib.h> //\na",
        "4:67-68 a;",
    ),
    (
        "#pragma once\n#pragma x 'y\n#pragma cle2 z\na",
        "4:41-42 a;",
    ),
    (
        "#define N 3\n#pragma cle def X {\"a\": N} /* \t",
        "2:12-43 Def X [123, 34, 97, 34, 58, 32, 78, 125, 32, 47, 42];",
    ),
    ("#pragma cle def X{}", "1:0-19 Def X [123, 125];"),
    (
        "#pragma cle begin A\n#pragma cle end A /* */\n#pragma cle B",
        "1:0-19 Begin A;2:20-43 End A;3:44-57 Next B;",
    ),
    ("#pragma cle begin begin", "1:0-23 Begin begin;"),
    (
        "a # b ## c",
        "1:0-1 a;1:2-3 Hash;1:4-5 b;1:6-8 HashHash;1:9-10 c;",
    ),
    ("/**/ #if", "1:5-6 Hash;1:6-8 if;"),
];

const BAD_DIRECTIVES: [(&str, &str); 32] = [
    ("#if 1", "E05 1"),
    ("\n#", "E05 2"),
    ("#include <math.h>", "E05 1"),
    ("#include < stdio.h>", "E05 1"),
    ("#include <stdio.h> x", "E05 1"),
    ("#define N", "E05 1"),
    ("#define N 3 4", "E05 1"),
    ("#define N'a'", "E05 1"),
    ("#define int 3", "E05 1"),
    ("#define _Thread_local 3", "E05 1"),
    ("#define N 1\n#define N 1", "E05 2"),
    ("#define A 08", "E05 1"),
    ("#define A 1.5", "E05 1"),
    ("#define A 'ab'", "E05 1"),
    ("#define A 'x", "E05 1"),
    ("#define A 3 /*\n*/", "E05 1"),
    ("#define A 99999999999999999999", "E07 1"),
    ("#define A\\\n '\\777'", "E07 2"),
    ("#define A 1\n#define A 99999999999999999999", "E05 2"),
    ("#pragma", "E05 1"),
    ("#pragma 12", "E05 1"),
    ("#pragma cle", "E05 1"),
    ("#pragma cle begin", "E05 1"),
    ("#pragma cle A B", "E05 1"),
    ("#pragma cle def X", "E05 1"),
    ("#pragma cle /* c */ def X {}", "E05 1"),
    ("#pragma x /* y", "E05 1"),
    ("#pragma x \u{7}", "E02 1"),
    ("#pragma cle def X \u{7}", "E02 1"),
    ("#pragma cle \u{7}", "E05 1"),
    ("#pragma cle \u{e9}", "E05 1"),
    ("#pragma cle begin \u{e9}", "E05 1"),
];

#[test]
fn directives_define_and_annotate(rt: HostRuntime) -> Result<(), Fail> {
    let alloc = rt.alloc();
    assert_eq!(rt; differs(alloc, &DIRECTIVES)?, None);
    Ok(())
}

#[test]
fn bad_directives_are_refused(rt: HostRuntime) -> Result<(), Fail> {
    let alloc = rt.alloc();
    assert_eq!(rt; differs(alloc, &BAD_DIRECTIVES)?, None);
    Ok(())
}
