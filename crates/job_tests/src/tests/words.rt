//! Words that have no reading, and words that ask for a check or a run.

use super::{Case, PLAIN, check};
use cl_job::status::Status;
use std::test::Fail;

pub const USAGE: &str =
    "closure: usage: check SRC | divide SRC DIR | run [options] SRC [LEVEL=FILE ...] | drill N\n";

/// Words that have no reading.
const OTHER_WORDS: [&str; 43] = [
    "",
    "run",
    "run ",
    "run -",
    "run --",
    "run -- a.c",
    "run a.c b.c",
    "run a.c purple=b",
    "Run a.c",
    "check",
    "check ",
    "check -",
    "check -- a.c",
    "check a.c a.c",
    "check --journal j a.c",
    "check --journal=j a.c",
    "Check a.c",
    "divide a.c d",
    "drill 3",
    "run a.c --journal j",
    "run a.c --journal=j",
    "run --journal",
    "run --journal j",
    "run --journal=j",
    "run --journal= a.c",
    "run --journal  a.c",
    "run --journal=-j a.c",
    "run --journal -j a.c",
    "run --journal j -a.c",
    "run --journal a --journal b a.c",
    "run --journal=a --journal=b a.c",
    "run --journal a --journal=b a.c",
    "run --journal=a --journal b a.c",
    "run --journal --journal=b a.c",
    "run --Journal=j a.c",
    "run --journa=j a.c",
    "run --journals=j a.c",
    "run -journal=j a.c",
    "run =j a.c",
    "run -=j a.c",
    "run --policy p a.c",
    "run --steps 5 a.c",
    "run --workers=2 a.c",
];

#[test]
fn other_words_are_usage(rt: HostRuntime) -> Result<(), Fail> {
    for line in OTHER_WORDS {
        let case = Case {
            line,
            err: USAGE,
            status: Status::Usage,
            ..PLAIN
        };
        check(&rt, rt.alloc(), &case)?;
    }
    assert_eq!(rt; Status::Usage.code(), 64);
    Ok(())
}

/// Words, and what is told of them.
const WITH_EQUALS_SIGN: [(&str, &str); 4] = [
    ("check a=b", "closure: cannot read a=b\n"),
    ("run a=b", "closure: cannot read a=b\n"),
    ("run --journal=a=b c", "closure: cannot read c\n"),
    ("run --journal a=b c=d", "closure: cannot read c=d\n"),
];

/// The option may have an `=` in its value.
#[test]
fn a_value_may_have_an_equals_sign(rt: HostRuntime) -> Result<(), Fail> {
    for row in &WITH_EQUALS_SIGN {
        let (line, err) = *row;
        let case = Case {
            line,
            err,
            status: Status::ReadFault,
            ..PLAIN
        };
        check(&rt, rt.alloc(), &case)?;
    }
    Ok(())
}
