// Sources at a limit, which are read, and one past it, which E23 refuses at the line of what passes it.

use super::read;
use cl_read::stop::ReadStop;
use std::alloc::{AllocError, Global};
use std::test::Fail;

// A source: its beginning, a unit so many times, its middle, an end of the unit as many times, and its end; and the
// line of what passes a limit.
const LIMITS: [(&str, &str, &str, &str, &str, u32, Option<u32>); 7] = [
    // The bracket of number n stands on line n + 1.
    ("int a =", "\n(", "1", ")", ";", 64, None),
    ("int a =", "\n(", "1", ")", ";", 65, Some(66)),
    // The terminal of number n stands on line n, and none of them but the last separates.
    ("int\na\n=", "\n-", "\n1\n;", "", "", 508, None),
    ("int\na\n=", "\n-", "\n1\n;", "", "", 509, Some(513)),
    // The `else` of number n stands on line n + 1.
    (
        "int f(void) {",
        "\nif (a) ; else",
        " ; }",
        "",
        "",
        256,
        None,
    ),
    (
        "int f(void) {",
        "\nif (a) ; else",
        " ; }",
        "",
        "",
        257,
        Some(258),
    ),
    // A limit goes before an item without a reading.
    ("int a", "[", "", "", "", 65, Some(1)),
];

fn add(source: &mut String, times: u32, unit: &str) -> Result<(), AllocError> {
    for _ in 0..times {
        source.push_str(unit)?;
    }
    Ok(())
}

// The line at which E23 refuses the source; none where it is read, and 0 where something else stops it.
fn passed(alloc: Global, source: &str) -> Option<u32> {
    match read(alloc, source) {
        Ok(_) => None,
        Err(ReadStop::Refused { rule: 23, line }) => Some(line),
        Err(_) => Some(0),
    }
}

fn differs(
    alloc: Global,
    rows: &[(&str, &str, &str, &str, &str, u32, Option<u32>)],
) -> Result<Option<u32>, AllocError> {
    for (begin, unit, middle, unit_end, end, times, line) in rows {
        let mut source = String::from_str(alloc, begin)?;
        add(&mut source, *times, unit)?;
        source.push_str(middle)?;
        add(&mut source, *times, unit_end)?;
        source.push_str(end)?;
        if passed(alloc, source.as_str()) != *line {
            return Ok(Some(*times));
        }
    }
    Ok(None)
}

#[test]
fn sources_past_a_limit_are_refused(rt: HostRuntime) -> Result<(), Fail> {
    let alloc = rt.alloc();
    assert_eq!(rt; differs(alloc, &LIMITS)?, None);
    Ok(())
}
