use crate::tests::reading::{Outcome, answers};
use cl_base::name::NoMemory;
use policy_source::texts::many;
use std::alloc::Global;
use std::test::Fail;

const LAST: &str =
    r#"{"from":"purple","to":"orange","function":"draw","on":"reply","do":"block"}]}"#;

/// A last rule that names no function.
const UNKNOWN: &str =
    r#"{"from":"purple","to":"orange","function":"nope","on":"reply","do":"block"}]}"#;

/// The rules before the last, the last, and what is answered.
struct Counted {
    before: u32,
    last: &'static str,
    wanted: Outcome,
}

const COUNTED: [Counted; 4] = [
    Counted {
        before: 0,
        last: LAST,
        wanted: Outcome::Rules(1),
    },
    Counted {
        before: 1023,
        last: LAST,
        wanted: Outcome::Rules(1024),
    },
    Counted {
        before: 1024,
        last: LAST,
        wanted: Outcome::Fails(5, 0),
    },
    Counted {
        before: 1024,
        last: UNKNOWN,
        wanted: Outcome::Fails(3, 1025),
    },
];

fn counts(alloc: Global, case: &Counted) -> Result<bool, NoMemory> {
    let text = many(alloc, case.before, case.last)?;
    answers(alloc, &text, case.wanted)
}

#[test]
fn rules_are_counted(rt: HostRuntime) -> Result<(), Fail> {
    for case in &COUNTED {
        assert!(rt; counts(rt.alloc(), case)?);
    }
    Ok(())
}
