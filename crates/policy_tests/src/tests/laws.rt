use crate::tests::reading::read;
use cl_base::name::NoMemory;
use cl_mean::law::{Asked, Ruling};
use std::alloc::Global;
use std::test::Fail;

/// Redacts `s.ends`, and then `s.ends.x` within it.
const INNER_LAST: &str =
    r#"{"format":1,"rules":[{"from":"purple","to":"orange","function":"draw","on":"request","do":"redact","fields":[{"field":"s.ends","with":5},{"field":"s.ends.x","with":-6}]}]}"#;

/// Redacts `s.ends.x`, and then `s.ends`, which holds it.
const OUTER_LAST: &str =
    r#"{"format":1,"rules":[{"from":"purple","to":"orange","function":"draw","on":"request","do":"redact","fields":[{"field":"s.ends.x","with":-6},{"field":"s.ends","with":5}]}]}"#;

/// Blocks every request, before the rule that would redact one.
const NONE_LEFT: &str =
    r#"{"format":1,"rules":[{"from":"purple","to":"orange","function":"*","on":"request","do":"quota","left":0},{"from":"purple","to":"orange","function":"draw","on":"request","do":"redact","fields":[{"field":"s","with":0}]}]}"#;

/// The integers of a request: `x` and `y` of two points, `h`, and three elements.
const SENT: [i128; 8] = [10, 20, 30, 40, 50, 60, 70, 80];

/// A policy, whether it is asked about a reply, what it rules, and what it leaves.
struct Judged {
    text: &'static str,
    reply: bool,
    wanted: Ruling,
    left: [i128; 8],
}

const JUDGED: [Judged; 4] = [
    Judged {
        text: INNER_LAST,
        reply: false,
        wanted: Ruling::Pass,
        left: [-6, 5, -6, 5, 50, 60, 70, 80],
    },
    Judged {
        text: OUTER_LAST,
        reply: false,
        wanted: Ruling::Pass,
        left: [5, 5, 5, 5, 50, 60, 70, 80],
    },
    Judged {
        text: INNER_LAST,
        reply: true,
        wanted: Ruling::Pass,
        left: SENT,
    },
    Judged {
        text: NONE_LEFT,
        reply: false,
        wanted: Ruling::Block,
        left: SENT,
    },
];

/// What the law of a policy rules of `draw`; None where the policy isn't read.
fn ruling(
    alloc: Global,
    text: &str,
    reply: bool,
    values: &mut [i128],
) -> Result<Option<Ruling>, NoMemory> {
    let asked = Asked {
        from: 0,
        to: 1,
        function: 0,
        reply,
    };
    match read(alloc, text)? {
        Ok(mut law) => Ok(Some(law.judge(asked, values))),
        Err(_) => Ok(None),
    }
}

fn judges(alloc: Global, case: &Judged) -> Result<bool, NoMemory> {
    let mut values = SENT;
    let ruled = ruling(alloc, case.text, case.reply, &mut values)?;
    Ok(ruled == Some(case.wanted) && values == case.left)
}

#[test]
fn laws_that_were_read_judge(rt: HostRuntime) -> Result<(), Fail> {
    for case in &JUDGED {
        assert!(rt; judges(rt.alloc(), case)?);
    }
    Ok(())
}
