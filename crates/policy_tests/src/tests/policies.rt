use crate::tests::reading::{Outcome, answers, read};
use cl_base::name::NoMemory;
use cl_mean::law::{GuardAct, Law, Patch, Rule};
use policy_source::texts::{with_number, with_path};
use std::alloc::Global;
use std::test::Fail;

/// A policy that is refused, with the rule and the place.
struct Refused {
    text: &'static str,
    rule: u8,
    at: u32,
}

const REFUSED: [Refused; 22] = [
    Refused {
        text: "{",
        rule: 1,
        at: 0,
    },
    Refused {
        text: "",
        rule: 1,
        at: 0,
    },
    Refused {
        text: "[]",
        rule: 2,
        at: 0,
    },
    Refused {
        text: r#"{"format":2,"rules":[]}"#,
        rule: 2,
        at: 0,
    },
    Refused {
        text: r#"{"format":1.0,"rules":[]}"#,
        rule: 2,
        at: 0,
    },
    Refused {
        text: r#"{"format":1,"rules":{}}"#,
        rule: 2,
        at: 0,
    },
    Refused {
        text: r#"{"format":1}"#,
        rule: 2,
        at: 0,
    },
    Refused {
        text: r#"{"format":1,"rules":[7]}"#,
        rule: 2,
        at: 1,
    },
    Refused {
        text: r#"{"format":1,"rules":[{"from":"purple","to":"orange","function":"*","on":"request","do":"allow"},{"from":"purple","to":"orange","function":"*","on":"both","do":"allow"}]}"#,
        rule: 2,
        at: 2,
    },
    Refused {
        text: r#"{"format":1,"rules":[{"from":"purple","to":"orange","function":"*","on":"request","do":"quota","left":-1}]}"#,
        rule: 2,
        at: 1,
    },
    Refused {
        text: r#"{"format":1,"rules":[{"from":"purple","to":"orange","function":"*","on":"request","do":"quota","left":1.5}]}"#,
        rule: 2,
        at: 1,
    },
    Refused {
        text: r#"{"format":1,"rules":[{"from":"purple","to":"orange","function":"*","on":"request","do":"redact","fields":[]}]}"#,
        rule: 2,
        at: 1,
    },
    Refused {
        text: r#"{"format":1,"rules":[{"from":"red","to":"orange","function":"*","on":"request","do":"allow"}]}"#,
        rule: 3,
        at: 1,
    },
    Refused {
        text: r#"{"format":1,"rules":[{"from":"purple","to":"red","function":"*","on":"request","do":"allow"}]}"#,
        rule: 3,
        at: 1,
    },
    Refused {
        text: r#"{"format":1,"rules":[{"from":"orange","to":"purple","function":"draw","on":"request","do":"allow"}]}"#,
        rule: 3,
        at: 1,
    },
    Refused {
        text: r#"{"format":1,"rules":[{"from":"purple","to":"orange","function":"nope","on":"reply","do":"block"}]}"#,
        rule: 3,
        at: 1,
    },
    Refused {
        text: r#"{"format":1,"rules":[{"from":"purple","to":"orange","function":"draw","on":"request","do":"redact","fields":[{"field":"return","with":0}]}]}"#,
        rule: 3,
        at: 1,
    },
    Refused {
        text: r#"{"format":1,"rules":[{"from":"purple","to":"orange","function":"draw","on":"reply","do":"redact","fields":[{"field":"s","with":0}]}]}"#,
        rule: 3,
        at: 1,
    },
    Refused {
        text: r#"{"format":1,"rules":[{"from":"purple","to":"orange","function":"draw","on":"request","do":"redact","fields":[{"field":"s.ends.z","with":0}]}]}"#,
        rule: 3,
        at: 1,
    },
    Refused {
        text: r#"{"format":1,"rules":[{"from":"purple","to":"orange","function":"*","on":"request","do":"quota","left":1000000001}]}"#,
        rule: 4,
        at: 1,
    },
    Refused {
        text: r#"{"format":1,"rules":[{"from":"purple","to":"orange","function":"*","on":"request","do":"quota","left":1000000001},{"from":"purple","to":"orange","function":"nope","on":"request","do":"allow"}]}"#,
        rule: 3,
        at: 2,
    },
    Refused {
        text: r#"{"format":1,"rules":[{"from":"red","to":"orange","function":"*","on":"request","do":"allow"},{"from":"purple","to":"orange","function":"*","on":"request"}]}"#,
        rule: 2,
        at: 2,
    },
];

/// A parameter of `kinds` with its least number and its greatest, and with those past them, and the rules for policies that
/// these break. Numbers of more than 64 bits are no whole numbers, so that a rule with one has a wrong shape.
struct Ends {
    field: &'static str,
    least: &'static str,
    greatest: &'static str,
    below: &'static str,
    above: &'static str,
    first: u8,
    last: u8,
}

const ENDS: [Ends; 10] = [
    Ends {
        field: "a",
        least: "-128",
        greatest: "127",
        below: "-129",
        above: "128",
        first: 4,
        last: 4,
    },
    Ends {
        field: "b",
        least: "0",
        greatest: "255",
        below: "-1",
        above: "256",
        first: 4,
        last: 4,
    },
    Ends {
        field: "c",
        least: "-32768",
        greatest: "32767",
        below: "-32769",
        above: "32768",
        first: 4,
        last: 4,
    },
    Ends {
        field: "d",
        least: "0",
        greatest: "65535",
        below: "-1",
        above: "65536",
        first: 4,
        last: 4,
    },
    Ends {
        field: "e",
        least: "-2147483648",
        greatest: "2147483647",
        below: "-2147483649",
        above: "2147483648",
        first: 4,
        last: 4,
    },
    Ends {
        field: "f",
        least: "0",
        greatest: "4294967295",
        below: "-1",
        above: "4294967296",
        first: 4,
        last: 4,
    },
    Ends {
        field: "g",
        least: "-9223372036854775808",
        greatest: "9223372036854775807",
        below: "-9223372036854775809",
        above: "9223372036854775808",
        first: 2,
        last: 4,
    },
    Ends {
        field: "h",
        least: "0",
        greatest: "18446744073709551615",
        below: "-1",
        above: "18446744073709551616",
        first: 4,
        last: 2,
    },
    Ends {
        field: "i",
        least: "-9223372036854775808",
        greatest: "9223372036854775807",
        below: "-9223372036854775809",
        above: "9223372036854775808",
        first: 2,
        last: 4,
    },
    Ends {
        field: "j",
        least: "0",
        greatest: "18446744073709551615",
        below: "-1",
        above: "18446744073709551616",
        first: 4,
        last: 2,
    },
];

/// A path of `draw`, whether on its reply, and the places under it. A request has the parts of `s` (`x` and `y` of two
/// points, then `h`) and then the three elements of `v`, and so has a reply, with the result in the place of `s`.
struct Led {
    field: &'static str,
    reply: bool,
    places: &'static [u32],
}

const PATHS: [Led; 9] = [
    Led {
        field: "s",
        reply: false,
        places: &[0, 1, 2, 3, 4],
    },
    Led {
        field: "s.ends",
        reply: false,
        places: &[0, 1, 2, 3],
    },
    Led {
        field: "s.ends.x",
        reply: false,
        places: &[0, 2],
    },
    Led {
        field: "s.ends.y",
        reply: false,
        places: &[1, 3],
    },
    Led {
        field: "s.h",
        reply: false,
        places: &[4],
    },
    Led {
        field: "v",
        reply: false,
        places: &[5, 6, 7],
    },
    Led {
        field: "return.ends.y",
        reply: true,
        places: &[1, 3],
    },
    Led {
        field: "return",
        reply: true,
        places: &[0, 1, 2, 3, 4],
    },
    Led {
        field: "v",
        reply: true,
        places: &[5, 6, 7],
    },
];

#[test]
fn wrong_policies_are_refused(rt: HostRuntime) -> Result<(), Fail> {
    for case in &REFUSED {
        assert!(rt; answers(rt.alloc(), case.text, Outcome::Fails(case.rule, case.at))?);
    }
    Ok(())
}

/// Whether a policy is answered so that redacts a parameter of `kinds` with a number.
fn number_answers(
    alloc: Global,
    field: &str,
    with: &str,
    wanted: Outcome,
) -> Result<bool, NoMemory> {
    let text = with_number(alloc, field, with)?;
    answers(alloc, &text, wanted)
}

/// Whether the numbers at the ends of a parameter's type are read, and those past them refused.
fn ends_there(alloc: Global, case: &Ends) -> Result<bool, NoMemory> {
    Ok(
        number_answers(alloc, case.field, case.least, Outcome::Rules(1))?
            && number_answers(alloc, case.field, case.greatest, Outcome::Rules(1))?
            && number_answers(alloc, case.field, case.below, Outcome::Fails(case.first, 1))?
            && number_answers(alloc, case.field, case.above, Outcome::Fails(case.last, 1))?,
    )
}

#[test]
fn numbers_are_in_the_types_of_their_places(rt: HostRuntime) -> Result<(), Fail> {
    for case in &ENDS {
        assert!(rt; ends_there(rt.alloc(), case)?);
    }
    Ok(())
}

/// Whether patches put a number at each of these places.
fn are_at(patches: &[Patch], places: &[u32], with: i128) -> bool {
    patches.len() == places.len()
        && patches
            .iter()
            .zip(places)
            .all(|(patch, at)| *patch == Patch { at: *at, with })
}

/// Whether a rule redacts these places of `draw`'s requests, or replies, first with 5 and then with -6.
fn redacts(rule: &Rule, reply: bool, places: &[u32]) -> bool {
    let GuardAct::Redact(patches) = &rule.act else {
        return false;
    };
    let patches = patches.as_slice();
    if patches.len() != 2 * places.len() || rule.reply != reply || rule.function != Some(0) {
        return false;
    }
    let (first, second) = patches.split_at(places.len());
    are_at(first, places, 5) && are_at(second, places, -6)
}

fn is_redacting(law: &Law, reply: bool, places: &[u32]) -> bool {
    match law.rules.as_slice() {
        [rule] => rule.from == Some(0) && rule.to == Some(1) && redacts(rule, reply, places),
        _ => false,
    }
}

/// Whether the policy of a path is read, and redacts these places.
fn leads(alloc: Global, field: &str, reply: bool, places: &[u32]) -> Result<bool, NoMemory> {
    let on = if reply { "reply" } else { "request" };
    let text = with_path(alloc, on, field)?;
    match read(alloc, &text)? {
        Ok(law) => Ok(is_redacting(&law, reply, places)),
        Err(_) => Ok(false),
    }
}

#[test]
fn paths_lead_to_their_integers(rt: HostRuntime) -> Result<(), Fail> {
    for case in &PATHS {
        assert!(rt; leads(rt.alloc(), case.field, case.reply, case.places)?);
    }
    Ok(())
}
