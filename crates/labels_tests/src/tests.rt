// What the texts of definitions say. Each text differs from one that is a definition in what its row says; what is wanted
// comes from the rules of annotations and from RFC 8259.

use cl_labelling::draft::Draft;
use cl_mean::labels::{Direction, Operation};
use cle_text::definition::{TextStop, definition_of};
use std::alloc::{AllocError, Global};
use std::test::Fail;

/// What a text is, by its kind.
#[derive(Clone, Copy, Debug, PartialEq, Eq)]
enum Kind {
    Definition,
    Misshapen,
    NotJson,
    NoMemory,
}

use Kind::{Definition, Misshapen, NotJson};

const LEVELS: [(&str, Kind); 19] = [
    (r#"{"level":"purple"}"#, Definition),
    (r#"{}"#, Misshapen),
    (r#"[]"#, Misshapen),
    (r#"null"#, Misshapen),
    (r#""purple""#, Misshapen),
    (r#"{"level":7}"#, Misshapen),
    (r#"{"level":["purple"]}"#, Misshapen),
    (r#"{"level":""}"#, Misshapen),
    (r#"{"level":"7up"}"#, Misshapen),
    (r#"{"level":"up7"}"#, Definition),
    (r#"{"level":"a_b"}"#, Misshapen),
    (r#"{"level":"ä"}"#, Misshapen),
    (
        r#"{"level":"abcdefghijklmnopqrstuvwxyzABCDEF"}"#,
        Definition,
    ),
    (
        r#"{"level":"abcdefghijklmnopqrstuvwxyzABCDEFG"}"#,
        Misshapen,
    ),
    (r#"{"level":"a","shape":{"level":7}}"#, Definition),
    (r#"{"level":"a","cdf":[]}"#, Definition),
    (r#"{"level":"a","cdf":null}"#, Misshapen),
    (r#"{"level":"a","cdf":{}}"#, Misshapen),
    (r#"{"level":"a","cdf":[7]}"#, Misshapen),
];

const TEXTS: [(&str, Kind); 7] = [
    ("", NotJson),
    ("{", NotJson),
    (r#"{"level":"a"} x"#, NotJson),
    (r#"/* c */ {}"#, NotJson),
    (r#"{"level":'a'}"#, NotJson),
    (r#"{"level":"a",}"#, NotJson),
    (r#" {"level" : "a"} "#, Definition),
];

/// Entries of a label, without taints.
const ENTRIES: [(&str, Kind); 18] = [
    (
        r#"{"remotelevel":"b","direction":"egress","guarddirective":{"operation":"allow"}}"#,
        Definition,
    ),
    (
        r#"{"remotelevel":"b","direction":"ingress","guarddirective":{"operation":"block"}}"#,
        Definition,
    ),
    (
        r#"{"remotelevel":"no level!","direction":"bidirectional","guarddirective":{"operation":"allow"}}"#,
        Definition,
    ),
    (
        r#"{"direction":"egress","guarddirective":{"operation":"allow"}}"#,
        Misshapen,
    ),
    (
        r#"{"remotelevel":7,"direction":"egress","guarddirective":{"operation":"allow"}}"#,
        Misshapen,
    ),
    (
        r#"{"remotelevel":"b","guarddirective":{"operation":"allow"}}"#,
        Misshapen,
    ),
    (
        r#"{"remotelevel":"b","direction":"both","guarddirective":{"operation":"allow"}}"#,
        Misshapen,
    ),
    (
        r#"{"remotelevel":"b","direction":true,"guarddirective":{"operation":"allow"}}"#,
        Misshapen,
    ),
    (r#"{"remotelevel":"b","direction":"egress"}"#, Misshapen),
    (
        r#"{"remotelevel":"b","direction":"egress","guarddirective":"allow"}"#,
        Misshapen,
    ),
    (
        r#"{"remotelevel":"b","direction":"egress","guarddirective":{}}"#,
        Misshapen,
    ),
    (
        r#"{"remotelevel":"b","direction":"egress","guarddirective":{"operation":"pass"}}"#,
        Misshapen,
    ),
    (
        r#"{"remotelevel":"b","direction":"egress","guarddirective":{"operation":7}}"#,
        Misshapen,
    ),
    (
        r#"{"remotelevel":"b","direction":"egress","guarddirective":{"operation":"redact","redact":[]}}"#,
        Misshapen,
    ),
    (
        r#"{"remotelevel":"b","direction":"egress","guarddirective":{"operation":"allow","oneway":false}}"#,
        Definition,
    ),
    (
        r#"{"remotelevel":"b","direction":"egress","guarddirective":{"operation":"allow","oneway":true}}"#,
        Misshapen,
    ),
    (
        r#"{"remotelevel":"b","direction":"egress","guarddirective":{"operation":"allow","oneway":0}}"#,
        Misshapen,
    ),
    (
        r#"{"remotelevel":"b","direction":"egress","guarddirective":{"operation":"allow"},"x":[{}]}"#,
        Definition,
    ),
];

/// The taints of two entries, of which the first is for level b and the second for level c.
const TAINTS: [(&str, &str, Kind); 14] = [
    ("", "", Definition),
    (
        r#","argtaints":[],"codtaints":[],"rettaints":[]"#,
        r#","argtaints":[],"codtaints":[],"rettaints":[]"#,
        Definition,
    ),
    (
        r#","argtaints":[["P"],[]],"codtaints":["P","Q"],"rettaints":["Q"]"#,
        r#","argtaints":[["P"],[]],"codtaints":["P","Q"],"rettaints":["Q"]"#,
        Definition,
    ),
    (
        r#","argtaints":[],"codtaints":[],"rettaints":[]"#,
        "",
        Misshapen,
    ),
    (
        "",
        r#","argtaints":[],"codtaints":[],"rettaints":[]"#,
        Misshapen,
    ),
    (
        r#","argtaints":[["P"]],"codtaints":[],"rettaints":[]"#,
        r#","argtaints":[["Q"]],"codtaints":[],"rettaints":[]"#,
        Misshapen,
    ),
    (
        r#","argtaints":[["P"]],"codtaints":[],"rettaints":[]"#,
        r#","argtaints":[["P"],[]],"codtaints":[],"rettaints":[]"#,
        Misshapen,
    ),
    (
        r#","argtaints":[["P","Q"]],"codtaints":[],"rettaints":[]"#,
        r#","argtaints":[["Q","P"]],"codtaints":[],"rettaints":[]"#,
        Misshapen,
    ),
    (
        r#","argtaints":[],"codtaints":["P"],"rettaints":[]"#,
        r#","argtaints":[],"codtaints":["Q"],"rettaints":[]"#,
        Misshapen,
    ),
    (
        r#","argtaints":[],"codtaints":[],"rettaints":["P"]"#,
        r#","argtaints":[],"codtaints":[],"rettaints":["Q"]"#,
        Misshapen,
    ),
    (
        r#","argtaints":[],"codtaints":[],"rettaints":["P","Q"]"#,
        r#","argtaints":[],"codtaints":[],"rettaints":["P","Q"]"#,
        Misshapen,
    ),
    (
        r#","argtaints":[],"codtaints":[]"#,
        r#","argtaints":[],"codtaints":[]"#,
        Misshapen,
    ),
    (
        r#","argtaints":["P"],"codtaints":[],"rettaints":[]"#,
        r#","argtaints":["P"],"codtaints":[],"rettaints":[]"#,
        Misshapen,
    ),
    (
        r#","argtaints":[],"codtaints":"P","rettaints":[]"#,
        r#","argtaints":[],"codtaints":"P","rettaints":[]"#,
        Misshapen,
    ),
];

/// The fields of an entry that redacts, in a function's label.
const FIELDS: [(&str, Kind); 12] = [
    (r#","redact":[]"#, Definition),
    ("", Misshapen),
    (r#","redact":{}"#, Misshapen),
    (
        r#","redact":[{"on":"request","field":"n","with":0}]"#,
        Definition,
    ),
    (
        r#","redact":[{"on":"reply","field":"return.a.b","with":-5}]"#,
        Definition,
    ),
    (
        r#","redact":[{"on":"reply","field":"","with":18446744073709551615}]"#,
        Definition,
    ),
    (
        r#","redact":[{"on":"both","field":"n","with":0}]"#,
        Misshapen,
    ),
    (r#","redact":[{"field":"n","with":0}]"#, Misshapen),
    (r#","redact":[{"on":"request","with":0}]"#, Misshapen),
    (r#","redact":[{"on":"request","field":"n"}]"#, Misshapen),
    (
        r#","redact":[{"on":"request","field":"n","with":0.5}]"#,
        Misshapen,
    ),
    (
        r#","redact":[{"on":"request","field":"n","with":"0"}]"#,
        Misshapen,
    ),
];

fn kind_of(alloc: Global, text: &[u8]) -> Kind {
    match definition_of(alloc, text) {
        Ok(_) => Kind::Definition,
        Err(TextStop::Misshapen) => Kind::Misshapen,
        Err(TextStop::NotJson) => Kind::NotJson,
        Err(TextStop::NoMemory) => Kind::NoMemory,
    }
}

/// The first row of another kind, with its text.
fn misread<'a>(alloc: Global, rows: &'a [(&'a str, Kind)]) -> Option<(&'a str, Kind)> {
    for (text, want) in rows {
        let kind = kind_of(alloc, text.as_bytes());
        if kind != *want {
            return Some((text, kind));
        }
    }
    None
}

#[test]
fn a_level_is_a_short_word(rt: HostRuntime) {
    assert_eq!(rt; misread(rt.alloc(), &LEVELS), None);
}

#[test]
fn a_text_is_json(rt: HostRuntime) {
    assert_eq!(rt; misread(rt.alloc(), &TEXTS), None);
    assert_eq!(rt;
        kind_of(rt.alloc(), b"{\"level\":\"a\",\"x\":\"\xff\"}"),
        NotJson
    );
}

fn misread_entry(alloc: Global, rows: &[(&str, Kind)]) -> Result<Option<String>, AllocError> {
    for (entry, want) in rows {
        let text = format!(in alloc; "{{\"level\":\"a\",\"cdf\":[{entry}]}}")?;
        if kind_of(alloc, text.as_bytes()) != *want {
            return Ok(Some(text));
        }
    }
    Ok(None)
}

#[test]
fn an_entry_has_its_parts(rt: HostRuntime) -> Result<(), Fail> {
    assert_eq!(rt; misread_entry(rt.alloc(), &ENTRIES)?, None);
    Ok(())
}

fn misread_taints(
    alloc: Global,
    rows: &[(&str, &str, Kind)],
) -> Result<Option<String>, AllocError> {
    for (first, second, want) in rows {
        let text = format!(in alloc;
            "{{\"level\":\"a\",\"cdf\":[{{\"remotelevel\":\"b\",\"direction\":\"egress\",\"guarddirective\":{{\"operation\":\"allow\"}}{first}}},{{\"remotelevel\":\"c\",\"direction\":\"egress\",\"guarddirective\":{{\"operation\":\"allow\"}}{second}}}]}}"
        )?;
        if kind_of(alloc, text.as_bytes()) != *want {
            return Ok(Some(text));
        }
    }
    Ok(None)
}

#[test]
fn all_entries_have_the_same_taints(rt: HostRuntime) -> Result<(), Fail> {
    assert_eq!(rt; misread_taints(rt.alloc(), &TAINTS)?, None);
    Ok(())
}

fn misread_fields(alloc: Global, rows: &[(&str, Kind)]) -> Result<Option<String>, AllocError> {
    for (fields, want) in rows {
        let text = format!(in alloc;
            "{{\"level\":\"a\",\"cdf\":[{{\"remotelevel\":\"a\",\"direction\":\"egress\",\"guarddirective\":{{\"operation\":\"redact\"{fields}}},\"argtaints\":[],\"codtaints\":[],\"rettaints\":[]}}]}}"
        )?;
        if kind_of(alloc, text.as_bytes()) != *want {
            return Ok(Some(text));
        }
    }
    Ok(None)
}

#[test]
fn a_redaction_has_its_fields(rt: HostRuntime) -> Result<(), Fail> {
    assert_eq!(rt; misread_fields(rt.alloc(), &FIELDS)?, None);
    Ok(())
}

/// A label with entries for the levels r0, r1 and so on.
fn many_entries(alloc: Global, count: u32) -> Result<String, AllocError> {
    let mut text = String::from_str(alloc, r#"{"level":"a","cdf":["#)?;
    for k in 0..count {
        if k > 0 {
            text.push_str(",")?;
        }
        let entry = format!(in alloc;
            "{{\"remotelevel\":\"r{k}\",\"direction\":\"egress\",\"guarddirective\":{{\"operation\":\"allow\"}}}}"
        )?;
        text.push_str(entry.as_str())?;
    }
    text.push_str("]}")?;
    Ok(text)
}

const SAME_REMOTE: &str =
    r#"{"level":"a","cdf":[{"remotelevel":"b","direction":"egress","guarddirective":{"operation":"allow"}},{"remotelevel":"b","direction":"ingress","guarddirective":{"operation":"allow"}}]}"#;

#[test]
fn entries_are_few_and_for_different_levels(rt: HostRuntime) -> Result<(), Fail> {
    let alloc = rt.alloc();
    assert_eq!(rt;
        kind_of(alloc, many_entries(alloc, 32)?.as_bytes()),
        Definition
    );
    assert_eq!(rt;
        kind_of(alloc, many_entries(alloc, 33)?.as_bytes()),
        Misshapen
    );
    assert_eq!(rt; kind_of(alloc, SAME_REMOTE.as_bytes()), Misshapen);
    Ok(())
}

/// A definition with a key of that many lists, each in the one before.
fn nested(alloc: Global, depth: usize) -> Result<String, AllocError> {
    let mut text = String::from_str(alloc, r#"{"level":"a","x":"#)?;
    for _ in 0..depth {
        text.push_str("[")?;
    }
    for _ in 0..depth {
        text.push_str("]")?;
    }
    text.push_str("}")?;
    Ok(text)
}

#[test]
fn brackets_are_not_nested_too_deep(rt: HostRuntime) -> Result<(), Fail> {
    let alloc = rt.alloc();
    assert_eq!(rt; kind_of(alloc, nested(alloc, 100)?.as_bytes()), Definition);
    assert_eq!(rt; kind_of(alloc, nested(alloc, 200)?.as_bytes()), NotJson);
    Ok(())
}

const WHOLE: &str =
    r#"{"level":"orange","cdf":[{"remotelevel":"purple","direction":"bidirectional","guarddirective":{"operation":"redact","redact":[{"on":"reply","field":"return.a","with":-7}]},"argtaints":[["P"],[]],"codtaints":["@orange"],"rettaints":["R"]}]}"#;

fn shown(alloc: Global, draft: &Draft) -> Result<String, AllocError> {
    let mut text = String::from_str(alloc, draft.level.text())?;
    for entry in draft.entries.as_slice() {
        let remote = entry.remote.text();
        let is_both = entry.direction == Direction::Bidirectional;
        let is_redacted = entry.operation == Operation::Redact;
        let row = format!(in alloc; "; {remote} {is_both} {is_redacted}")?;
        text.push_str(row.as_str())?;
        for field in entry.redact.as_slice() {
            let first = field.path.as_slice().first().map(|p| p.text());
            let row = format!(in alloc;
                " {} {} {:?} {}",
                field.reply,
                field.path.len(),
                first,
                field.with
            )?;
            text.push_str(row.as_str())?;
        }
    }
    if let Some(taints) = &draft.taints {
        let row = format!(in alloc;
            "; {} {} {}",
            taints.args.len(),
            taints.code.len(),
            taints.result.len()
        )?;
        text.push_str(row.as_str())?;
    }
    Ok(text)
}

#[test]
fn a_definition_is_read_whole(rt: HostRuntime) -> Result<(), Fail> {
    let alloc = rt.alloc();
    let Ok(draft) = definition_of(alloc, WHOLE.as_bytes()) else {
        assert!(rt; false, "a definition");
        return Ok(());
    };
    assert_eq!(rt;
        shown(alloc, &draft)?.as_str(),
        "orange; purple true true true 2 Some(\"return\") -7; 2 1 1"
    );
    Ok(())
}
