//! Texts of policies for the tests.

use std::alloc::{AllocError, Global};

/// A rule that lets every request of `orange` by `purple` pass.
const ONE: &str = r#"{"from":"purple","to":"orange","function":"*","on":"request","do":"allow"},"#;

/// A policy of one rule that redacts one field of a request of `kinds`.
pub fn with_number(alloc: Global, field: &str, with: &str) -> Result<String, AllocError> {
    format!(in alloc;
        r#"{{"format":1,"rules":[{{"from":"purple","to":"orange","function":"kinds","on":"request","do":"redact","fields":[{{"field":"{field}","with":{with}}}]}}]}}"#
    )
}

/// A policy of one rule that redacts two fields of `draw`: that of the path, and a second time with another number.
pub fn with_path(alloc: Global, on: &str, field: &str) -> Result<String, AllocError> {
    format!(in alloc;
        r#"{{"format":1,"rules":[{{"from":"purple","to":"orange","function":"draw","on":"{on}","do":"redact","fields":[{{"field":"{field}","with":5}},{{"field":"{field}","with":-6}}]}}]}}"#
    )
}

/// A policy of so many rules and a last one.
pub fn many(alloc: Global, before: u32, last: &str) -> Result<String, AllocError> {
    let mut text = String::new(alloc);
    text.push_str(r#"{"format":1,"rules":["#)?;
    for _ in 0..before {
        text.push_str(ONE)?;
    }
    text.push_str(last)?;
    Ok(text)
}
