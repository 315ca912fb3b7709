// Sources and what they tell: `E14` or `E15` with the line, or each item in order: how many objects it declares or
// the function's name, its line, and its label, where `-` is none. What is wanted is worked out by hand.

use cl_base::limits::SOURCE_BYTES;
use cl_read::read::read_source;
use cl_regions::labels::Labels;
use cl_regions::marks::{Marked, marks};
use cl_regions::places::bad_region;
use cl_regions::roles::Subject;
use cl_regions::twice::two_labels;
use cl_scope::stop::Stop;
use std::alloc::{AllocError, Global};
use std::test::Fail;

const IN_FILES: [(&str, &str); 18] = [
    (
        "#pragma cle begin P\nint a;\n#pragma cle end P\nint b, c;\n",
        "1 2 P; 2 4 -; ",
    ),
    (
        "#pragma cle begin P\n#pragma cle begin P\nint a;\n#pragma cle end P\n#pragma cle end P\n",
        "E15 3",
    ),
    (
        "#pragma cle begin P\n#pragma cle begin P\n#pragma cle end P\nint b;\n#pragma cle end P\nint c;\n",
        "1 4 P; 1 6 -; ",
    ),
    (
        "#pragma cle begin P\n#pragma cle begin Q\n#pragma cle end P\nint a;\n#pragma cle end Q\nint b;\n",
        "1 4 Q; 1 6 -; ",
    ),
    (
        "#pragma cle begin P\n#pragma cle begin P\nint a;\n#pragma cle end P\n",
        "E14 1",
    ),
    ("#pragma cle begin P\n#pragma cle end Q\n", "E14 1"),
    ("int a;\n#pragma cle end P\n", "E14 2"),
    ("#pragma cle end P\nint a;\n#pragma cle begin P\n", "E14 1"),
    (
        "#pragma cle P\nstruct s { int n; };\nint a;\nint b;\n",
        "1 3 P; 1 4 -; ",
    ),
    (
        "#pragma cle P\n#pragma cle begin Q\n#pragma cle end Q\nint a;\n",
        "1 4 P; ",
    ),
    ("#pragma cle P\n#pragma cle P\nint a;\n", "E15 3"),
    ("int a;\n#pragma cle P\n", "E14 2"),
    ("int a;\n#pragma cle P\nstruct s { int n; };\n", "E14 2"),
    (
        "#pragma cle begin P\n#pragma cle Q\nint a;\n#pragma cle end P\n",
        "E15 3",
    ),
    (
        "#pragma cle P\nvoid f(void);\n#pragma cle Q\nvoid f(void);\n#pragma cle Q\nvoid g(void);\n",
        "E15 4",
    ),
    (
        "#pragma cle P\nvoid f(void);\nvoid f(void) { }\n#pragma cle P\nvoid f(void);\n",
        "f 2 P; f 3 -; f 5 P; ",
    ),
    (
        "void f(void);\n#pragma cle P\nvoid f(void);\n#pragma cle Q\nvoid f(void);\n",
        "E15 5",
    ),
    (
        "#pragma cle begin P\nint f(void) { static int n; return n; }\n#pragma cle end P\n",
        "f 2 P; 1 2 -; ",
    ),
];

const IN_BLOCKS: [(&str, &str); 9] = [
    (
        "int main(void) {\n#pragma cle begin P\nstatic int n;\nint k = 1;\n#pragma cle end P\nreturn 0; }\n",
        "main 1 -; 1 3 P; ",
    ),
    (
        "int main(void) {\n#pragma cle begin P\nstatic int n;\nint k = 1;\nreturn 0; }\n",
        "E14 2",
    ),
    (
        "int main(void) { return 0;\n#pragma cle P\n}\nint a;\n",
        "E14 2",
    ),
    (
        "int main(void) {\n#pragma cle P\nint k = 1;\nstatic int n;\nreturn 0; }\n",
        "E14 2",
    ),
    (
        "int main(void) {\n#pragma cle P\n#pragma cle def Q {}\nstatic int n, m;\nreturn 0; }\n",
        "main 1 -; 2 4 P; ",
    ),
    (
        "int main(void) {\n{\n#pragma cle begin P\n}\n#pragma cle end P\nreturn 0; }\n",
        "E14 3",
    ),
    (
        "int main(void) {\n#pragma cle begin P\n{ static int n; }\nstatic int m;\n#pragma cle end P\nreturn 0; }\n",
        "main 1 -; 1 3 -; 1 4 P; ",
    ),
    (
        "int main(void) {\nif (1) {\n#pragma cle P\nstatic int n; }\nelse {\n#pragma cle end P\n}\nreturn 0; }\n",
        "E14 6",
    ),
    (
        "int main(void) {\nwhile (0) {\n#pragma cle P\nstatic int n;\nstatic int m; }\nreturn 0; }\n",
        "main 1 -; 1 4 P; 1 5 -; ",
    ),
];

fn shown(alloc: Global, marks: &[Marked<'_>]) -> Result<String, AllocError> {
    let mut text = String::new(alloc);
    for m in marks {
        let subject = match m.subject {
            Subject::Objects(count) => format!(in alloc; "{count}")?,
            Subject::Function(name) => format!(in alloc; "{}", name.text())?,
        };
        let label = match m.labels {
            Labels::Nothing => "-",
            Labels::One(name) => name.text(),
            Labels::Many => "*",
        };
        let row = format!(in alloc; "{} {} {label}; ", subject.as_str(), m.line)?;
        text.push_str(row.as_str())?;
    }
    Ok(text)
}

fn told(alloc: Global, source: &str) -> Result<String, AllocError> {
    let bytes = source.as_bytes();
    if bytes.len() > SOURCE_BYTES {
        return format!(in alloc; "too long");
    }
    let Ok(program) = read_source(alloc, bytes) else {
        return format!(in alloc; "unread");
    };
    match bad_region(alloc, &program) {
        Ok(()) => {}
        Err(Stop::At(line)) => return format!(in alloc; "E14 {line}"),
        Err(Stop::NoMemory) => return format!(in alloc; "no memory"),
    }
    let Ok(marks) = marks(alloc, &program) else {
        return format!(in alloc; "no memory");
    };
    match two_labels(alloc, marks.as_slice()) {
        Ok(()) => shown(alloc, marks.as_slice()),
        Err(Stop::At(line)) => format!(in alloc; "E15 {line}"),
        Err(Stop::NoMemory) => format!(in alloc; "no memory"),
    }
}

/// The first row that tells something else.
fn misjudged(
    alloc: Global,
    rows: &[(&'static str, &'static str)],
) -> Result<Option<(&'static str, String)>, AllocError> {
    for (source, wanted) in rows {
        let told = told(alloc, source)?;
        if told.as_str() != *wanted {
            return Ok(Some((*source, told)));
        }
    }
    Ok(None)
}

#[test]
fn items_of_files_have_their_labels(rt: HostRuntime) -> Result<(), Fail> {
    assert_eq!(rt; misjudged(rt.alloc(), &IN_FILES)?, None);
    Ok(())
}

#[test]
fn items_of_blocks_have_their_labels(rt: HostRuntime) -> Result<(), Fail> {
    assert_eq!(rt; misjudged(rt.alloc(), &IN_BLOCKS)?, None);
    Ok(())
}

/// As many regions as given of names that begin alike, each in the one before it, then an object, then the ends from
/// the outermost one on.
fn nested(alloc: Global, count: u32, names: u32) -> Result<String, AllocError> {
    let mut text = String::new(alloc);
    for n in 0..count {
        let row = format!(in alloc; "#pragma cle begin P{}\n", n % names.max(1))?;
        text.push_str(row.as_str())?;
    }
    text.push_str("int a;\n")?;
    for n in 0..count {
        let row = format!(in alloc; "#pragma cle end P{}\n", n % names.max(1))?;
        text.push_str(row.as_str())?;
    }
    Ok(text)
}

#[test]
fn regions_stand_in_regions(rt: HostRuntime) -> Result<(), Fail> {
    let alloc = rt.alloc();
    let one = nested(alloc, 200, 1)?;
    assert_eq!(rt; told(alloc, one.as_str())?.as_str(), "E15 201");
    let many = nested(alloc, 256, 64)?;
    assert_eq!(rt; told(alloc, many.as_str())?.as_str(), "E15 257");
    Ok(())
}
