//! Sources that are made by rows.

use std::alloc::{AllocError, Global};

/// Functions each of which calls the one before it, and `main`, which calls the last.
pub(crate) fn chain(alloc: Global, functions: usize) -> Result<String, AllocError> {
    let mut text = String::new(alloc);
    text.push_str("#pragma cle def P {\"level\":\"purple\"}\nint f0(void) { return 0; }\n")?;
    let mut last = 0usize;
    for k in 1..functions {
        let row = format!(in alloc; "int f{k}(void) {{ return f{last}(); }}\n")?;
        text.push_str(row.as_str())?;
        last = k;
    }
    let row = format!(in alloc; "int main(void) {{ return f{last}(); }}\n")?;
    text.push_str(row.as_str())?;
    Ok(text)
}

/// Adds a definition of a label of a level, with an entry for another.
fn add_definition(
    alloc: Global,
    text: &mut String,
    level: usize,
    remote: usize,
) -> Result<(), AllocError> {
    let head = format!(in alloc;
        "#pragma cle def F{level} {{\"level\":\"l{level}\",\"cdf\":[{{\"remotelevel\":\"l{remote}\""
    )?;
    text.push_str(head.as_str())?;
    text.push_str(
        ",\"direction\":\"bidirectional\",\"guarddirective\":{\"operation\":\"allow\"},\"argtaints\":[],\"codtaints\":[],\"rettaints\":[]}]}\n",
    )
}

/// Adds the definitions of labels of 32 levels, the first of which is called by the last, and each other by the one before it.
fn add_definitions(alloc: Global, text: &mut String) -> Result<(), AllocError> {
    let mut before = 31usize;
    for level in 0..32usize {
        add_definition(alloc, text, level, before)?;
        before = level;
    }
    Ok(())
}

/// Adds a function of each level but the last, which calls that of the next one.
fn add_functions(alloc: Global, text: &mut String) -> Result<(), AllocError> {
    let mut next = 31usize;
    for place in 1..32usize {
        let level = 31 - place;
        let row = format!(in alloc;
            "#pragma cle F{level}\nvoid f{level}(void) {{ f{next}(); }}\n"
        )?;
        text.push_str(row.as_str())?;
        next = level;
    }
    Ok(())
}

/// Functions of 32 levels, each of which calls that of the next level. `last` is what the last one does.
pub(crate) fn levels(alloc: Global, last: &str) -> Result<String, AllocError> {
    let mut text = String::new(alloc);
    add_definitions(alloc, &mut text)?;
    text.push_str("#pragma cle F0\nvoid f0(void);\n#pragma cle F31\nvoid f31(void) { ")?;
    text.push_str(last)?;
    text.push_str("}\n")?;
    add_functions(alloc, &mut text)?;
    text.push_str("int main(void) { f0(); return 0; }\n")?;
    Ok(text)
}

/// `main`, with a number in so many brackets.
pub(crate) fn brackets(alloc: Global, count: usize) -> Result<String, AllocError> {
    let mut text = String::new(alloc);
    text.push_str("#pragma cle def P {\"level\":\"purple\"}\nint main(void) { return ")?;
    for _ in 0..count {
        text.push_str("(")?;
    }
    text.push_str("0")?;
    for _ in 0..count {
        text.push_str(")")?;
    }
    text.push_str("; }\n")?;
    Ok(text)
}
