//! The first lines of a source.

ghost use Rattle.std.specs.Prelude.{◌≡◌, ◌++◌, IfOk, OnOk};
ghost use Rattle.std.specs.List.{flat_map};
ghost use Rattle.cl_form.specs.Form.{level_text, function_text, pair_text, def_line, next_line, variable_line, label_lines, head_lines};
ghost use Rattle.cl_form.specs.Reading.{is_headed};

use crate::names::{Alone, Pair};
use crate::part::behind;
use crate::text::is_plain_text;
use cl_base::name::{Name, NoMemory};
use std::alloc::{AllocError, Global};

/// Adds texts, one behind the other.
fn join(out: &mut Vec<u8>, parts: &[&[u8]]) -> Result<(), AllocError>
    ensures { OnOk result (out.new.items ≡ out.old.items ++ flat_map (λ w. w.now) parts.now) }
{
    for part in parts {
        out.extend_from_slice(part)?;
    }
    Ok(())
}

/// The text that defines a label of a level.
#[tactic(auto, unfolding(crate::specs::Form::level_text))]
pub fn level_text(alloc: Global, level: &Name) -> Result<Vec<u8>, AllocError>
    ensures { IfOk result (λ v. v.items ≡ level_text level.now) }
{
    let mut text = Vec::new(alloc);
    join(
        &mut text,
        &[
            b"{\"level\":\"".as_slice(),
            level.as_bytes(),
            b"\"}".as_slice(),
        ],
    )?;
    Ok(text)
}

/// The text that defines the label of the function.
#[tactic(auto, unfolding(crate::specs::Form::function_text))]
pub fn function_text(alloc: Global, p: &Pair) -> Result<Vec<u8>, AllocError>
    ensures { IfOk result (λ v. v.items ≡ pair_text p.now) }
{
    let mut text = Vec::new(alloc);
    join(
        &mut text,
        &[
            b"{\"level\":\"".as_slice(),
            p.far.as_bytes(),
            b"\",\"cdf\":[{\"remotelevel\":\"".as_slice(),
            p.near.as_bytes(),
            b"\",\"direction\":\"bidirectional\",\"guarddirective\":{\"operation\":\"allow\"},\"argtaints\":[],\"codtaints\":[\"".as_slice(),
            p.variable_label.as_bytes(),
            b"\"],\"rettaints\":[\"".as_slice(),
            p.result_label.as_bytes(),
            b"\"]}]}".as_slice(),
        ],
    )?;
    Ok(text)
}

#[tactic(auto, unfolding(crate::specs::Form::def_line))]
fn def_line(head: &mut Vec<u8>, name: &Name, text: &[u8]) -> Result<(), AllocError>
    ensures { OnOk result (head.new.items ≡ head.old.items ++ def_line name.now text.now) }
{
    join(
        head,
        &[
            b"#pragma cle def ".as_slice(),
            name.as_bytes(),
            b" ".as_slice(),
            text,
            b"\n".as_slice(),
        ],
    )
}

fn level_line(
    alloc: Global,
    head: &mut Vec<u8>,
    name: &Name,
    level: &Name,
) -> Result<(), AllocError>
    ensures { OnOk result (head.new.items ≡ head.old.items ++ def_line name.now (level_text level.now)) }
{
    let text = level_text(alloc, level)?;
    def_line(head, name, text.as_slice())
}

#[tactic(auto, unfolding(crate::specs::Form::next_line))]
fn next_line(head: &mut Vec<u8>, name: &Name) -> Result<(), AllocError>
    ensures { OnOk result (head.new.items ≡ head.old.items ++ next_line name.now) }
{
    join(
        head,
        &[
            b"#pragma cle ".as_slice(),
            name.as_bytes(),
            b"\n".as_slice(),
        ],
    )
}

#[tactic(auto, unfolding(crate::specs::Form::variable_line))]
fn variable_line(head: &mut Vec<u8>, name: &Name) -> Result<(), AllocError>
    ensures { OnOk result (head.new.items ≡ head.old.items ++ variable_line name.now) }
{
    join(
        head,
        &[b"int ".as_slice(), name.as_bytes(), b";\n".as_slice()],
    )
}

/// The first line of a source of one level.
pub fn alone_head(alloc: Global, found: &Alone) -> Result<Vec<u8>, AllocError>
    ensures { IfOk result (λ v. v.items ≡ def_line found.now.label (level_text found.now.level)) }
{
    let mut head = Vec::new(alloc);
    level_line(alloc, &mut head, &found.label, &found.level)?;
    Ok(head)
}

/// The lines that define the labels.
fn label_lines(alloc: Global, p: &Pair) -> Result<Vec<u8>, AllocError>
    ensures { IfOk result (λ v. v.items ≡ label_lines p.now) }
{
    let mut head = Vec::new(alloc);
    level_line(alloc, &mut head, &p.near_label, &p.near)?;
    level_line(alloc, &mut head, &p.variable_label, &p.far)?;
    level_line(alloc, &mut head, &p.result_label, &p.near)?;
    let text = function_text(alloc, p)?;
    def_line(&mut head, &p.function_label, text.as_slice())?;
    Ok(head)
}

/// The first seven lines of a source of two levels.
#[tactic(auto, unfolding(crate::specs::Form::head_lines))]
pub fn pair_head(alloc: Global, p: &Pair) -> Result<Vec<u8>, AllocError>
    ensures { IfOk result (λ v. v.items ≡ head_lines p.now) }
{
    let mut head = label_lines(alloc, p)?;
    next_line(&mut head, &p.variable_label)?;
    variable_line(&mut head, &p.variable_name)?;
    next_line(&mut head, &p.function_label)?;
    Ok(head)
}

/// Is the source this head, and then plain text?
#[tactic(auto, unfolding(crate::specs::Reading::is_headed))]
pub fn is_headed(head: &[u8], source: &[u8]) -> bool
    ensures { result ≡ is_headed head.now source.now }
{
    match behind(head, source) {
        Some(rest) => is_plain_text(rest),
        None => false,
    }
}
