//! A pragma with what its text says.

ghost use Rattle.std.specs.Prelude.{◌≡◌, option_map, is_some, IfOk};
ghost use Rattle.cl_labelling.specs.Json.{json_of};
ghost use Rattle.cl_labelling.specs.Text.{draft_in};
ghost use Rattle.cl_labelling.specs.Pragmas.{placed};
ghost use Rattle.cle_names.specs.Reading.{has_json, draft_at};

use cl_base::name::NoMemory;
use cl_labelling::draft::Draft;
use cl_tree::token::Pragma;
use cle_text::definition::{TextStop, definition_of};
use std::alloc::Global;
use std::marker::Model;

/// What a text says: whether it has a reading as JSON, and what definition that is, if it is of a definition's shape.
#[derive(Drop)]
struct Reading {
    is_json: bool,
    draft: Option<Draft>,
}

/// A pragma of a program, with the reading of its text where it defines a label. Contracts see the pragma and its line.
#[derive(Drop)]
pub struct Seen<'a> {
    pragma: &'a Pragma,
    line: u32,
    is_json: bool,
    draft: Option<Draft>,
}

impl<'a> Model for Seen<'a> {
    ghost use Rattle.cl_labelling.specs.Pragmas.{Placed, placed};
    ghost use Rattle.cle_names.specs.Reading.{IsRead};

    ghost Value = { Placed };

    ghost view = { λ s. placed s.pragma.now s.line };

    ghost invariant = { λ s. IsRead s.pragma.now s.is_json s.draft };
}

#[tactic(auto, using(crate::proofs::Readings::readings))]
fn read_text(alloc: Global, text: &[u8]) -> Result<Reading, NoMemory>
    ensures json { IfOk result (λ r. r.is_json ≡ is_some (json_of text.now)) }
    ensures says { IfOk result (λ r. r.draft ≡ draft_in text.now) }
{
    match definition_of(alloc, text) {
        Ok(draft) => Ok(Reading {
            is_json: true,
            draft: Some(draft),
        }),
        Err(TextStop::NotJson) => Ok(Reading {
            is_json: false,
            draft: None,
        }),
        Err(TextStop::Misshapen) => Ok(Reading {
            is_json: true,
            draft: None,
        }),
        Err(TextStop::NoMemory) => Err(NoMemory),
    }
}

fn read_pragma(alloc: Global, pragma: &Pragma) -> Result<Reading, NoMemory>
    ensures json { IfOk result (λ r. r.is_json ≡ has_json pragma.now) }
    ensures says { IfOk result (λ r. r.draft ≡ draft_at pragma.now) }
{
    match pragma {
        Pragma::Def(_, text) => read_text(alloc, text.as_slice()),
        Pragma::Begin(_) | Pragma::End(_) | Pragma::Next(_) => Ok(Reading {
            is_json: true,
            draft: None,
        }),
    }
}

impl<'a> Seen<'a> {
    /// Reads a pragma.
    pub fn of(alloc: Global, pragma: &'a Pragma, line: u32) -> Result<Seen<'a>, NoMemory>
        ensures { IfOk result (λ s. s ≡ placed pragma.now line) }
    {
        let reading = read_pragma(alloc, pragma)?;
        Ok(Seen {
            pragma,
            line,
            is_json: reading.is_json,
            draft: reading.draft,
        })
    }

    pub fn pragma(&self) -> &'a Pragma
        ensures { result.now ≡ self.now.pragma }
    {
        self.pragma
    }

    pub fn line(&self) -> u32
        ensures { result ≡ self.now.line }
    {
        self.line
    }

    /// Whether its text has a reading as JSON, if it defines a label.
    pub fn has_json(&self) -> bool
        ensures { result ≡ has_json self.now.pragma }
    {
        self.is_json
    }

    /// What it says of the label that it defines.
    pub fn draft(&self) -> Option<&Draft>
        ensures { option_map (λ d. d.now) result ≡ draft_at self.now.pragma }
    {
        self.draft.as_ref()
    }
}
