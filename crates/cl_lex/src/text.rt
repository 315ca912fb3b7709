//! The source without its joins.

ghost use Rattle.std.specs.Prelude.{◌≡◌, ◌<◌, ◌≤◌, ◌-◌, ◌+◌, ◌^◌, length, drop, IfOk};
ghost use Rattle.cl_tree.specs.Joins.{join_len, line_after, bytes_of, places_of};

use cl_tree::pieces::Place;
use std::alloc::{AllocError, Global};

/// A text, and where each of its bytes stands in the source.
#[derive(Drop)]
pub struct Unjoined {
    pub bytes: Vec<u8>,
    pub places: Vec<Place>,
}

/// The length of the join that a text begins with, or 0.
#[tactic(auto, unfolding(cl_tree::specs::Joins::join_len))]
fn join_len(text: &[u8]) -> usize
    ensures value { result ≡ join_len text.now }
    ensures within { result ≤ length text.now }
{
    if text.len() < 2 || text[0] != b'\\' {
        return 0;
    }
    if text[1] == b'\n' {
        return 2;
    }
    if text.len() > 2 && text[1] == b'\r' && text[2] == b'\n' {
        return 3;
    }
    0
}

fn join_at(source: &[u8], at: usize) -> usize
    requires { at ≤ length source.now }
    ensures { result ≡ join_len (drop at source.now) }
{
    join_len(&source[at..])
}

#[tactic(auto, unfolding(cl_tree::specs::Joins::line_after))]
fn line_after(line: u32, b: u8) -> u32
    requires { line < 2 ^ 32 - 1 }
    ensures value { result ≡ line_after line b }
    ensures one { result ≤ line + 1 }
{
    if b == b'\n' { line + 1 } else { line }
}

/// Removes the joins.
#[tactic(auto, using(crate::proofs::Joins::joins), unfolding(cl_tree::specs::Joins::bytes_of, cl_tree::specs::Joins::places_of))]
pub fn unjoin(alloc: Global, source: &[u8]) -> Result<Unjoined, AllocError>
    requires { length source.now < 2 ^ 32 - 1 }
    ensures bytes { IfOk result (λ t. t.bytes.items ≡ bytes_of source.now) }
    ensures same_len { IfOk result (λ t. length t.bytes.items ≡ length t.places.items) }
    ensures places { IfOk result (λ t. t.places.items ≡ places_of source.now) }
{
    let mut bytes = Vec::new(alloc);
    let mut places = Vec::new(alloc);
    let mut skip = 0;
    let mut line = 1;
    for (i, b) in source.iter().enumerate() {
        if skip > 0 {
            skip -= 1;
        } else {
            let join = join_at(source, i);
            if join == 0 {
                bytes.push(*b)?;
                let start = i as u32;
                places.push(Place {
                    line,
                    start,
                    end: start + 1,
                })?;
            } else {
                skip = join - 1;
            }
        }
        line = line_after(line, *b);
    }
    Ok(Unjoined { bytes, places })
}
