//! What a machine runs.

ghost use Rattle.std.specs.Prelude.{◌≡◌, ◌+◌, ◌<◌, ◌≤◌, ◌^◌, ℕ, IfSome, IfNone, nat_le, slice_get};
ghost use Rattle.en_image.specs.Entrances.{IsWidest, entrance_at, joined};

use crate::instr::Instr;
use cl_tree::kinds::IntKind;
use sqlite_items::Items;

/// Where a function begins, how many cells its frame has, the line of its name, how many of its cells are
/// parameters, and how many are locals. The others are for the values that wait in it.
#[derive(Clone, Copy, Debug, PartialEq, Eq)]
pub struct Entrance {
    pub at: u32,
    pub cells: u32,
    pub line: u32,
    pub params: u32,
    pub locals: u32,
}

/// The two payloads of a row: the kinds of their integers in order, their lengths in bytes, and the places, in
/// order, of the request's integers that belong to array parameters.
#[derive(Drop)]
pub struct Payload {
    pub request: Items<IntKind>,
    pub reply: Items<IntKind>,
    pub request_length: u32,
    pub reply_length: u32,
    pub arrays: Items<u32>,
}

/// What the machine of a level runs. `functions` has an entrance for each function that is there, `statics` the
/// first values of the static cells, `rows` for each row the function that serves it here, and `payloads` the
/// payloads of each row.
///
/// A run begins in a frame of its own, below all calls: `main` and `rows` name entrances of code that calls
/// the function, since it is `Call` that counts the call and its step. The values of a request are the first
/// cells of that frame, so that an array parameter is lent an address there, and `Return` leaves it with the
/// values of the reply.
#[derive(Drop)]
pub struct Image {
    pub code: Items<Instr>,
    pub functions: Items<Option<Entrance>>,
    pub statics: Items<i128>,
    pub rows: Items<Option<u32>>,
    pub main: Option<u32>,
    pub payloads: Items<Payload>,
}

// The cells of a function's frame, and 0 for one that is not there.
fn cells_of(function: Option<Entrance>) -> u32
    ensures cells { IfSome function (λ e. e.cells ≡ result) }
    ensures none { IfNone function (result ≡ 0) }
{
    match function {
        Some(entrance) => entrance.cells,
        None => 0,
    }
}

impl Entrance {
    /// The frame has room for so many values beside its locals.
    pub fn has_room(self, count: usize) -> bool
        ensures { result ≡ nat_le (count + self.locals) self.cells }
    {
        match count.checked_add(self.locals as usize) {
            Some(cells) => cells <= self.cells as usize,
            None => false,
        }
    }
}

impl Image {
    /// The entrance of a function that is there.
    pub fn entrance(&self, function: Option<u32>) -> Option<Entrance>
        ensures value { result ≡ entrance_at self.now function }
        ensures within { (n : ℕ) → IsWidest self.now n → IfSome result (λ e. e.cells ≤ n) }
    {
        match self.functions.get(function? as usize) {
            Some(Some(entrance)) => Some(*entrance),
            _ => None,
        }
    }

    /// The function that serves a row here.
    pub fn serving(&self, row: u32) -> Option<u32>
        ensures { result ≡ joined (slice_get self.now.rows row) }
    {
        match self.rows.get(row as usize) {
            Some(function) => *function,
            None => None,
        }
    }

    /// The cells of the largest frame, and 0 where there is no function.
    pub fn largest_frame(&self) -> usize
        ensures widest { IsWidest self.now result }
        ensures least { (n : ℕ) → IsWidest self.now n → result ≤ n }
        ensures small { result < 2 ^ 32 }
    {
        let mut largest = 0;
        for function in self.functions.as_slice() {
            largest = largest.max(cells_of(*function));
        }
        largest as usize
    }
}
