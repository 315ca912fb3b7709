//! Whether all terminals of a spelling can come out of a source.

ghost use Rattle.std.specs.Prelude.{◌≡◌, ◌^◌, nat_lt};
ghost use Rattle.cl_tree.specs.Spelling.{want_comes, all_come};
ghost use Rattle.cl_plain.specs.Wanting.{want_of, written};

use crate::wanted::{Want, Wanted};
use cl_terminals::comes::comes;

/// Any size of an array can be written.
fn is_size(value: u64) -> bool
    ensures { result ≡ nat_lt value (2 ^ 64) }
{
    true
}

fn want_comes(want: &Want) -> bool
    ensures { result ≡ want_comes (want_of want.now) }
{
    match want {
        Want::Is(sign) => comes(sign),
        Want::Size(size) => is_size(*size),
    }
}

/// Whether a source can bring all of the terminals.
#[tactic(auto, unfolding(cl_tree::specs::Spelling::all_come, crate::specs::Wanting::written))]
pub fn all_come(terminals: &[Wanted]) -> bool
    ensures { result ≡ all_come (written terminals.now) }
{
    for terminal in terminals {
        if !want_comes(&terminal.what) {
            return false;
        }
    }
    true
}
