//! The reader of the forms.

ghost use Rattle.std.specs.Prelude.{◌≡◌, ℕ, ◌≤◌, List, length, IfOk, MatchResult};
ghost use Rattle.cl_base.specs.declared.limits.TheConstants.{SOURCE_BYTES};
ghost use Rattle.cl_mean.specs.declared.checked.Checked.{Checked as CheckedValue};
ghost use Rattle.cl_form.specs.Form.{HasForm};
ghost use Rattle.cl_form.specs.Reading.{Gives, read_program};

use crate::alone::read_alone;
use crate::pair::read_pair;
use crate::stop::FormStop;
use cl_mean::checked::Checked;
use cl_read::read::read_source;
use cl_tree::tree::Program;
use std::alloc::Global;

/// Reads the program of a source as one of the forms.
#[tactic(auto, unfolding(crate::specs::Reading::read_program))]
fn read_program(alloc: Global, source: &[u8], program: Program) -> Result<Checked, FormStop>
    ensures { Gives (λ c. c) result (read_program source.now program) }
{
    if program.items.len() == 2 {
        read_alone(alloc, source, program)
    } else {
        read_pair(alloc, source, program)
    }
}

/// Reads a source of one of two small forms: one level with a `main` of statements `putchar(E);` and
/// `return E;` over sums and products of literals (C11 6.5.1, 6.5.5, 6.5.6); or two levels, with a
/// variable and a function of the second one, which `main` may call. `NoReading` says that the source
/// is of neither form.
pub fn read_form(alloc: Global, source: &[u8]) -> Result<Checked, FormStop>
    requires { length source.now ≤ SOURCE_BYTES }
    // What is read is of a form.
    ensures found { IfOk result (λ c. HasForm source.now c) }
    // What is of a form is read, unless memory runs out: so a source with no reading is of no form.
    ensures only { (c : CheckedValue) → HasForm source.now c → MatchResult result (λ x. x ≡ c) (λ e. e ≡ FormStop.NoMemory) }
{
    let program = read_source(alloc, source)?;
    read_program(alloc, source, program)
}

/// No source is two programs of the forms.
#[tactic(auto, using(crate::proofs::Whole::form_one))]
pub fn one_reading()
    ensures { (source : List ℕ) (c d : CheckedValue) → HasForm source c → HasForm source d → c ≡ d }
{}
