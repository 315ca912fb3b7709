//! E25: an annotated function names an annotated variable of another level.

ghost use Rattle.std.specs.Prelude.{◌≡◌, map};
ghost use Rattle.std.specs.List.{flat_map};
ghost use Rattle.cl_levels.specs.Levels as levels;
ghost use Rattle.cl_scope.specs.Finds.{Finds};
ghost use Rattle.cl_groups.specs.Foreign.{foreign_by, foreign_in};

use crate::own::{Own, own_at};
use cl_levels::uses::{Body, Use};
use cl_scope::search::unless;
use cl_scope::stop::Stop;

/// Whether there are two levels, and they differ.
fn differs(a: Option<u32>, b: Option<u32>) -> bool
    ensures { result ≡ levels.differs a b }
{
    match (a, b) {
        (Some(level), Some(other)) => level != other,
        _ => false,
    }
}

fn look_at(own: &Own, f: usize, used: &Use) -> Result<(), Stop>
    ensures { Finds result (foreign_by own.now f used.now) }
{
    match used {
        Use::Named { object, line } => {
            let by = own_at(own.functions.as_slice(), f);
            let of = own_at(own.objects.as_slice(), *object);
            unless(!differs(by, of), *line)
        }
        Use::Called {
            callee: _,
            roots: _,
            line: _,
        } => Ok(()),
    }
}

fn look_in(own: &Own, f: usize, uses: &[Use]) -> Result<(), Stop>
    ensures { Finds result (flat_map (foreign_by own.now f) uses.now) }
{
    for used in uses {
        look_at(own, f, used)?;
    }
    Ok(())
}

/// The first name of a variable of another level than the function's, where both are annotated.
pub fn look(own: &Own, bodies: &[Body]) -> Result<(), Stop>
    ensures { Finds result (foreign_in own.now 0 (map (λ b. b.uses) bodies.now)) }
{
    for (f, body) in bodies.iter().enumerate() {
        look_in(own, f, body.uses.as_slice())?;
    }
    Ok(())
}
