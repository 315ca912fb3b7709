//! Integers of payloads by their places.

ghost use Rattle.std.specs.Prelude.{◌≡◌, ◌∷◌, ◌++◌, [], IfOk, OnOk};
ghost use Rattle.guard_places.specs.Places.{chosen_places};

use cl_base::name::NoMemory;
use cl_tree::kinds::IntKind;
use rpc_codec::leaves::Leaf;

/// An integer of a payload: its place, and its kind.
#[derive(Clone, Copy)]
pub struct Place {
    pub at: u32,
    pub kind: IntKind,
}

fn place_of(place: usize, leaf: Leaf) -> Result<Place, NoMemory>
    ensures { IfOk result (λ p. p ≡ record { at = place; kind = leaf.kind }) }
{
    match u32::try_from(place) {
        Ok(at) => Ok(Place {
            at,
            kind: leaf.kind,
        }),
        Err(_) => Err(NoMemory),
    }
}

/// Adds the integer at this place if it is chosen.
fn push_place(leaf: Leaf, place: usize, out: &mut Vec<Place>) -> Result<(), NoMemory>
    ensures { OnOk result (out.new.items ≡ out.old.items ++ chosen_places place (leaf ∷ [])) }
{
    if leaf.chosen {
        out.push(place_of(place, leaf)?)?;
    }
    Ok(())
}

/// Adds the integers that are chosen, where the first has this place.
#[tactic(auto, using(crate::proofs::Placing::place_step))]
pub(crate) fn push_places(leaves: &[Leaf], at: usize, out: &mut Vec<Place>) -> Result<(), NoMemory>
    ensures { OnOk result (out.new.items ≡ out.old.items ++ chosen_places at leaves.now) }
{
    for (index, leaf) in leaves.iter().enumerate() {
        let Some(place) = at.checked_add(index) else {
            return Err(NoMemory);
        };
        push_place(*leaf, place, out)?;
    }
    Ok(())
}
