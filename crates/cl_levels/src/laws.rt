//! Laws of the definitions: each is the contract of a function that does nothing.

ghost use Rattle.std.specs.Prelude.{◌↔◌, ℕ, List, map};
ghost use Rattle.cl_typing.specs.Rules.{Rule, AllHold, FirstFails};
ghost use Rattle.cl_levels.specs.Placed.{as_placed, AllPlacedHold, FirstPlacedFails};

/// Rules that have lists of places hold, or fail first, as such lists and as relations alike.
pub fn lists_of_places()
    ensures hold { (rules : List Rule) → AllPlacedHold (map as_placed rules) ↔ AllHold rules }
    ensures fail { (rules : List Rule) (number line : ℕ) → FirstPlacedFails (map as_placed rules) number line ↔ FirstFails rules number line }
{}
