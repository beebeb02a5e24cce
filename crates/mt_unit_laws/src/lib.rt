//! The laws of units: each function does nothing, and its clause is the law.
#![tactic(auto)]

ghost use Rattle.mt_unit_laws.specs.EachPlace.{EachPlaceLaw};
ghost use Rattle.mt_unit_laws.specs.UnitLaw.{UnitLaw, PlaceLaw, FaultLaw};

/// A unit is decided by its first `seen` bytes: whatever follows them, the unit is the same.
pub fn unit_by_seen_bytes()
    ensures law { UnitLaw }
{}

/// A unit begins at or after its place, is not empty, and has its places on the bounds of
/// characters.
pub fn place_of_unit()
    ensures law { PlaceLaw }
{}

/// The place of a fault is the bound of a character.
pub fn place_of_fault()
    ensures law { FaultLaw }
{}

/// Each place in a unit is on a character boundary: those of its terms, constructors, actions and
/// signs.
pub fn places_in_unit()
    ensures law { EachPlaceLaw }
{}
