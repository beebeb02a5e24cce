//! The laws of refinement as it is written: each function does nothing, and its clause is the law.
#![tactic(auto)]

ghost use Rattle.mt_refinement_laws.specs.RefinementLaws.{RefinementAllowanceLaw, RefinementGrowthLaw, RefinementPlaceLaw, RefinementLaw, RefinementProperLaw, RefinementMeetsLaw};

/// What is not spent at an allowance is the same at a greater one, with as much more left; and
/// never more is left than was given.
pub fn going_by_allowance()
    ensures law { RefinementAllowanceLaw }
{}

/// The new store has each metavariable of the old one, with its context, its type and its body.
pub fn store_grows()
    ensures law { RefinementGrowthLaw }
{}

/// A refusal has a place, which is that of the raw term or of one that stands in it.
pub fn refusals_have_places()
    ensures law { RefinementPlaceLaw }
{}

/// Over a sound environment and a sound store, refinement in a context keeps the store sound, and
/// gives a term of the type that it gives, which is at most the expected type.
pub fn refinement_gives_typing()
    ensures law { RefinementLaw }
{}

/// Refinement keeps a store proper, and its term and its type mention metavariables of the new store alone.
pub fn proper_stores()
    ensures law { RefinementProperLaw }
{}

/// The laws together, as one record for the definition.
pub fn refinement_meets_laws()
    ensures law { RefinementMeetsLaw }
{}
