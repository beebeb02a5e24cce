//! The laws of unification as it is written: each function does nothing, and its clause is the law.
#![tactic(auto)]

ghost use Rattle.mt_unification_laws.specs.UnificationLaws.{UnificationAllowanceLaw, UnificationRefusalLaw, UnificationGrowthLaw, UnificationLaw, UnificationProperLaw, ReachTestLaw};

/// What is not spent at an allowance is the same at a greater one, with as much more left; and
/// never more is left than was given.
pub fn going_by_allowance()
    ensures law { UnificationAllowanceLaw }
{}

/// A refusal shows the two terms in their context.
pub fn refusal_shows_terms()
    ensures law { UnificationRefusalLaw }
{}

/// The new store has each metavariable of the old one, with its context, its type and its body.
pub fn store_grows()
    ensures law { UnificationGrowthLaw }
{}

/// Over a sound environment and a sound store, unification of terms that stand keeps the store
/// sound, and makes the terms convertible, or the first at most the second.
pub fn unification_gives_conversion()
    ensures law { UnificationLaw }
{}

/// The test whether a metavariable is reached says exactly that, where none is below itself.
pub fn reach_by_test()
    ensures law { ReachTestLaw }
{}

/// Unification keeps a store proper: it mentions its own metavariables alone, and none is below itself.
pub fn proper_stores()
    ensures law { UnificationProperLaw }
{}
