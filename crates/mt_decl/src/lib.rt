//! The entries that units declare; and functions that do nothing, whose clauses are the laws.
#![tactic(auto)]

ghost use Rattle.mt_decl.specs.EntryLaws.{DeclaredAllowanceLaw, DeclaredLaw, DeclaredNamesLaw};

mod arguments;
mod constructing;
mod declaring;
mod entering;
mod families;
mod freshness;
mod functions;
mod groups;
mod judging;
mod telescopes;

pub use declaring::declare_plain;
pub use telescopes::{Telescope, abstraction_over, generalization_over, result_sort};

/// Over a sound environment a unit declares a sound entry, and the environment with it is sound.
pub fn declared_is_sound()
    ensures law { DeclaredLaw }
{}

/// What is not spent at an allowance is the same at a greater one, with as much more left; and
/// never more is left than was given.
pub fn declared_by_allowance()
    ensures law { DeclaredAllowanceLaw }
{}

/// Where no two entries or constructors of an environment have one name, none have with what a unit
/// declares.
pub fn declared_keeps_names_distinct()
    ensures law { DeclaredNamesLaw }
{}
