//! The calculus: contraction, conversion, typing, positivity, guard, and what a sound environment,
//! a sound store and a derivable state are.
#![tactic(auto)]
