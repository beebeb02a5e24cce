//! Weak heads and normal forms by substitution on ids.
#![tactic(auto)]

mod arguments;
mod branches;
mod metavariables;
mod normalization;
mod reducer;
mod reduction;

pub use reducer::Reducer;
