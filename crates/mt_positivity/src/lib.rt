//! Positivity of inductive types, and the laws of its tests.
#![tactic(auto)]

mod arguments;
mod constructors;
mod laws;

pub use arguments::{Family, avoid_terms, avoids, is_recursive, is_type_on};
pub use constructors::{positive, products};
pub use laws::{avoiding_by_test, positivity_by_test, recursive_place_by_test};
