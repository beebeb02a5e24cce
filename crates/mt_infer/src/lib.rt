//! The inference of types, over any comparison and any weak head.
#![tactic(auto)]

mod arguments;
mod branches;
mod elimination;
mod entries;
mod expected;
mod families;
mod inference;
mod inferrer;
mod leaves;
mod matching;
mod metavariables;
mod scopes;
mod sorts;

pub use inferrer::Inferrer;
