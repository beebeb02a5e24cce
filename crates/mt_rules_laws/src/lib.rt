//! The laws of weak heads, comparison, inference and checks, as the clauses of functions that do
//! nothing.
#![tactic(auto)]

pub mod reductions;
