//! The laws over derivations and stores, as the clauses of functions that do nothing.
#![tactic(auto)]

pub mod derivations;
