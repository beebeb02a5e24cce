//! The laws of refinement, as functions that are called.
#![tactic(auto)]

#[cfg(test)]
mod refinement;
