//! The rules of refinement with their charges and places, and coercions: which path is taken, and
//! how a term is put under it.
#![tactic(auto)]
