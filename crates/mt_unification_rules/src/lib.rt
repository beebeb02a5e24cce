//! The rules of unification with their charges, and hints: which are tried, and how.
#![tactic(auto)]
