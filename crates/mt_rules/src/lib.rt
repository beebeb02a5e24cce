//! The rules with their charges: weak heads, comparison, inference, and the kernel's checks.
#![tactic(auto)]
