//! Charges, lists of ids and entries on ids, each with ample memory.
#![tactic(auto)]

#[cfg(test)]
mod layers;
