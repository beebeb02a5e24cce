//! Stores of metavariables held in a pool: their contexts, types and bodies by number, and what a
//! term reaches.
#![tactic(auto)]

mod found;
mod metavariables;
mod plain;
mod reaching;
mod stores;

pub use metavariables::HeldMeta;
pub use stores::Store;
