//! The region that holds all terms, each named by an id.
#![tactic(auto)]

mod alikeness;
mod contexts;
mod copies;
mod depths;
mod exports;
mod held;
mod imports;
mod lifting;
mod nodes;
mod pools;
mod replacement;
mod substitution;

pub use contexts::{Context, HeldHyp};
pub use held::{Held, HeldCons, HeldConstructor};
pub use nodes::{BranchIds, Node, TermId, TermIds};
pub use pools::Pool;
