//! Raw terms taken by their names.
#![tactic(auto)]

mod arms;
mod built;
mod meanings;
mod resolving;
mod scopes;
mod sorts;
mod table;

pub use built::is_built;
pub use meanings::Meaning;
pub use resolving::resolve;
pub use scopes::{Scope, place_in};
pub use table::Table;
