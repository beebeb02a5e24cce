//! The text of terms, environments and proofs.
//!
//! Each text is defined in `specs/`: that of a term in `TermText`, the names of its binders in
//! `Chosen`, that of accepted commands in `EnvText`, that of an open proof in `GoalsText`, and the
//! column of a place in `Columns`.
#![tactic(auto)]

mod bytes;
mod choosing;
mod columns;
mod contexts;
mod entries;
mod goals;
mod instances;
mod laws;
mod named;
mod notes;
mod printing;
mod scopes;
mod sorts;
mod telescopes;
mod terms;
mod walks;

pub use columns::column;
pub use contexts::context_names;
pub use goals::put_goals;
pub use laws::printed_instances;
pub use notes::put_env;
pub use printing::{PrintStop, print_env, print_goals, print_term};
pub use telescopes::put_term;
