//! Environments held in a pool: entries by number, by name and by mark, and the graph of their
//! universes.
#![tactic(auto)]

mod adding;
mod environments;
mod holding;
mod plain;
mod refs;
mod stops;
mod table;

pub use environments::{Env, EnvMark};
pub use holding::hold;
pub use refs::Ref;
pub use stops::EnvStop;
