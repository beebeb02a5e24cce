//! Commands as they are read, replies as they are written, and the script of a size.
#![tactic(auto)]

mod ahead;
mod commands;
mod environments;
mod frames;
mod numbers;
mod orders;
mod putting;
mod replies;
mod scripts;
mod taking;

pub use ahead::Ahead;
pub use commands::{Command, CommandStop};
pub use replies::{Reply, write_reply};
pub use scripts::generated;
pub use taking::read_command;
