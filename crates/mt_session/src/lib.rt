//! The top call: a script from bytes to bytes.
#![tactic(auto)]

mod applying;
mod asking;
mod declaring;
mod forms;
mod judging;
mod replying;
mod reporting;
mod running;
mod serving;
mod sessions;
mod tasks;

pub use serving::{Status, serve};
