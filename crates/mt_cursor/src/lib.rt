//! A cursor.
#![tactic(auto)]

mod accepted;
mod cursor;
mod laws;
mod runner;
mod stops;
mod texts;

pub use cursor::Cursor;
pub use laws::accepted_from_scratch;
pub use runner::Runner;
pub use stops::CursorStop;
