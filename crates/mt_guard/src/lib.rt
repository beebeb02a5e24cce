//! The guard of recursive and corecursive functions: whether an entry that is held is guarded, and
//! the laws of the tests.
#![tactic(auto)]

mod constructors;
mod corecursion;
mod guarding;
mod laws;
mod marks;
mod recursion;

pub use guarding::is_entry_guarded;
pub use laws::{co_guard_by_test, guard_by_test};
