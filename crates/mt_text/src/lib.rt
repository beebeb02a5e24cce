//! Where bytes come from and go to, with counts of faults, and the counter of steps.
#![tactic(auto)]

mod adapters;
mod copying;
mod counting;
mod memory;
mod sinks;
mod sources;
mod steady;

pub use adapters::{ReadAdapter, WriteAdapter};
pub use counting::{PlainLedger, Steps};
pub use memory::{MemorySink, MemorySource};
pub use sinks::{Sink, write_all};
pub use sources::{Failed, Source};
pub use std::alloc::AllocError as OutOfMemory;
pub use std::sync::ledger::Ledger;
pub use steady::{SteadySink, SteadySource};

/// The place of a unit in its text: it stands at `start..end`, and the bytes before `seen` decide
/// it.
#[derive(Clone, Copy, Debug, PartialEq, Eq)]
pub struct UnitSpan {
    pub start: usize,
    pub end: usize,
    pub seen: usize,
}
