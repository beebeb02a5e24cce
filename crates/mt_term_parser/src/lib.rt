//! Terms as they are written, and how they are read.
#![tactic(auto)]

mod building;
mod raw;
pub mod readings;
mod sorts;
mod terms;

pub use raw::{Arm, Part, Parts, Raw, RawArms, RawShape, RawSort, Raws};
pub use terms::term_at;
