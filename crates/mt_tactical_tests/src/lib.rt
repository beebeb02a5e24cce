//! Steps and blocks over a small prover, each with ample memory: both are run on the same tinycals and compared.
#![tactic(auto)]

#[cfg(test)]
mod agreement;
#[cfg(test)]
mod cases;
#[cfg(test)]
mod laws;
mod prover;
#[cfg(test)]
mod reading;
#[cfg(test)]
mod stacks;

pub use prover::{SmallProver, SmallStop};
