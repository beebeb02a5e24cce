//! Worked reductions, comparisons, inferences and checks with their costs, on the layers and on the
//! kernel.
//!
//! One test runs all rows. Its contracts keep the environment in its pool and count charges; what
//! the rows say no contract says, so there is no edit that the check must refuse.
#![tactic(auto)]

#[cfg(test)]
mod answers;
#[cfg(test)]
mod checks;
#[cfg(test)]
mod comparisons;
#[cfg(test)]
mod entries;
#[cfg(test)]
mod environment;
#[cfg(test)]
mod inferences;
#[cfg(test)]
mod kernel;
#[cfg(test)]
mod layers;
#[cfg(test)]
mod metavariables;
#[cfg(test)]
mod reading;
#[cfg(test)]
mod reductions;
#[cfg(test)]
mod rows;
#[cfg(test)]
mod terms;
#[cfg(test)]
mod tests;
