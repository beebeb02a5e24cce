//! Calls on terms, universes, pools, stores and environments, each with ample memory.
#![tactic(auto)]

#[cfg(test)]
mod environment;
#[cfg(test)]
mod laws;
#[cfg(test)]
mod pool;
#[cfg(test)]
mod store;
#[cfg(test)]
mod terms;
#[cfg(test)]
mod unification_laws;
#[cfg(test)]
mod universe_forms;
#[cfg(test)]
mod universes;
