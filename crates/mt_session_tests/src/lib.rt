//! Calls on declared entries and on whole scripts, each with ample memory.
#![tactic(auto)]

#[cfg(test)]
mod session;
#[cfg(test)]
mod telescopes;
#[cfg(test)]
mod units;
