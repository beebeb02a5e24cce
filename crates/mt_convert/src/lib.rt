//! The comparison of terms, over any weak head.
#![tactic(auto)]

mod comparer;
mod comparison;
mod sorts;

pub use comparer::Comparer;
