//! Universe names with constraints, and the order of universe expressions under them.
#![tactic(auto)]

mod graphs;
mod laws;
mod numbers;
mod order;
mod paths;
mod stops;

pub use graphs::Graph;
pub use laws::{
    cycle_by_valuations, expression_order_by_valuations, same_sorts_by_valuations,
    sort_order_by_valuations,
};
pub use stops::GraphStop;
