// The laws are called at the small prover.
use crate::prover::SmallProver;
use mt_tactical_laws::{stepping_ends_alike, stopping_stops_the_tactical};

#[test]
fn laws_hold_of_the_small_prover(_rt: HostRuntime) {
    stepping_ends_alike::<SmallProver>();
    stopping_stops_the_tactical::<SmallProver>();
}
