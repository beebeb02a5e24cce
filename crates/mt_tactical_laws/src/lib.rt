//! The laws of closed tacticals: each function does nothing, and its clause is the law.
#![tactic(auto)]

ghost use Rattle.mt_tactical_laws.specs.SteppingLaws.{SteppingLaw, StoppingLaw, BlockLaw};

use mt_tiny::Prover;

/// Where a closed tactical succeeds, stepping its tinycals in the order written, each with the full allowance, ends in the
/// same state and the same goals.
pub fn stepping_ends_alike<P: Prover>()
    ensures law { SteppingLaw P.rules }
    ensures block { BlockLaw P.rules }
{}

/// Where one of its tinycals stops, the closed tactical stops.
pub fn stopping_stops_the_tactical<P: Prover>()
    ensures law { StoppingLaw P.rules }
{}
