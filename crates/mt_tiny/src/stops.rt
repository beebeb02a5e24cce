// Why a step stops.
ghost use Rattle.std.specs.Prelude.{◌≡◌};
ghost use Rattle.mt_tiny.specs.declared.stops.TinyStop.TheVariants.{OutOfMemory};

use std::alloc::AllocError;

/// Why a step stops: the step is refused, the prover refuses its action, or memory is wanting.
#[derive(Drop)]
pub enum TinyStop<S> {
    NoGoal,
    NoBranch,
    NoSuchPosition,
    NotHere,
    Prover(S),
    OutOfMemory,
}

impl<S> From<AllocError> for TinyStop<S> {
    ghost from_gives = { λ _ e. e ≡ OutOfMemory };

    fn from(_: AllocError) -> TinyStop<S> {
        TinyStop::OutOfMemory
    }
}
