// Why a graph refuses a constraint.
ghost use Rattle.std.specs.Prelude.{◌≡◌};
ghost use Rattle.mt_universe.specs.declared.stops.GraphStop.TheVariants.{OutOfMemory};

use std::alloc::AllocError;

/// Why a constraint is not added.
#[derive(Clone, Copy, Debug, PartialEq, Eq)]
pub enum GraphStop {
    /// A 257th name would be needed.
    TooMany,
    /// No valuation meets the constraints.
    Cycle,
    /// Memory is wanting.
    OutOfMemory,
}

impl From<AllocError> for GraphStop {
    ghost from_gives = { λ _ e. e ≡ OutOfMemory };

    fn from(_: AllocError) -> Self {
        GraphStop::OutOfMemory
    }
}
