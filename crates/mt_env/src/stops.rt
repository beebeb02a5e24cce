// Why an environment refuses an entry.
ghost use Rattle.std.specs.Prelude.{◌≡◌};
ghost use Rattle.mt_env.specs.declared.stops.EnvStop.TheVariants.{OutOfMemory};

use std::alloc::AllocError;

/// Why an entry is not added.
#[derive(Clone, Copy, Debug, PartialEq, Eq)]
pub enum EnvStop {
    /// One of the entry's names is in use, or stands twice in the entry.
    Taken,
    /// Memory is wanting.
    OutOfMemory,
}

impl From<AllocError> for EnvStop {
    ghost from_gives = { λ _ e. e ≡ OutOfMemory };

    fn from(_: AllocError) -> Self {
        EnvStop::OutOfMemory
    }
}
