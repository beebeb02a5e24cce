// Why a closed tactical stops.
ghost use Rattle.std.specs.Prelude.{◌≡◌};
ghost use Rattle.mt_tiny.specs.declared.stops.TinyStop.TheVariants.{OutOfMemory as NoMemory};

use mt_tiny::{OutOfMemory, TinyStop};

/// Why a closed tactical stops, and the place of the action, sign or position that stops. With want of memory the place says nothing.
#[derive(Drop)]
pub struct BlockStop<S> {
    pub at: usize,
    pub stop: TinyStop<S>,
}

impl<S> From<OutOfMemory> for BlockStop<S> {
    ghost from_gives = { λ _ e. e.stop ≡ NoMemory };

    fn from(_: OutOfMemory) -> BlockStop<S> {
        BlockStop {
            at: 0,
            stop: TinyStop::OutOfMemory,
        }
    }
}
