// Why a call of a cursor stops.
ghost use Rattle.std.specs.Prelude.{◌≡◌};
ghost use Rattle.mt_cursor.specs.declared.stops.CursorStop.TheVariants.{Halt as Halted};
ghost use Rattle.mt_term.specs.declared.refusals.Halt.TheVariants.{OutOfMemory};

use mt_term::Halt;
use std::alloc::AllocError;

/// Why a call of a cursor stops. Want of memory is `Halt(Halt::OutOfMemory)` alone.
#[derive(Drop)]
pub enum CursorStop {
    /// The text is not UTF-8 or too long, or the range is not in the text or not on the bounds of characters.
    BadEdit,
    /// A unit was refused or spent its allowance, or memory is wanting.
    Halt(Halt),
}

impl From<AllocError> for CursorStop {
    ghost from_gives = { λ _ e. e ≡ Halted OutOfMemory };

    fn from(_: AllocError) -> Self {
        CursorStop::Halt(Halt::OutOfMemory)
    }
}
