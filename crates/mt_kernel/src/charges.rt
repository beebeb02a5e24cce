// Charges.
ghost use Rattle.std.specs.Prelude.{◌≡◌, ◌+◌, ◌-◌, ◌<◌, Err, OnErr, OnOk};

use mt_term::Stop;
use mt_text::{Ledger, Steps};

/// Takes one charge and counts one step.
pub fn charge<L: Ledger>(left: &mut u64, steps: &mut Steps<L>) -> Result<(), Stop>
    ensures ok { OnOk result ((0 < left.old) × (left.new ≡ left.old - 1) × (steps.new ≡ steps.old + 1)) }
    ensures err { OnErr result ((left.old ≡ 0) × (left.new ≡ 0) × (steps.new ≡ steps.old)
        × (result ≡ Err Stop.Spent)) }
{
    if *left == 0 {
        return Err(Stop::Spent);
    }
    *left -= 1;
    steps.tick();
    Ok(())
}
