// The law of sessions: the function does nothing, and its clause is the law.
ghost use Rattle.mt_cursor.specs.Sessions.{ScratchLaw};

use crate::Runner;

/// After any list of commands, all units that a session counts are accepted from scratch, so its state is that of running them.
pub fn accepted_from_scratch<R: Runner>()
    ensures law { ScratchLaw R.rules }
{}
