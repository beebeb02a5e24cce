// Commands as they are read from a source.
ghost use Rattle.std.specs.Prelude.{◌≡◌};
ghost use Rattle.mt_protocol.specs.Taking.{Takes, stop_at_end};

use crate::ahead::Ahead;
use crate::commands::{Command, CommandStop};
use crate::frames::{Shown, limited};
use mt_text::Source;
use std::alloc::Global;

/// Reads the next command.
///
/// `End` comes exactly where the input ends between two commands. `BadFrame` and `TooLong` come exactly where the bytes show them,
/// and `BadFrame` also where the input ends inside a command. `ReadFault` comes only where the source's count rose and the bytes show nothing yet.
/// After each of these the bytes that were read stay taken from the source and are held.
pub fn read_command<I: Source>(
    alloc: Global,
    input: &mut I,
    ahead: &mut Ahead,
) -> Result<Command, CommandStop>
    ensures { Takes ahead.old ahead.new (I.left input.old) (I.left input.new) (I.faults input.old) (I.faults input.new) result }
{
    'pieces: loop {
        match limited(alloc, ahead.used(), ahead.bytes())? {
            Shown::Whole(command, size) => {
                ahead.pass(size);
                return Ok(command);
            }
            Shown::Bad => return Err(CommandStop::BadFrame),
            Shown::Long => return Err(CommandStop::TooLong),
            Shown::More => {}
        }
        if ahead.fill(input)? == 0 {
            return Err(at_end(ahead));
        }
    }
}

// Why no command is read where the input ends.
fn at_end(ahead: &Ahead) -> CommandStop
    ensures { result ≡ stop_at_end ahead.now.bytes }
{
    if ahead.bytes().is_empty() {
        CommandStop::End
    } else {
        CommandStop::BadFrame
    }
}
