// Commands, and why none is read.
ghost use Rattle.std.specs.Prelude.{◌≡◌};
ghost use Rattle.mt_protocol.specs.declared.commands.CommandStop.TheVariants.{OutOfMemory};

use mt_term::Name;
use std::alloc::AllocError;

/// A command to a session.
#[derive(Drop)]
pub enum Command {
    /// Replace the text.
    Text(Name),
    /// Take so many units.
    Advance(usize),
    /// Drop so many units.
    Retract(usize),
    /// Go to a place.
    Goto(usize),
    /// From a place on, replace so many bytes.
    Edit(usize, usize, Name),
    /// Show the state.
    Show,
    /// End the session.
    Quit,
}

/// Why no command is read.
#[derive(Clone, Copy, Debug, PartialEq, Eq)]
pub enum CommandStop {
    /// The input ends between two commands.
    End,
    /// The bytes are no command, or the input ends inside one.
    BadFrame,
    /// A text has more than 1,048,576 bytes, or the command needs byte 16,777,217 of the input.
    TooLong,
    /// The source failed.
    ReadFault,
    /// Memory is wanting.
    OutOfMemory,
}

impl From<AllocError> for CommandStop {
    ghost from_gives = { λ _ e. e ≡ OutOfMemory };

    fn from(_: AllocError) -> Self {
        CommandStop::OutOfMemory
    }
}
