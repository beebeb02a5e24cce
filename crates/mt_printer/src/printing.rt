// Printing to a sink: the text is made first, and written in one piece.
ghost use Rattle.std.specs.Prelude.{◌≡◌};
ghost use Rattle.mt_printer.specs.EnvText.{env_text};
ghost use Rattle.mt_printer.specs.GoalsText.{goals_text};
ghost use Rattle.mt_printer.specs.Prints.{Prints};
ghost use Rattle.mt_printer.specs.Telescopes.{printed};
ghost use Rattle.mt_term.specs.EnvironmentOf.{environment_of};
ghost use Rattle.mt_term.specs.StateOf.{state_of};
ghost use Rattle.mt_term.specs.TreeOf.{tree_of};

use crate::goals::put_goals;
use crate::notes::put_env;
use crate::telescopes::put_term;
use mt_term::{Names, OutOfMemory, PlainEnv, PlainState, Term};
use mt_text::{Sink, write_all};
use std::alloc::Global;

/// Why a text was not written whole.
#[derive(Clone, Copy, Debug, PartialEq, Eq)]
pub enum PrintStop {
    /// The sink failed. A prefix of the text was written.
    WriteFault,
    /// Memory is wanting. Nothing was written.
    OutOfMemory,
}

/// Writes the text of a term whose variables are shown by these names, the newest last.
pub fn print_term<O: Sink>(
    alloc: Global,
    out: &mut O,
    env: &PlainEnv,
    scope: &Names,
    t: &Term,
) -> Result<(), PrintStop>
    ensures { Prints (O.got out.old) (O.got out.new) (O.faults out.old) (O.faults out.new) (printed (environment_of env.now) scope.now (tree_of t.now)) result }
{
    let mut text = Vec::new(alloc);
    match put_term(alloc, &mut text, env, scope, t) {
        Ok(()) => write_text(out, &text),
        Err(OutOfMemory) => Err(PrintStop::OutOfMemory),
    }
}

/// Writes the line `env N` and the lines of the accepted commands, in order; N is their number.
pub fn print_env<O: Sink>(alloc: Global, out: &mut O, state: &PlainState) -> Result<(), PrintStop>
    ensures { Prints (O.got out.old) (O.got out.new) (O.faults out.old) (O.faults out.new) (env_text (state_of state.now)) result }
{
    let mut text = Vec::new(alloc);
    match put_env(alloc, &mut text, state) {
        Ok(()) => write_text(out, &text),
        Err(OutOfMemory) => Err(PrintStop::OutOfMemory),
    }
}

/// Writes the part of a state from its line `proof` to before `end`.
pub fn print_goals<O: Sink>(alloc: Global, out: &mut O, state: &PlainState) -> Result<(), PrintStop>
    ensures { Prints (O.got out.old) (O.got out.new) (O.faults out.old) (O.faults out.new) (goals_text (state_of state.now)) result }
{
    let mut text = Vec::new(alloc);
    match put_goals(alloc, &mut text, state) {
        Ok(()) => write_text(out, &text),
        Err(OutOfMemory) => Err(PrintStop::OutOfMemory),
    }
}

// Writes a text whole.
fn write_text<O: Sink>(out: &mut O, text: &[u8]) -> Result<(), PrintStop>
    ensures { Prints (O.got out.old) (O.got out.new) (O.faults out.old) (O.faults out.new) text.now result }
{
    match write_all(out, text) {
        Ok(()) => Ok(()),
        Err(_) => Err(PrintStop::WriteFault),
    }
}
