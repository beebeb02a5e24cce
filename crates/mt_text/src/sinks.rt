// Where bytes go to.
ghost use Rattle.std.specs.Prelude.{ℕ, List, OnOk, OnErr};
ghost use Rattle.std.specs.Io.{WritesAtMost};
ghost use Rattle.std.specs.Io.KnownBytes.{WriteAppends, Appends};
ghost use Rattle.std.specs.declared.option.Option.{Option};
ghost use Rattle.mt_text.specs.Causes.{HasCause, WritesSome, AppendsPrefix};

use crate::Failed;

/// A device that bytes are written to.
pub trait Sink {
    /// The bytes that the sink got, where it tells them.
    ghost got: { Self → Option (List ℕ) };

    /// A count of failures, which never falls.
    ghost faults: { Self → ℕ };

    /// Takes some of the bytes, from the first on, and says how many: not zero where there are any.
    /// `Failed` comes only where the count of faults rose, and then nothing was taken.
    fn write(&mut self, bytes: &[u8]) -> Result<usize, Failed>
        ensures bound { WritesAtMost result bytes.now }
        ensures some { WritesSome result bytes.now }
        ensures bytes { WriteAppends (got self.old) (got self.new) result bytes.now }
        ensures cause { HasCause (faults self.old) (faults self.new) result };
}

/// Writes all of the bytes. `Failed` comes where the sink fails, which then got a prefix of them.
pub fn write_all<O: Sink>(out: &mut O, bytes: &[u8]) -> Result<(), Failed>
    ensures all { OnOk result (Appends (O.got out.old) (O.got out.new) bytes.now) }
    ensures prefix { OnErr result (AppendsPrefix (O.got out.old) (O.got out.new) bytes.now) }
    ensures cause { HasCause (O.faults out.old) (O.faults out.new) result }
{
    let mut at = 0;
    while at < bytes.len() {
        at += out.write(&bytes[at..])?;
    }
    Ok(())
}
