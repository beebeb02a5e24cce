// Readers and writers of std as a source and a sink: the trusted edge, since no proof says what a
// file or a terminal does.
ghost use Rattle.std.specs.Prelude.{◌≡◌};
ghost use Rattle.std.specs.Io.{ReadsAtMost, WritesAtMost};
ghost use Rattle.std.specs.Io.KnownBytes.{ReadConsumes, WriteAppends};
ghost use Rattle.mt_text.specs.Causes.{HasCause, IsCounted, WritesSome};

use crate::{Failed, Sink, Source};
use std::io::{Read, Write};

/// A reader of std as a source. Each `Err` of the reader is a failure; `raised` counts them and
/// stands at its type's end. What the reader tells of its bytes is passed on.
#[derive(Drop)]
pub struct ReadAdapter<R: Read> {
    pub inner: R,
    pub raised: u64,
}

impl<R: Read> ReadAdapter<R> {
    /// The reader, with no failure counted.
    pub fn new(inner: R) -> ReadAdapter<R>
        ensures { (result.inner ≡ inner) × (result.raised ≡ 0) }
    {
        ReadAdapter { inner, raised: 0 }
    }
}

impl<R: Read> Source for ReadAdapter<R> {
    ghost left = { λ s. R.remaining s.inner };

    ghost faults = { λ s. s.raised };

    fn read(&mut self, buf: &mut [u8]) -> Result<usize, Failed>
        ensures bound { ReadsAtMost result buf.new }
        ensures bytes { ReadConsumes (R.remaining self.old.inner) (R.remaining self.new.inner) result buf.new }
        ensures cause { HasCause self.old.raised self.new.raised result }
        ensures counted { IsCounted self.old.raised self.new.raised result }
    {
        match self.inner.read(buf) {
            Ok(count) => Ok(count),
            Err(_) => {
                self.raised = self.raised.saturating_add(1);
                Err(Failed)
            }
        }
    }
}

/// A writer of std as a sink. Each `Err` of the writer is a failure, and so is a write that takes
/// nothing of something; `raised` counts them and stands at its type's end. What the writer tells
/// of its bytes is passed on.
#[derive(Drop)]
pub struct WriteAdapter<W: Write> {
    pub inner: W,
    pub raised: u64,
}

impl<W: Write> WriteAdapter<W> {
    /// The writer, with no failure counted.
    pub fn new(inner: W) -> WriteAdapter<W>
        ensures { (result.inner ≡ inner) × (result.raised ≡ 0) }
    {
        WriteAdapter { inner, raised: 0 }
    }
}

impl<W: Write> Sink for WriteAdapter<W> {
    ghost got = { λ s. W.contents s.inner };

    ghost faults = { λ s. s.raised };

    fn write(&mut self, bytes: &[u8]) -> Result<usize, Failed>
        ensures bound { WritesAtMost result bytes.now }
        ensures some { WritesSome result bytes.now }
        ensures bytes { WriteAppends (W.contents self.old.inner) (W.contents self.new.inner) result bytes.now }
        ensures cause { HasCause self.old.raised self.new.raised result }
        ensures counted { IsCounted self.old.raised self.new.raised result }
    {
        match self.inner.write(bytes) {
            Ok(count) if count > 0 || bytes.is_empty() => Ok(count),
            _ => {
                self.raised = self.raised.saturating_add(1);
                Err(Failed)
            }
        }
    }
}
