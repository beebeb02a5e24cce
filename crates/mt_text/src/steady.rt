// A source and a sink that never fail.
ghost use Rattle.std.specs.Prelude.{◌≡◌, ◌<◌, ◌+◌, ◌-◌, ◌^◌, length, min, IfOk, IsOk};
ghost use Rattle.std.specs.Io.{ReadsAtMost, WritesAtMost};
ghost use Rattle.std.specs.Io.KnownBytes.{ReadConsumes};
ghost use Rattle.std.specs.declared.option.Option.TheVariants.{Some, None};
ghost use Rattle.mt_text.specs.Causes.{HasCause, WritesSome};

use crate::copying::copy_piece;
use crate::{Failed, Sink, Source};
use std::alloc::Global;
use std::marker::Model;

/// A source that gives the bytes that it holds, at most `piece` at a read, and never fails.
#[derive(Drop)]
pub struct SteadySource {
    bytes: Vec<u8>,
    at: usize,
    piece_size: usize,
}

impl Model for SteadySource {
    ghost use Rattle.std.specs.Prelude.{◌<◌, ◌≤◌, length, drop, List, ℕ};

    ghost Value = { List ℕ × ℕ };

    ghost view = { λ s. (drop s.at s.bytes.items, s.piece_size) };

    ghost invariant = { λ s. (0 < s.piece_size) × (s.at ≤ length s.bytes.items) };
}

impl SteadySource {
    /// A source of these bytes.
    pub fn new(bytes: Vec<u8>, piece: usize) -> SteadySource
        requires { 0 < piece }
        ensures { result ≡ (bytes.items, piece) }
    {
        SteadySource {
            bytes,
            at: 0,
            piece_size: piece,
        }
    }
}

impl Source for SteadySource {
    ghost left = { λ s. Some s.0 };

    ghost faults = { λ s. 0 };

    fn read(&mut self, buf: &mut [u8]) -> Result<usize, Failed>
        ensures bound { ReadsAtMost result buf.new }
        ensures bytes { ReadConsumes (Some self.old.0) (Some self.new.0) result buf.new }
        ensures cause { HasCause 0 0 result }
        ensures steady { IsOk result }
        ensures given { IfOk result (λ n. n ≡ min self.old.1 (min (length self.old.0) (length buf.old))) }
        ensures same { self.new.1 ≡ self.old.1 }
    {
        let count = copy_piece(&self.bytes, self.at, self.piece_size, buf);
        self.at += count;
        Ok(count)
    }
}

/// A sink that takes at most `piece` bytes at a write and never fails.
/// It keeps the number of the bytes alone, so it does not tell them.
#[derive(Clone, Copy, Debug)]
pub struct SteadySink {
    count: u64,
    piece_size: usize,
}

impl Model for SteadySink {
    ghost use Rattle.std.specs.Prelude.{◌<◌, ℕ};

    ghost Value = { ℕ × ℕ };

    ghost view = { λ s. (s.count, s.piece_size) };

    ghost invariant = { λ s. 0 < s.piece_size };

    ghost inverse = { λ d. record { count = d.0; piece_size = d.1 } };
}

impl SteadySink {
    /// A sink that got nothing yet.
    pub fn new(piece: usize) -> SteadySink
        requires { 0 < piece }
        ensures { result ≡ (0, piece) }
    {
        SteadySink {
            count: 0,
            piece_size: piece,
        }
    }

    /// The number of bytes that it got, which stands at its type's end.
    pub fn count(&self) -> u64
        ensures { result ≡ self.now.0 }
    {
        self.count
    }
}

impl Sink for SteadySink {
    ghost got = { λ s. None };

    ghost faults = { λ s. 0 };

    fn write(&mut self, bytes: &[u8]) -> Result<usize, Failed>
        ensures bound { WritesAtMost result bytes.now }
        ensures some { WritesSome result bytes.now }
        ensures cause { HasCause 0 0 result }
        ensures steady { IsOk result }
        ensures taken { IfOk result (λ n. (n ≡ min self.old.1 (length bytes.now)) × (self.new.0 ≡ min (self.old.0 + n) (2 ^ 64 - 1))) }
        ensures same { self.new.1 ≡ self.old.1 }
    {
        let taken = self.piece_size.min(bytes.len());
        self.count = self.count.saturating_add(taken as u64);
        Ok(taken)
    }
}
