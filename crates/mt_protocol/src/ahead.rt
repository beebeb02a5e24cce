// Bytes read ahead of the commands that were read.
ghost use Rattle.std.specs.Prelude.{◌≡◌, ◌≤◌, ◌<◌, ◌+◌, ◌-◌, ◌++◌, ℕ, [], length, drop, IfOk, OnErr, IsErrOf};
ghost use Rattle.std.specs.Io.KnownBytes.{Consumes};
ghost use Rattle.mt_protocol.specs.Taking.{FillsTo, used};
ghost use Rattle.mt_text.specs.Causes.{Rose};

use crate::commands::CommandStop;
use mt_text::Source;
use std::alloc::Global;
use std::marker::Model;

/// Bytes that were read ahead, and the number of bytes that were read.
#[derive(Drop)]
pub struct Ahead {
    alloc: Global,
    bytes: Vec<u8>,
    at: usize,
    count: usize,
}

impl Model for Ahead {
    ghost use Rattle.std.specs.Prelude.{◌≤◌, vec_len, drop, length};
    ghost use Rattle.mt_protocol.specs.Taking.{Held};

    ghost Value = { Held };

    ghost view = { λ a. record { bytes = drop a.at a.bytes.items; read = a.count } };

    ghost invariant = { λ a. (a.at ≤ vec_len a.bytes) × (length (drop a.at a.bytes.items) ≤ a.count) };
}

impl Ahead {
    /// No bytes. It takes no memory.
    pub fn new(alloc: Global) -> Ahead
        ensures { result ≡ record { bytes = []; read = 0 } }
    {
        Ahead {
            alloc,
            bytes: Vec::new(alloc),
            at: 0,
            count: 0,
        }
    }

    // The bytes.
    pub(crate) fn bytes(&self) -> &[u8]
        ensures { result.now ≡ self.now.bytes }
    {
        &self.bytes[self.at..]
    }

    // How many bytes of the input stand before them.
    pub(crate) fn used(&self) -> usize
        ensures is { result ≡ used self.now }
        ensures within { length self.now.bytes ≤ self.now.read }
    {
        self.count - (self.bytes.len() - self.at)
    }

    // Passes over some of them.
    pub(crate) fn pass(&mut self, size: usize)
        requires { size ≤ length self.old.bytes }
        ensures { self.new ≡ record { bytes = drop size self.old.bytes; read = self.old.read } }
    {
        self.at += size;
    }

    // Reads some more, and says how many.
    pub(crate) fn fill<I: Source>(&mut self, input: &mut I) -> Result<usize, CommandStop>
        ensures { FillsTo self.old self.new (I.left input.old) (I.left input.new) (I.faults input.old) (I.faults input.new) result }
    {
        let mut buf = [0u8; 4096];
        if self.count > usize::MAX - 4096 {
            return Err(CommandStop::OutOfMemory);
        }
        self.front()?;
        self.bytes.reserve(4096)?;
        match input.read(&mut buf) {
            Ok(count) => {
                self.bytes.extend_from_slice(&buf[..count]).unwrap();
                self.count += count;
                Ok(count)
            }
            Err(_) => Err(CommandStop::ReadFault),
        }
    }

    // Moves the bytes to the front of their room.
    fn front(&mut self) -> Result<(), CommandStop>
        ensures same { self.new ≡ self.old }
        ensures wanting { OnErr result (IsErrOf result CommandStop.OutOfMemory) }
    {
        if self.at > 0 {
            let bytes = self.bytes[self.at..].to_vec(self.alloc)?;
            self.bytes = bytes;
            self.at = 0;
        }
        Ok(())
    }
}
