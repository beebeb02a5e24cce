// A source and a sink in memory, which fail at listed calls.
ghost use Rattle.std.specs.Prelude.{◌≡◌, ◌<◌, ◌≤◌, ◌↔◌, ◌-◌, ◌⊎◌, [], length, min, IfOk, IsErr, IsTrue, Contains};
ghost use Rattle.std.specs.Io.{ReadsAtMost, WritesAtMost};
ghost use Rattle.std.specs.Io.KnownBytes.{ReadConsumes, WriteAppends};
ghost use Rattle.std.specs.declared.option.Option.TheVariants.{Some};
ghost use Rattle.mt_text.specs.Causes.{HasCause, IsCounted, WritesSome};
ghost use Rattle.mt_text.specs.Devices.{SourceView, SinkView, next_turn};

use crate::copying::copy_piece;
use crate::{Failed, OutOfMemory, Sink, Source};
use std::alloc::Global;
use std::marker::Model;

/// A source that gives the bytes that it holds, at most `piece` at a read.
/// The reads whose numbers, from 0 on, are listed fail, and no others. Reading takes no memory.
#[derive(Drop)]
pub struct MemorySource {
    bytes: Vec<u8>,
    at: usize,
    piece_size: usize,
    listed: Vec<u64>,
    calls: u128,
    raised: u64,
}

impl Model for MemorySource {
    ghost use Rattle.std.specs.Prelude.{◌<◌, ◌≤◌, length, drop};
    ghost use Rattle.mt_text.specs.Devices.{SourceView};

    ghost Value = { SourceView };

    ghost view = { λ s. record { coming = drop s.at s.bytes.items; piece = s.piece_size; failing = s.listed.items; turn = s.calls; count = s.raised } };

    ghost invariant = { λ s. (0 < s.piece_size) × (s.at ≤ length s.bytes.items) };
}

impl MemorySource {
    /// A source of these bytes. The reads whose numbers stand in `failing` will fail.
    pub fn new(bytes: Vec<u8>, piece: usize, failing: Vec<u64>) -> MemorySource
        requires { 0 < piece }
        ensures { result ≡ record { coming = bytes.items; piece = piece; failing = failing.items; turn = 0; count = 0 } }
    {
        MemorySource {
            bytes,
            at: 0,
            piece_size: piece,
            listed: failing,
            calls: 0,
            raised: 0,
        }
    }
}

impl Source for MemorySource {
    ghost left = { λ s. Some s.coming };

    ghost faults = { λ s. s.count };

    fn read(&mut self, buf: &mut [u8]) -> Result<usize, Failed>
        ensures bound { ReadsAtMost result buf.new }
        ensures bytes { ReadConsumes (Some self.old.coming) (Some self.new.coming) result buf.new }
        ensures cause { HasCause self.old.count self.new.count result }
        ensures counted { IsCounted self.old.count self.new.count result }
        ensures listed { IsErr result ↔ Contains self.old.failing self.old.turn }
        ensures given { IfOk result (λ n. n ≡ min self.old.piece (min (length self.old.coming) (length buf.old))) }
        ensures same { (self.new.piece ≡ self.old.piece) × (self.new.failing ≡ self.old.failing) }
        ensures turn { self.new.turn ≡ next_turn self.old.turn }
    {
        let number = self.calls;
        self.calls = number.saturating_add(1);
        if is_listed(&self.listed, number) {
            self.raised = self.raised.saturating_add(1);
            return Err(Failed);
        }
        let count = copy_piece(&self.bytes, self.at, self.piece_size, buf);
        self.at += count;
        Ok(count)
    }
}

/// A sink that keeps the bytes that it gets, at most `room` of them and at most `piece` at a write.
/// The writes whose numbers, from 0 on, are listed fail, and so does a write of something where no
/// room is left. Writing takes no memory.
#[derive(Drop)]
pub struct MemorySink {
    bytes: Vec<u8>,
    most: usize,
    piece_size: usize,
    listed: Vec<u64>,
    calls: u128,
    raised: u64,
}

impl Model for MemorySink {
    ghost use Rattle.std.specs.Prelude.{◌<◌, ◌≤◌, vec_len, vec_capacity};
    ghost use Rattle.mt_text.specs.Devices.{SinkView};

    ghost Value = { SinkView };

    ghost view = { λ s. record { held = s.bytes.items; room = s.most; piece = s.piece_size; failing = s.listed.items; turn = s.calls; count = s.raised } };

    ghost invariant = { λ s. (0 < s.piece_size) × (vec_len s.bytes ≤ s.most) × (s.most ≤ vec_capacity s.bytes) };
}

impl MemorySink {
    /// An empty sink with room for `room` bytes. The writes whose numbers stand in `failing` will
    /// fail. `OutOfMemory` comes where the room can't be had.
    pub fn new(
        alloc: Global,
        room: usize,
        piece: usize,
        failing: Vec<u64>,
    ) -> Result<MemorySink, OutOfMemory>
        requires { 0 < piece }
        ensures { IfOk result (λ s. s ≡ record { held = []; room = room; piece = piece; failing = failing.items; turn = 0; count = 0 }) }
    {
        let bytes = Vec::with_capacity(alloc, room)?;
        Ok(MemorySink {
            bytes,
            most: room,
            piece_size: piece,
            listed: failing,
            calls: 0,
            raised: 0,
        })
    }

    /// The bytes that it got.
    pub fn bytes(&self) -> &[u8]
        ensures { result.now ≡ self.now.held }
    {
        &self.bytes
    }
}

impl Sink for MemorySink {
    ghost got = { λ s. Some s.held };

    ghost faults = { λ s. s.count };

    fn write(&mut self, bytes: &[u8]) -> Result<usize, Failed>
        ensures bound { WritesAtMost result bytes.now }
        ensures some { WritesSome result bytes.now }
        ensures bytes { WriteAppends (Some self.old.held) (Some self.new.held) result bytes.now }
        ensures cause { HasCause self.old.count self.new.count result }
        ensures counted { IsCounted self.old.count self.new.count result }
        ensures listed { IsErr result ↔ (Contains self.old.failing self.old.turn ⊎ ((0 < length bytes.now) × (self.old.room ≤ length self.old.held))) }
        ensures taken { IfOk result (λ n. n ≡ min self.old.piece (min (self.old.room - length self.old.held) (length bytes.now))) }
        ensures same { (self.new.piece ≡ self.old.piece) × (self.new.failing ≡ self.old.failing) × (self.new.room ≡ self.old.room) }
        ensures turn { self.new.turn ≡ next_turn self.old.turn }
    {
        let number = self.calls;
        self.calls = number.saturating_add(1);
        let free = self.most - self.bytes.len();
        if is_listed(&self.listed, number) || (!bytes.is_empty() && free == 0) {
            self.raised = self.raised.saturating_add(1);
            return Err(Failed);
        }
        let count = self.piece_size.min(free.min(bytes.len()));
        self.bytes.extend_from_slice(&bytes[..count]).unwrap();
        Ok(count)
    }
}

// Whether the call of this number is listed.
fn is_listed(listed: &[u64], number: u128) -> bool
    ensures { IsTrue result ↔ Contains listed.now number }
{
    match u64::try_from(number) {
        Ok(small) => listed.contains(&small),
        Err(_) => false,
    }
}
