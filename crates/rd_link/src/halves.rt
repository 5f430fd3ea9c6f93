//! The halves of a channel in memory.

ghost use Rattle.std.specs.Prelude.{◌≡◌, ◌↔◌, [], Ok, Some, Contains, IsErr, IfOk, min, length};
ghost use Rattle.std.specs.Io.KnownBytes.{ReadConsumes, WriteAppends};
ghost use Rattle.std.specs.Io.{ReadsAtMost, WritesAtMost};
ghost use Rattle.rd_base.specs.Faults.{CountsFault, CountsWriteFault, one_more};

use crate::link::Hang;
use rd_base::{Bytes, Calls, Failed, PlainSource, Sink, Source};
use std::alloc::Global;
use std::marker::Model;

/// The half of a channel in memory that is read from. Contracts see the bytes left, the number of reads so far, the numbers of those
/// that fail, and the count of faults.
#[derive(Drop)]
pub struct MemIn {
    source: PlainSource,
    count: usize,
    calls: u64,
    fails: Calls,
    faults: u64,
}

impl Model for MemIn {
    ghost use Rattle.std.specs.Prelude.{◌≡◌, length};
    ghost use Rattle.rd_base.specs.InMemory.{SourceState};

    ghost Value = { SourceState };

    ghost view = { λ s. record { left = s.source; calls = s.calls; fails = s.fails; faults = s.faults } };

    ghost invariant = { λ s. s.count ≡ length s.source };
}

impl MemIn {
    /// A half with these bytes, before which there were so many reads. The reads with the given numbers, counted from 1, fail.
    pub(crate) fn new(bytes: Bytes, calls: u64, fails: Calls) -> Self
        ensures { result ≡ record { left = bytes; calls = calls; fails = fails; faults = 0 } }
    {
        let count = bytes.as_slice().len();
        MemIn {
            source: PlainSource::new(bytes),
            count,
            calls,
            fails,
            faults: 0,
        }
    }

    /// How many bytes are left.
    pub(crate) fn count(&self) -> usize
        ensures { result ≡ length self.now.left }
    {
        self.count
    }

    pub(crate) fn calls(&self) -> u64
        ensures { result ≡ self.now.calls }
    {
        self.calls
    }

    pub(crate) fn faults(&self) -> u64
        ensures { result ≡ self.now.faults }
    {
        self.faults
    }
}

impl Source for MemIn {
    ghost left = { λ s. Some s.left };

    ghost faults = { λ s. s.faults };

    /// Gives as many bytes as are left and find room, unless its number is one of those that fail.
    fn read(&mut self, into: &mut [u8]) -> Result<usize, Failed>
        ensures bound { ReadsAtMost result into.new }
        ensures bytes { ReadConsumes (Some self.old.left) (Some self.new.left) result into.new }
        ensures counted { CountsFault result self.old.faults self.new.faults }
        ensures fails { IsErr result ↔ Contains self.old.fails (one_more self.old.calls) }
        ensures whole { IfOk result (λ count. count ≡ min (length self.old.left) (length into.old)) }
        ensures calls { self.new.calls ≡ one_more self.old.calls }
        ensures numbers { self.new.fails ≡ self.old.fails }
    {
        self.calls = self.calls.saturating_add(1);
        if self.fails.as_slice().contains(&self.calls) {
            self.faults = self.faults.saturating_add(1);
            return Err(Failed);
        }
        let count = self.source.read(into)?;
        self.count -= count;
        Ok(count)
    }
}

/// The half of a channel in memory that is written to. Contracts see the bytes held, the number of writes so far, the numbers of those
/// that fail, and the count of faults.
#[derive(Drop)]
pub struct MemOut {
    held: Vec<u8>,
    calls: u64,
    fails: Calls,
    faults: u64,
}

impl Model for MemOut {
    ghost use Rattle.rd_base.specs.InMemory.{SinkState};

    ghost Value = { SinkState };

    ghost view = { λ s. record { held = s.held.items; calls = s.calls; fails = s.fails; faults = s.faults } };
}

impl MemOut {
    /// An empty half, before which there were so many writes. The writes with the given numbers, counted from 1, fail.
    pub(crate) fn new(alloc: Global, calls: u64, fails: Calls) -> Self
        ensures { result ≡ record { held = []; calls = calls; fails = fails; faults = 0 } }
    {
        MemOut {
            held: Vec::new(alloc),
            calls,
            fails,
            faults: 0,
        }
    }

    /// The bytes held.
    pub fn bytes(&self) -> &[u8]
        ensures { result.now ≡ self.now.held }
    {
        self.held.as_slice()
    }

    pub(crate) fn calls(&self) -> u64
        ensures { result ≡ self.now.calls }
    {
        self.calls
    }

    pub(crate) fn faults(&self) -> u64
        ensures { result ≡ self.now.faults }
    {
        self.faults
    }

    pub(crate) fn into_bytes(self) -> Bytes
        ensures { result ≡ self.held }
    {
        Bytes::of(self.held)
    }
}

impl Sink for MemOut {
    ghost held = { λ s. Some s.held };

    ghost faults = { λ s. s.faults };

    /// Takes the whole piece, unless its number is one of those that fail. A write that finds no memory is a fault too.
    fn write(&mut self, piece: &[u8]) -> Result<usize, Failed>
        ensures bound { WritesAtMost result piece.now }
        ensures bytes { WriteAppends (Some self.old.held) (Some self.new.held) result piece.now }
        ensures counted { CountsWriteFault result (length piece.now) self.old.faults self.new.faults }
        ensures fails { Contains self.old.fails (one_more self.old.calls) → IsErr result }
        ensures whole { IfOk result (λ count. count ≡ length piece.now) }
        ensures calls { self.new.calls ≡ one_more self.old.calls }
        ensures numbers { self.new.fails ≡ self.old.fails }
    {
        self.calls = self.calls.saturating_add(1);
        let fails = self.fails.as_slice().contains(&self.calls);
        if fails || self.held.extend_from_slice(piece).is_err() {
            self.faults = self.faults.saturating_add(1);
            return Err(Failed);
        }
        Ok(piece.len())
    }
}

impl Hang for MemOut {
    /// Nothing waits in memory, so this does nothing.
    fn hang_up(&mut self)
        ensures { self.new ≡ self.old }
    {}
}
