//! The half of a channel that is read.

ghost use Rattle.std.specs.Prelude.{◌≡◌, ◌≢◌, ◌<◌, ◌↔◌, [], List, ℕ, Option, None, Some, Err, IfOk, IfNone, IfSome, OnErr, length};
ghost use Rattle.std.specs.Io.KnownBytes.{Consumes};
ghost use Rattle.rd_carry.specs.Incoming.{HasHeard, GivesMessage, ReadsOnce, ReadFails, new_incoming, max_incoming};
ghost use Rattle.rd_carry.specs.declared.feeding.CarryNo.TheVariants as no;

use crate::feeding::{CarryNo, MAX_INCOMING, feed_one, read_once};
use rd_base::{Bytes, Source};
use rd_chunk::{ChunkBad, Joiner};
use rd_trace::Trace;
use std::alloc::Global;
use std::marker::Model;

/// The half of a channel that is read: its messages, one after the other. Contracts see an `IncomingState`.
#[derive(Drop)]
pub struct Incoming<S: Source> {
    source: S,
    joiner: Joiner,
    buffer: Vec<u8>,
    /// What was read and isn't handled stands in the buffer from here ..
    front: usize,
    /// .. to here.
    end: usize,
    /// How many bytes were read, and how many messages were handed out.
    count: u64,
    heard: u64,
    read: Trace<u8>,
    messages: Trace<Bytes>,
}

impl<S: Source> Model for Incoming<S> {
    ghost use Rattle.std.specs.Prelude.{length, take, drop};
    ghost use Rattle.rd_carry.specs.Incoming.{IncomingState, IsIncoming};

    ghost Value = { IncomingState };

    ghost view = { λ h. record {
      left = S.left h.source;
      faults = S.faults h.source;
      read = h.read.items;
      messages = h.messages.items;
      unhandled = drop h.front (take h.end h.buffer.items);
      fault = h.joiner.fault;
      room = length h.buffer.items;
    } };

    ghost invariant = { λ h. IsIncoming h.joiner h.buffer.items h.front h.end h.count h.heard h.read.items h.messages.items };
}

impl<S: Source> Incoming<S> {
    /// Before the first read of a channel. One read asks for as many bytes as the buffer is long. Messages come from `alloc`.
    pub fn new(alloc: Global, source: S, buffer: Vec<u8>) -> Incoming<S>
        requires { 0 < length buffer.items }
        ensures value { result ≡ new_incoming (S.left source) (S.faults source) (length buffer.items) }
        ensures heard { HasHeard result }
    {
        Incoming {
            source,
            joiner: Joiner::new(alloc),
            buffer,
            front: 0,
            end: 0,
            count: 0,
            heard: 0,
            read: Trace::new(),
            messages: Trace::new(),
        }
    }

    /// The source and the buffer, which is as long as it was.
    pub fn into_parts(self) -> (S, Vec<u8>)
        ensures left { S.left result.0 ≡ self.left }
        ensures faults { S.faults result.0 ≡ self.faults }
        ensures room { length result.1.items ≡ self.room }
        ensures some { 0 < length result.1.items }
    {
        let Incoming { source, buffer, .. } = self;
        (source, buffer)
    }

    /// The next whole message of what was read. Where there is none all that was read is handled, and more is to be read. A fault stays: each
    /// later call returns it again.
    pub fn message(&mut self) -> Result<Option<Bytes>, CarryNo>
        ensures heard { HasHeard self.new }
        ensures some { IfOk result (λ given. IfSome given (GivesMessage self.old self.new)) }
        ensures none { IfOk result (λ given. IfNone given (self.new ≡ record self.old { unhandled = [] })) }
        ensures kept { (self.new.left ≡ self.old.left) × (self.new.faults ≡ self.old.faults) × (self.new.read ≡ self.old.read) }

        // A fault is the first one of the bytes read (`heard`), and it stays.
        ensures fault { (bad : ChunkBad) → (self.new.fault ≡ Some bad) ↔ (result ≡ Err (no.Bad bad)) }
        ensures stays { (bad : ChunkBad) → self.old.fault ≡ Some bad → (result ≡ Err (no.Bad bad)) × (self.new ≡ self.old) }
        ensures err { OnErr result (self.new ≡ record self.old { fault = self.new.fault }) }
        ensures memory { result ≡ Err no.Memory → self.new ≡ self.old }
        ensures no_read { (result ≢ Err no.Failed) × (result ≢ Err no.Long) }
    {
        let front = self.front;
        let (count, message) = feed_one(
            &mut self.joiner,
            &self.buffer.as_slice()[front..self.end],
        )?;
        self.front = front + count;
        self.heard += u64::from(message.is_some());
        self.messages = self.messages.becoming(&message);
        Ok(message)
    }

    /// One read of the source, to be called where all that was read is handled. False where the source is at its end.
    pub fn read(&mut self) -> Result<bool, CarryNo>
        requires { self.old.unhandled ≡ [] }
        ensures heard { HasHeard self.new }
        ensures read { IfOk result (ReadsOnce self.old self.new) }
        // What was read since the half began is what its source consumed.
        ensures since { (began : Option (List ℕ)) → Consumes began self.old.left self.old.read → Consumes began self.new.left self.new.read }

        ensures failed { result ≡ Err no.Failed → ReadFails self.old self.new }
        ensures long { (result ≡ Err no.Long) ↔ (length self.old.read ≡ max_incoming) }
        ensures unread { result ≡ Err no.Long → self.new ≡ self.old }
        ensures no_other { (result ≢ Err no.Memory) × ((bad : ChunkBad) → result ≢ Err (no.Bad bad)) }
    {
        let most = MAX_INCOMING - self.count;
        if most == 0 {
            return Err(CarryNo::Long);
        }
        self.front = 0;
        self.end = 0;
        let Ok(count) = read_once(&mut self.source, self.buffer.as_mut_slice(), most) else {
            return Err(CarryNo::Failed);
        };
        self.end = count;
        self.count += count as u64;
        self.read = self.read.becoming(&&self.buffer.as_slice()[..count]);
        Ok(count > 0)
    }

    /// How many messages were handed out.
    pub fn heard(&self) -> u64
        ensures { result ≡ length self.now.messages }
    {
        self.heard
    }
}
