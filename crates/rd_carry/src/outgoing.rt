//! The half of a channel that is written.

ghost use Rattle.std.specs.Prelude.{◌≡◌, ◌<◌, ◌≤◌, ◌↔◌, ◌⊎◌, ◌++◌, ◌||◌, not, true, false, if◌then◌else◌, [], ◌∷◌, List, ℕ, Option, IsTrue, OnOk, OnErr, length, vec_capacity};
ghost use Rattle.std.specs.Io.KnownBytes.{Appends};
ghost use Rattle.rd_base.specs.Faults.{one_more};
ghost use Rattle.rd_base.specs.Prefixes.{AppendsPrefix};
ghost use Rattle.rd_chunk.specs.Carrier.{IsMessage, carrier_of};
ghost use Rattle.rd_carry.specs.Outgoing.{HasWritten, new_outgoing, having_put, flush_len};

use rd_base::write_all;
use rd_chunk::put_frames;
use rd_link::Hang;
use std::alloc::AllocError;
use std::marker::Model;

/// Where so many bytes wait they are to be written before more is put.
pub const FLUSH_LEN: usize = 1 << 20;

/// The half of a channel that is written: messages in frames, gathered and written at once. Contracts see an `OutgoingState`.
#[derive(Drop)]
pub struct Outgoing<K: Hang> {
    sink: K,
    /// The frames that wait to be written.
    buffer: Vec<u8>,
    failed: bool,
}

impl<K: Hang> Model for Outgoing<K> {
    ghost use Rattle.std.specs.Prelude.{vec_capacity};
    ghost use Rattle.rd_carry.specs.Outgoing.{OutgoingState, IsOutgoing};

    ghost Value = { OutgoingState };

    ghost view = { λ h. record {
      held = K.Sink.held h.sink;
      faults = K.Sink.faults h.sink;
      pending = h.buffer.items;
      capacity = vec_capacity h.buffer;
    } };

    ghost invariant = { λ h. IsOutgoing h.failed (K.Sink.faults h.sink) h.buffer.items };
}

impl<K: Hang> Outgoing<K> {
    /// Before the first message of a channel. What the buffer holds is cleared.
    pub fn new(sink: K, buffer: Vec<u8>) -> Outgoing<K>
        requires { K.faults sink ≡ 0 }
        ensures value { result ≡ new_outgoing (K.held sink) (vec_capacity buffer) }
        ensures since { HasWritten (K.held sink) [] result }
    {
        let mut buffer = buffer;
        buffer.clear();
        Outgoing {
            sink,
            buffer,
            failed: false,
        }
    }

    /// The sink and the buffer.
    pub fn into_parts(self) -> (K, Vec<u8>)
        ensures held { K.held result.0 ≡ self.held }
        ensures faults { K.faults result.0 ≡ self.faults }
        ensures pending { result.1.items ≡ self.pending }
        ensures capacity { vec_capacity result.1 ≡ self.capacity }
    {
        let Outgoing { sink, buffer, .. } = self;
        (sink, buffer)
    }

    /// Puts a message's frames to those that wait, or nothing where a write has failed before. Want of memory changes nothing.
    pub fn put(&mut self, message: &[u8]) -> Result<(), AllocError>
        requires { IsMessage message.now }
        ensures put { OnOk result (self.new ≡ having_put self.old message.now self.new.capacity) }
        ensures grows { self.old.capacity ≤ self.new.capacity }
        ensures err { OnErr result (self.new ≡ self.old) }
        // The message is the last of those that were put since the half began.
        ensures since { OnOk result ((began : Option (List ℕ)) (messages : List (List ℕ)) → HasWritten began messages self.old
            → HasWritten began (messages ++ message.now ∷ []) self.new) }
    {
        gather(self.failed, &mut self.buffer, message)
    }

    /// Writes all that waits, in as few writes as the sink takes it in. Where a write fails the half is hung up, and nothing is written any
    /// more.
    pub fn flush(&mut self)
        ensures flushed { self.new ≡ record self.old { held = self.new.held; faults = self.new.faults; pending = [] } }
        ensures all { self.new.faults ≡ 0 → Appends self.old.held self.new.held self.old.pending }
        ensures prefix { AppendsPrefix self.old.held self.new.held self.old.pending }
        ensures counted { (self.new.faults ≡ self.old.faults) ⊎ (self.new.faults ≡ one_more self.old.faults) }
        ensures over { 0 < self.old.faults → self.new ≡ self.old }
        // What the sink holds since the half began are the frames of all messages put, or a prefix of them where a write failed.
        ensures since { (began : Option (List ℕ)) (messages : List (List ℕ)) → HasWritten began messages self.old → HasWritten began messages self.new }
    {
        write_or_hang_up(&mut self.sink, &mut self.failed, self.buffer.as_slice());
        self.buffer.clear();
    }

    /// Whether so many bytes wait that they are to be written before more is put.
    pub fn is_full(&self) -> bool
        ensures { IsTrue result ↔ (flush_len ≤ length self.now.pending) }
    {
        self.buffer.len() >= FLUSH_LEN
    }

    /// Whether a write failed.
    pub fn failed(&self) -> bool
        ensures { IsTrue result ↔ (0 < self.now.faults) }
    {
        self.failed
    }

    /// Says that nothing more is written.
    pub fn hang_up(&mut self)
        ensures { self.new ≡ self.old }
    {
        self.sink.hang_up();
    }
}

/// Appends a message's frames to a buffer, or nothing where a write has failed. Want of memory changes nothing.
fn gather(failed: bool, buffer: &mut Vec<u8>, message: &[u8]) -> Result<(), AllocError>
    requires { IsMessage message.now }
    ensures items { OnOk result (buffer.new.items ≡ (if failed then buffer.old.items else buffer.old.items ++ carrier_of message.now)) }
    ensures capacity { vec_capacity buffer.old ≤ vec_capacity buffer.new }
    ensures err { OnErr result ((buffer.new.items ≡ buffer.old.items) × (vec_capacity buffer.new ≡ vec_capacity buffer.old)) }
{
    if failed {
        return Ok(());
    }
    put_frames(buffer, message)
}

/// Writes all of the bytes, or nothing where a write has failed before. Where one fails the half is hung up.
fn write_or_hang_up<K: Hang>(sink: &mut K, failed: &mut bool, bytes: &[u8])
    ensures prefix { AppendsPrefix (K.held sink.old) (K.held sink.new) bytes.now }
    ensures all { failed.new ≡ false → Appends (K.held sink.old) (K.held sink.new) bytes.now }
    ensures counted { K.faults sink.new ≡ (if failed.old || not failed.new then K.faults sink.old else one_more (K.faults sink.old)) }
    ensures over { failed.old ≡ true → (failed.new ≡ true) × (K.held sink.new ≡ K.held sink.old) }
{
    if *failed {
        return;
    }
    if write_all(sink, bytes).is_err() {
        sink.hang_up();
        *failed = true;
    }
}
