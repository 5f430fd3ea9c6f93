//! An end of a channel, as both sides have it (MS-RDPEFS 3.2.5, 3.3.5).

ghost use Rattle.std.specs.Prelude.{◌≡◌, ◌≢◌, ◌+◌, ◌≤◌, ◌++◌, ◌↔◌, [], IsTrue, IfErr, IfSome, OnErr, OnOk, Some, None, Err};
ghost use Rattle.std.specs.Option.{option_to_list};
ghost use Rattle.std.specs.VecDeque.{deque_capacity, deque_len};
ghost use Rattle.rd_hello.specs.declared.end_fault.EndFault.TheVariants as fault;
ghost use Rattle.rd_core.specs.Core.{new_core, send, with_message};
ghost use Rattle.rd_core.specs.Expected.{IsExpected};
ghost use Rattle.rd_core.specs.Hearing.{is_one_of};

use rd_base::{Bad, Packet, packet_of};
use rd_hello::EndFault;
use std::alloc::{AllocError, Global};
use std::collections::VecDeque;
use std::marker::Model;

/// Where an end of a channel stands: the state of its opening, which is of the type `S`, what was wrong with a message, and what waits to be
/// sent, of the type `M`. Contracts see a `CoreState`.
#[derive(Drop)]
pub struct EndCore<S, M> {
    shake: S,
    fault: Option<EndFault>,
    outbox: VecDeque<M>,
}

impl<S, M> Model for EndCore<S, M> {
    ghost use Rattle.rd_core.specs.Core.{CoreState};

    ghost Value = { CoreState S M };

    ghost view = { λ e. record { shake = e.shake; fault = e.fault; outbox = e.outbox.items } };

    ghost use Rattle.std.specs.Prelude.{◌≢◌, Some};
    ghost use Rattle.rd_hello.specs.declared.end_fault.EndFault.TheVariants.{Memory};

    // What was wrong with a message is no want of memory.
    ghost invariant = { λ e. e.fault ≢ Some Memory };
}

impl<S: Copy, M: Drop> EndCore<S, M> {
    /// An end at the start of a channel, with nothing to send.
    pub fn new(alloc: Global, start: S) -> Self
        ensures { result ≡ new_core start }
    {
        EndCore {
            shake: start,
            fault: None,
            outbox: VecDeque::new(alloc),
        }
    }

    /// A channel begins: what was wrong on the last one is forgotten, and what waited to be sent on it is dropped.
    pub fn begin(&mut self, start: S)
        ensures { self.new ≡ new_core start }
    {
        self.shake = start;
        self.fault = None;
        self.outbox.clear();
    }

    /// The state of the opening.
    pub fn state(&self) -> S
        ensures { result ≡ self.now.shake }
    {
        self.shake
    }

    /// Whether a message waits to be sent.
    pub fn has_message(&self) -> bool
        ensures { IsTrue result ↔ (self.now.outbox ≢ []) }
    {
        !self.outbox.is_empty()
    }

    /// Of which packet a message is, where that is one of those that are read; these are the packets of the state with this number. Else the message
    /// is wrong, and after it no other is heard until a channel begins.
    pub fn expect(
        &mut self,
        number: u8,
        wanted: &[Packet],
        message: &[u8],
    ) -> Result<Packet, EndFault>
        ensures held { IfSome self.old.fault (λ held. result ≡ Err held) }
        ensures fresh { self.old.fault ≡ None → IsExpected number wanted.now message.now result }
        ensures sound { OnOk result (self.old.fault ≡ None) }
        ensures same { OnOk result (self.new ≡ self.old) }
        ensures no_want { result ≢ Err fault.Memory }
        ensures wrong { IfErr result (λ wrong. self.new ≡ record self.old { fault = Some wrong }) }
    {
        if let Some(fault) = self.fault {
            return Err(fault);
        }
        let expected = expected(number, wanted, message);
        self.fault = expected.err();
        expected
    }

    /// The message is none of its packet: this is its first fault.
    pub fn fail(&mut self, bad: Bad) -> EndFault
        requires { self.old.fault ≡ None }
        ensures fault { result ≡ fault.Grammar bad }
        ensures kept { self.new ≡ record self.old { fault = Some (fault.Grammar bad) } }
    {
        let fault = EndFault::Grammar(bad);
        self.fault = Some(fault);
        fault
    }

    /// A message is to be sent after all others. Where there is no memory for it nothing changes.
    pub fn put(&mut self, message: M) -> Result<(), AllocError>
        ensures ok { OnOk result (self.new ≡ with_message self.old message) }
        ensures err { OnErr result (self.new ≡ self.old) }
    {
        self.outbox.reserve(1)?;
        self.outbox.push_back_reserved(message);
        Ok(())
    }

    /// The opening goes on to a state, and these messages are to be sent, in order. Where there is no memory for them nothing changes.
    pub fn open(
        &mut self,
        next: S,
        first: Option<M>,
        second: Option<M>,
        third: Option<M>,
    ) -> Result<(), AllocError>
        ensures ok { OnOk result (self.new ≡ record self.old {
          shake = next;
          outbox =
              self.old.outbox ++ option_to_list first ++ option_to_list second ++ option_to_list third;
        }) }
        ensures err { OnErr result (self.new ≡ self.old) }
    {
        self.outbox.reserve(3)?;
        self.shake = next;
        push_some(&mut self.outbox, first);
        push_some(&mut self.outbox, second);
        push_some(&mut self.outbox, third);
        Ok(())
    }

    /// The message that is to be sent first, if one waits. It takes no memory.
    pub fn send(&mut self) -> Option<M>
        ensures { send self.old ≡ (self.new, result) }
    {
        self.outbox.pop_front()
    }
}

/// Adds a message where there is one, in room that was made.
fn push_some<M>(outbox: &mut VecDeque<M>, message: Option<M>)
    requires { deque_len outbox.old + 1 ≤ deque_capacity outbox.old }
    ensures items { outbox.new.items ≡ outbox.old.items ++ option_to_list message }
    ensures len { deque_len outbox.new ≤ deque_len outbox.old + 1 }
    ensures capacity { deque_capacity outbox.new ≡ deque_capacity outbox.old }
{
    if let Some(message) = message {
        outbox.push_back_reserved(message);
    }
}

/// The packet of a message, where it is one of these; else what is wrong with the message, in the state with this number.
fn expected(number: u8, wanted: &[Packet], message: &[u8]) -> Result<Packet, EndFault>
    ensures { IsExpected number wanted.now message.now result }
{
    let packet = match packet_of(message) {
        Ok(packet) => packet,
        Err(bad) => return Err(EndFault::Grammar(bad)),
    };
    if !is_one_of(wanted, packet) {
        return Err(EndFault::Order {
            state: number,
            packet: packet.id(),
        });
    }
    Ok(packet)
}

/// Whether a packet is one of these.
fn is_one_of(wanted: &[Packet], packet: Packet) -> bool
    ensures { result ≡ is_one_of wanted.now packet }
{
    wanted.iter().any(|other| other.id() == packet.id())
}
