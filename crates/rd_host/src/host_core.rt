//! A host's end of a channel (MS-RDPEFS 3.3.5).

ghost use Rattle.std.specs.Prelude.{◌≡◌, ◌≢◌, ◌↔◌, [], IsTrue, IfErr, IfOk, IfSome, Some, Err};
ghost use Rattle.rd_base.specs.declared.packet.Packet.TheVariants as packet;
ghost use Rattle.rd_chunk.specs.Carrier.{IsMessage};
ghost use Rattle.rd_hello.specs.Moves.{packet_in};
ghost use Rattle.rd_host.specs.Core.{HostStep, IsHostKept, IsHostReady, MayTell, begins, hears, new_host, replies, sends, tells};
ghost use Rattle.rd_host.specs.Heard.{HasBody, act_of, answer_of};
ghost use Rattle.rd_hello.specs.declared.end_fault.EndFault.TheVariants as fault;

use crate::act::{Act, LentAct};
use crate::hearing::{HostEnd, listen};
use rd_base::{Bytes, Status};
use rd_core::EndCore;
use rd_devices::{DeviceReply, write_reply};
use rd_hello::{EndFault, HostShake, HostState, write_hello};
use rd_printer::{Notice, write_notice};
use std::alloc::{AllocError, Global};
use std::marker::Model;

/// A host's end of a channel. What it answers a message with is at once in its outbox; everything else is the caller's. Contracts see a
/// `HostCoreState`.
#[derive(Drop)]
pub struct HostCore {
    alloc: Global,
    client: u32,
    end: HostEnd,
}

impl Model for HostCore {
    ghost use Rattle.rd_host.specs.Core.{HostCoreState, IsHostKept};

    ghost Value = { HostCoreState };

    ghost view = { λ h. record { client = h.client; core = h.end } };

    ghost invariant = { λ h. IsHostKept (record { client = h.client; core = h.end }) };
}

impl HostCore {
    /// A host on no channel, which announces this ClientId. It takes no memory; what it allocates later comes from `alloc`.
    pub fn new(alloc: Global, client: u32) -> HostCore
        ensures step { result ≡ new_host client }
        ensures kept { IsHostKept result }
    {
        HostCore {
            alloc,
            client,
            end: EndCore::new(alloc, HostState::Start),
        }
    }

    /// A channel begins: of the last one nothing is kept, and the host announces itself. Want of memory changes nothing.
    pub fn begin(&mut self) -> Result<(), AllocError>
        ensures step { HostStep self.old (begins result) self.new }
        ensures kept { IsHostKept self.new }
    {
        let announce = HostShake::new(self.client).begin();
        let message = write_hello(self.alloc, &announce)?;
        let mut end = EndCore::new(self.alloc, HostState::Start);
        end.put(message)?;
        self.end = end;
        Ok(())
    }

    /// Hears a message of the client. After a message that is wrong the answer stays until a channel begins; want of memory changes nothing.
    pub fn hear(&mut self, message: &[u8]) -> Result<Act, EndFault>
        ensures step { HostStep self.old (hears message.now result) self.new }
        ensures kept { IsHostKept self.new }
        ensures held { IfSome self.old.core.fault (λ held. result ≡ Err held) }
    {
        let heard = match listen(&mut self.end, self.alloc, message) {
            Ok(heard) => heard,
            Err(fault) => return Err(fault),
        };
        copied(self.alloc, heard)
    }

    /// The same; the bytes after a completion's head stay in the message, so it takes no memory for a completion.
    pub fn hear_lent<'m>(&mut self, message: &'m [u8]) -> Result<LentAct<'m>, EndFault>
        ensures step { HostStep self.old (hears message.now (answer_of result)) self.new }
        ensures kept { IsHostKept self.new }
        ensures held { IfSome self.old.core.fault (λ held. result ≡ Err held) }
        ensures lent { packet_in message.now ≡ Some packet.IoCompletion → result ≢ Err fault.Memory }
    {
        listen(&mut self.end, self.alloc, message)
    }

    /// Replies to a device that the client announced. Want of memory changes nothing.
    pub fn reply(&mut self, device: u32, code: Status) -> Result<(), AllocError>
        requires { IsHostReady self.old }
        ensures step { HostStep self.old (replies device code result) self.new }
        ensures kept { IsHostKept self.new }
    {
        let message = write_reply(self.alloc, &DeviceReply { id: device, code })?;
        self.end.put(message)
    }

    /// Tells the client of a printer. Want of memory changes nothing.
    pub fn notice(&mut self, notice: &Notice) -> Result<(), AllocError>
        requires { MayTell self.old notice.now }
        ensures step { HostStep self.old (tells notice.now result) self.new }
        ensures kept { IsHostKept self.new }
    {
        let message = write_notice(self.alloc, notice)?;
        self.end.put(message)
    }

    /// Whether the opening is over.
    pub fn ready(&self) -> bool
        ensures { IsTrue result ↔ IsHostReady self.now }
    {
        self.end.state() == HostState::Ready
    }

    /// The message that is to be sent first, if one waits. It takes no memory.
    pub fn outbox(&mut self) -> Option<Bytes>
        ensures step { HostStep self.old (sends result) self.new }
        ensures message { IfSome result IsMessage }
        ensures kept { IsHostKept self.new }
    {
        self.end.send()
    }

    /// Whether a message waits to be sent.
    pub fn has_message(&self) -> bool
        ensures { IsTrue result ↔ (self.now.core.outbox ≢ []) }
    {
        self.end.has_message()
    }
}

/// The same, with the bytes after a completion's head copied out of the message.
fn copied(alloc: Global, heard: LentAct<'_>) -> Result<Act, EndFault>
    ensures copied { IfOk result (λ a. a ≡ act_of heard.entry) }
    ensures wanting { IfErr result (λ wrong. (wrong ≡ fault.Memory) × HasBody heard.entry) }
{
    match heard {
        LentAct::Nothing => Ok(Act::Nothing),
        LentAct::Complete { head, body } => {
            let body = Bytes::of(Vec::from_slice(alloc, body)?);
            Ok(Act::Complete { head, body })
        }
        LentAct::Announced(devices) => Ok(Act::Announced(devices)),
        LentAct::Removed(ids) => Ok(Act::Removed(ids)),
    }
}
