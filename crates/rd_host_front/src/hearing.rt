//! What the reader brings: messages of the client.

ghost use Rattle.std.specs.Prelude.{◌≡◌, ◌≤◌, ◌<◌, ◌+◌, ◌-◌, IfOk, drop, length};
ghost use Rattle.rd_base.specs.Layout.{AreBytes};
ghost use Rattle.rd_host.specs.declared.act.Act.TheVariants as Asked;
ghost use Rattle.rd_host.specs.Core.{HostStep, IsHostReady, hears};
ghost use Rattle.rd_host_front.specs.HostFront.{Admits, AdmitsAll, AdmitsBy, BeginsLife, Completes, CoreDoes, Follows, Forgets, ForgetsAll, HearsMessage, HostFrontStep, IsReadyFor, RepliesToDevice, completed_as, done_if_found, is_opened, most_following};
ghost use Rattle.rd_host_front.specs.declared.calls.HostFrontCall.TheVariants as Call;

use crate::calls::{HostFrontReply, Wakes};
use crate::first_pass::TableTurn;
use crate::host_front::HostFront;
use rd_base::{Bytes, Status};
use rd_devices::Announce;
use rd_hello::EndFault;
use rd_host::{Act, HostCore, LentAct};
use rd_irp::Head;
use rd_pending::{CompleteNo, Completed, LiveNo};
use std::sync::Wait;

/// DeviceType of a drive and of a printer (MS-RDPEFS 2.2.1.3): those that a host serves.
const FILE_SYSTEM: u32 = 8;

const PRINT: u32 = 4;

const OBJECT_NAME_COLLISION: Status = Status(0xc000_0035);

const INSUFFICIENT_RESOURCES: Status = Status(0xc000_009a);

impl<'a, W: TableTurn, T: Wait> HostFront<'a, W, T> {
    /// A message is heard, where the channel is on.
    pub(crate) fn hear(&mut self, channel: u32, message: Bytes) -> HostFrontReply<W>
        ensures { HostFrontStep self.old (Call.Hear channel message) result self.new }
    {
        if !self.is_channel_on(channel) {
            return HostFrontReply::Over;
        }
        if self.is_full() {
            return HostFrontReply::Full(message);
        }
        self.hear_message(message)
    }

    /// A message is heard, and what follows from it is done.
    fn hear_message(&mut self, message: Bytes) -> HostFrontReply<W>
        requires few { self.old.unsent < 1024 }
        ensures { HearsMessage self.old message result self.new }
    {
        match self.hear_core(message) {
            Ok(act) => self.follow(act),
            Err(EndFault::Memory) => HostFrontReply::Memory,
            Err(fault) => HostFrontReply::Wrong(fault),
        }
    }

    /// The core hears a message.
    fn hear_core(&mut self, message: Bytes) -> Result<Act, EndFault>
        requires few { self.old.unsent < 1024 }
        ensures heard { CoreDoes self.old (hears message result) (most_following (is_opened self.old)) self.new }
        ensures ready { IfOk result (λ a. IsReadyFor a self.new.core) }
    {
        if !self.core.ready() {
            self.unsent += 2;
        }
        heard(&mut self.core, message)
    }

    /// What a message asks for is done.
    fn follow(&mut self, act: Act) -> HostFrontReply<W>
        requires ready { IsReadyFor act self.old.core }
        requires few { self.old.unsent < 2048 }
        ensures { Follows self.old act result self.new }
    {
        match act {
            Act::Nothing => self.done(Wakes::Nobody),
            Act::Complete { head, body } => self.complete(head, body),
            Act::Announced(devices) => {
                let found = self.admit_all(devices.as_slice());
                self.done_if(found)
            }
            Act::Removed(ids) => {
                self.forget_all(ids.as_slice());
                self.done(Wakes::Everybody)
            }
        }
    }

    /// The reply where everybody is to look, if memory was found.
    fn done_if(&self, found: bool) -> HostFrontReply<W>
        ensures { result ≡ done_if_found found self.now }
    {
        if found {
            self.done(Wakes::Everybody)
        } else {
            HostFrontReply::Memory
        }
    }

    /// A completion goes to the table.
    fn complete(&mut self, head: Head, body: Bytes) -> HostFrontReply<W>
        ensures { Completes self.old head body result self.new }
    {
        let completed = self.table.complete(self.rt, head, body);
        self.completed(completed)
    }

    /// What the table says to a completion.
    fn completed(&self, completed: Result<Completed, CompleteNo>) -> HostFrontReply<W>
        ensures { result ≡ completed_as completed self.now }
    {
        match completed {
            Ok(Completed::Gave(number)) => self.done(Wakes::Number(number)),
            Ok(Completed::Late(_)) => self.done(Wakes::Nobody),
            Err(CompleteNo::Stray { device, id }) => HostFrontReply::Stray { device, id },
            Err(CompleteNo::BodyBad(bad)) => HostFrontReply::BodyBad(bad),
            Err(CompleteNo::Memory) => HostFrontReply::Memory,
        }
    }

    /// Devices were announced, in order. False where no memory is found for one.
    fn admit_all(&mut self, devices: &[Announce]) -> bool
        requires ready { IsReadyFor (Asked.Announced devices.now) self.old.core }
        requires few { self.old.unsent < 2048 }
        ensures { AdmitsAll devices.now self.old result self.new }
    {
        for device in devices {
            if !self.admit(device) {
                return false;
            }
        }
        true
    }

    /// A device was announced: it begins a life, if it can, and is replied to. False where no memory is found.
    fn admit(&mut self, device: &Announce) -> bool
        requires ready { IsHostReady self.old.core }
        requires few { self.old.unsent < 4096 }
        ensures admitted { Admits self.old device.now result self.new }
        ensures ready { IsHostReady self.new.core }
        ensures more { self.new.unsent ≤ self.old.unsent + 1 }
    {
        match device.kind {
            FILE_SYSTEM | PRINT => self.begin_life(device.id),
            _ => self.reply(device.id, Status::NOT_SUPPORTED),
        }
    }

    /// A device begins its next life, if it can, and is replied to. False where no memory is found.
    fn begin_life(&mut self, device: u32) -> bool
        requires ready { IsHostReady self.old.core }
        requires few { self.old.unsent < 4096 }
        ensures begins { BeginsLife self.old device result self.new }
        ensures ready { IsHostReady self.new.core }
        ensures more { self.new.unsent ≤ self.old.unsent + 1 }
    {
        let life = self.table.live(self.rt, device);
        self.admit_by(device, life)
    }

    /// What follows from the table's answer to a device that was announced.
    fn admit_by(&mut self, device: u32, life: Result<u64, LiveNo>) -> bool
        requires ready { IsHostReady self.old.core }
        requires few { self.old.unsent < 4096 }
        ensures admitted { AdmitsBy self.old device life result self.new }
        ensures ready { IsHostReady self.new.core }
        ensures more { self.new.unsent ≤ self.old.unsent + 1 }
    {
        match life {
            Ok(_) => self.reply(device, Status::SUCCESS),
            Err(LiveNo::Already) => self.reply(device, OBJECT_NAME_COLLISION),
            Err(LiveNo::Memory) => false,
            Err(_) => self.reply(device, INSUFFICIENT_RESOURCES),
        }
    }

    /// A device is replied to. False where no memory is found.
    fn reply(&mut self, device: u32, code: Status) -> bool
        requires ready { IsHostReady self.old.core }
        requires few { self.old.unsent < 4096 }
        ensures replied { RepliesToDevice self.old device code result self.new }
        ensures ready { IsHostReady self.new.core }
        ensures more { self.new.unsent ≤ self.old.unsent + 1 }
    {
        match self.core.reply(device, code) {
            Ok(()) => {
                self.unsent += 1;
                true
            }
            Err(_) => false,
        }
    }

    /// Devices are gone, in order.
    fn forget_all(&mut self, devices: &[u32])
        ensures { ForgetsAll devices.now self.old self.new }
    {
        for device in devices {
            self.forget(*device);
        }
    }

    /// A device is gone.
    fn forget(&mut self, device: u32)
        ensures { Forgets self.old device self.new }
    {
        self.table.remove(self.rt, device);
    }
}

/// A core hears a message. Of a completion's bytes those after its head are left, in place.
fn heard(core: &mut HostCore, message: Bytes) -> Result<Act, EndFault>
    ensures step { HostStep core.old (hears message result) core.new }
    ensures ready { IfOk result (λ a. IsReadyFor a core.new) }
{
    let bytes = message.as_slice();
    are_bytes(bytes);
    match core.hear_lent(bytes) {
        Ok(LentAct::Nothing) => Ok(Act::Nothing),
        Ok(LentAct::Complete { head, body }) => {
            let count = body.len();
            Ok(Act::Complete {
                head,
                body: last_of(message, count),
            })
        }
        Ok(LentAct::Announced(devices)) => Ok(Act::Announced(devices)),
        Ok(LentAct::Removed(ids)) => Ok(Act::Removed(ids)),
        Err(fault) => Err(fault),
    }
}

/// The elements of a slice of bytes are bytes.
fn are_bytes(bytes: &[u8])
    ensures { AreBytes bytes.now }
{}

/// The last bytes of a message, moved to its beginning. It takes no memory.
fn last_of(message: Bytes, count: usize) -> Bytes
    requires { count ≤ length message }
    ensures { result ≡ drop (length message - count) message }
{
    let mut bytes = message.into_vec();
    let before = bytes.len() - count;
    bytes.drain(..before);
    Bytes::of(bytes)
}
