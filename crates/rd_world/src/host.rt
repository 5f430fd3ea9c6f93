//! A host: its end of the channel, and its table.

ghost use Rattle.std.specs.Prelude.{◌≡◌, ◌≢◌, ◌↔◌, fold, IsTrue, IfErr, IfOk, IfSome, OnOk, Err, is_some};
ghost use Rattle.rd_chunk.specs.Carrier.{IsMessage};
ghost use Rattle.rd_host.specs.Core.{IsHostReady, MayTell};
ghost use Rattle.rd_pending.specs.Known.{IsKnown};
ghost use Rattle.rd_pending.specs.Table.{MayBegin, MaySubmit, TableStep, complete, submits, takes};
ghost use Rattle.rd_pending.specs.declared.calls.LiveNo.TheVariants as no;
ghost use Rattle.rd_deeds.specs.Host.{admits, begins_on, ends_channel, forgets, hears, live_code, new_side, next_message, side_sends, tells_of};

use rd_base::{Bytes, Status};
use rd_devices::Announce;
use rd_hello::EndFault;
use rd_host::{HostCore, LentAct};
use rd_irp::{Head, Op};
use rd_pending::{CompleteNo, LiveNo, Pending, SubmitNo, TakeNo, Taken, Target};
use rd_printer::Notice;
use std::alloc::{AllocError, Global};
use std::marker::Model;

/// DeviceType of a drive and of a printer (MS-RDPEFS 2.2.1.3): those that a host serves.
const FILE_SYSTEM: u32 = 8;

const PRINT: u32 = 4;

const OBJECT_NAME_COLLISION: Status = Status(0xc000_0035);

const INSUFFICIENT_RESOURCES: Status = Status(0xc000_009a);

/// A host: its end of the channel and its table. Contracts see a `HostSide`.
#[derive(Drop)]
pub struct Host {
    core: HostCore,
    table: Pending,
}

impl Model for Host {
    ghost use Rattle.rd_deeds.specs.Host.{HostSide};

    ghost Value = { HostSide };

    ghost view = { λ h. record { core = h.core; table = h.table } };
}

impl Host {
    /// A host with this ClientId, before its first channel.
    pub fn new(alloc: Global, client: u32) -> Result<Self, AllocError>
        ensures { IfOk result (λ host. host ≡ new_side client) }
    {
        Ok(Host {
            core: HostCore::new(alloc, client),
            table: Pending::new(alloc)?,
        })
    }

    /// Whether a channel is open.
    pub fn is_open(&self) -> bool
        ensures { result ≡ is_some self.now.table.channel }
    {
        self.table.is_open()
    }

    /// Whether the opening of the channel is over.
    pub fn is_ready(&self) -> bool
        ensures { IsTrue result ↔ IsHostReady self.now.core }
    {
        self.core.ready()
    }

    /// Whether a channel may begin (`begin`): it is above every channel that began.
    pub fn may_begin(&self, channel: u32) -> bool
        ensures { IsTrue result ↔ MayBegin self.now.table channel }
    {
        self.table.may_begin(channel)
    }

    /// A channel begins, where none is open.
    pub fn begin(&mut self, channel: u32) -> Result<(), AllocError>
        requires { MayBegin self.old.table channel }
        ensures { OnOk result (self.new ≡ begins_on self.old channel) }
    {
        self.core.begin()?;
        self.table.begin(channel);
        Ok(())
    }

    /// The channel ends, and nothing is sent on it any more. It takes no memory.
    pub fn end(&mut self)
        ensures { self.new ≡ ends_channel self.old }
    {
        while self.core.outbox().is_some() {}
        self.table.drop_channel();
    }

    /// The client is told of a printer.
    pub fn tell(&mut self, notice: &Notice) -> Result<(), AllocError>
        requires { MayTell self.old.core notice.now }
        ensures { OnOk result (self.new ≡ tells_of self.old notice.now) }
    {
        self.core.notice(notice)
    }

    /// Whether a message waits to be sent.
    pub fn has_message(&self) -> bool
        ensures { result ≡ is_some (next_message self.now) }
    {
        self.core.has_message() || self.table.has_message()
    }

    /// The message that is sent next, if one waits: the end's own come before requests.
    pub fn send(&mut self) -> Option<Bytes>
        ensures message { result ≡ next_message self.old }
        ensures fits { IfSome result IsMessage }
        ensures sent { self.new ≡ side_sends self.old }
    {
        match self.core.outbox() {
            Some(message) => Some(message),
            None => self.table.outbox(),
        }
    }

    /// A request that may be submitted is accepted from an application, or refused.
    pub fn submit(&mut self, app: u32, target: Target, op: Op) -> Result<u64, SubmitNo>
        requires { MaySubmit target op }
        ensures step { TableStep self.old.table (submits app target op result) self.new.table }
        ensures core { self.new.core ≡ self.old.core }
    {
        self.table.submit(app, target, op)
    }

    /// The outcome of a number is handed out, once.
    pub fn take(&mut self, number: u64) -> Result<Taken, TakeNo>
        ensures step { TableStep self.old.table (takes number result) self.new.table }
        ensures known { IfOk result (λ taken. IsKnown taken.outcome) }
        ensures core { self.new.core ≡ self.old.core }
    {
        self.table.take(number)
    }

    /// Hears a message of the client: devices that are announced begin lives and are replied to, those that are removed end theirs, and completions go to
    /// the table. After a message that is wrong nothing changes until a channel begins.
    pub fn hear(&mut self, message: &[u8]) -> Result<(), AllocError>
        ensures { OnOk result (self.new ≡ hears self.old message.now) }
    {
        let act = match self.core.hear_lent(message) {
            Ok(act) => act,
            Err(EndFault::Memory) => return Err(AllocError),
            Err(_) => return Ok(()),
        };
        match act {
            LentAct::Nothing => Ok(()),
            LentAct::Complete { head, body } => self.complete(head, body),
            LentAct::Announced(devices) => self.admit_all(devices.as_slice()),
            LentAct::Removed(ids) => {
                self.forget_all(ids.as_slice());
                Ok(())
            }
        }
    }

    /// A completion goes to the table. One that it doesn't take changes nothing.
    fn complete(&mut self, head: Head, body: &[u8]) -> Result<(), AllocError>
        ensures { OnOk result (self.new ≡ record self.old { table = (complete self.old.table head body.now).0 }) }
    {
        match self.table.complete(head, body) {
            Err(CompleteNo::Memory) => Err(AllocError),
            _ => Ok(()),
        }
    }

    /// Devices were announced, in order.
    #[tactic(auto, using(std::proofs::lemmas::List::Sums::fold_more))]
    fn admit_all(&mut self, devices: &[Announce]) -> Result<(), AllocError>
        requires { IsHostReady self.old.core }
        ensures { OnOk result (self.new ≡ fold admits self.old devices.now) }
    {
        for device in devices {
            self.admit(device)?;
        }
        Ok(())
    }

    /// A device was announced: it begins a life, if it can, and the client is told whether it did.
    fn admit(&mut self, device: &Announce) -> Result<(), AllocError>
        requires { IsHostReady self.old.core }
        ensures admitted { OnOk result (self.new ≡ admits self.old device.now) }
        ensures ready { OnOk result (IsHostReady self.new.core) }
    {
        let code = match device.kind {
            FILE_SYSTEM | PRINT => live_code(self.table.live(device.id))?,
            _ => Status::NOT_SUPPORTED,
        };
        self.core.reply(device.id, code)
    }

    /// Devices are gone, in order. It takes no memory.
    #[tactic(auto, using(std::proofs::lemmas::List::Sums::fold_more))]
    fn forget_all(&mut self, devices: &[u32])
        ensures { self.new ≡ fold forgets self.old devices.now }
    {
        for device in devices {
            self.table.remove(*device);
        }
    }
}

/// The code that tells whether a device began a life.
fn live_code(life: Result<u64, LiveNo>) -> Result<Status, AllocError>
    ensures code { IfOk result (λ code. code ≡ live_code life) }
    ensures wanting { IfErr result (λ wanting. life ≡ Err no.Memory) }
    ensures other { IfOk result (λ code. life ≢ Err no.Memory) }
{
    match life {
        Ok(_) => Ok(Status::SUCCESS),
        Err(LiveNo::Already) => Ok(OBJECT_NAME_COLLISION),
        Err(LiveNo::Memory) => Err(AllocError),
        Err(_) => Ok(INSUFFICIENT_RESOURCES),
    }
}
