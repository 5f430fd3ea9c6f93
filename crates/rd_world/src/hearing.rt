//! What each end makes of the bytes that it reads, and what the applications make of what comes back.

ghost use Rattle.std.specs.Prelude.{◌≡◌, ◌≢◌, fold, false, OnOk};
ghost use Rattle.rd_client.specs.Core.{listed};
ghost use Rattle.rd_devices.specs.declared.list.Announce.{Announce};
ghost use Rattle.rd_pending.specs.Known.{IsKnown};
ghost use Rattle.rd_script.specs.Report.{IsCountableOutcome};
ghost use Rattle.rd_world.specs.Hearing.{all_take, announcing, answers_directly, client_handles_all, client_hears, given_handle, host_handles, host_handles_all, host_hears, is_device_told, putting, reported_outcome, takes_outcome, tries_kept};
ghost use Rattle.rd_world.specs.World.{most_messages};

use crate::kept_job::KeptJob;
use crate::world::World;
use rd_base::Status;
use rd_client::Heard;
use rd_drive::Job;
use rd_hello::EndFault;
use rd_irp::Body;
use rd_pending::{Handle, Taken};
use rd_script::Outcome;
use rd_station::{AnnounceNo, PutWhy};
use std::alloc::AllocError;

const NO_SUCH_DEVICE: Status = Status(0xc000_000e);

const INSUFFICIENT_RESOURCES: Status = Status(0xc000_009a);

/// The most requests that a client hears on a channel.
const MAX_ASKED: u64 = 1 << 40;

impl<'s> World<'s> {
    /// A request is answered without its device.
    fn answer_directly(&mut self, device: u32, job: &Job, status: Status) -> Result<(), AllocError>
        requires { status.0 ≢ 0 }
        ensures answered { OnOk result (self.new ≡ answers_directly self.old device job.now status) }
        ensures way { self.new.to_client ≡ self.old.to_client }
    {
        if !self.client.may_be_asked() {
            return Err(AllocError);
        }
        self.client.direct(job, device, status)
    }

    /// A job that was heard goes to its station, or is answered without its device, or is kept back.
    fn put(&mut self, device: u32, job: Job) -> Result<(), AllocError>
        ensures came { OnOk result (self.new ≡ putting self.old device job) }
        ensures way { self.new.to_client ≡ self.old.to_client }
    {
        let Some(place) = self.stations.place_of(device) else {
            return self.answer_directly(device, &job, NO_SUCH_DEVICE);
        };
        if !self.stations.may_put(place, job.key) {
            return Err(AllocError);
        }
        let key = job.key;
        let Err(no) = self.stations.put(place, job) else {
            self.deeds = self.deeds.becoming(&(device, key));
            return Ok(());
        };
        match no.why {
            PutWhy::Gone => {
                let status = if self.is_told(device) {
                    INSUFFICIENT_RESOURCES
                } else {
                    NO_SUCH_DEVICE
                };
                self.answer_directly(device, &no.job, status)
            }
            PutWhy::Full { .. } => {
                self.kept = Some(KeptJob {
                    device,
                    job: no.job,
                });
                Ok(())
            }
            PutWhy::Worn { .. } => self.answer_directly(device, &no.job, INSUFFICIENT_RESOURCES),
            PutWhy::Duplicate(_) => Ok(()),
            PutWhy::Memory => Err(AllocError),
        }
    }

    /// Whether the host was last told that a device is there.
    fn is_told(&self, device: u32) -> bool
        ensures { result ≡ is_device_told self.now device }
    {
        self.client.ready() && self.client.has_device(device) && !self.client.is_gone(device)
    }

    /// The host is told of a device from now on, so its station is live.
    pub(crate) fn announce(&mut self, device: u32) -> Result<(), AllocError>
        ensures announced { OnOk result (self.new ≡ announcing self.old device) }
        ensures way { self.new.to_client ≡ self.old.to_client }
    {
        let Some(place) = self.stations.place_of(device) else {
            return Ok(());
        };
        match self.stations.announce(place) {
            Err(AnnounceNo::Memory) => Err(AllocError),
            _ => Ok(()),
        }
    }

    /// The client became ready: the devices that it lists are announced to their stations.
    fn announce_listed(&mut self) -> Result<(), AllocError>
        ensures announced { OnOk result (self.new ≡ fold (λ w (a : Announce). announcing w a.id) self.old (listed self.old.client)) }
        ensures way { self.new.to_client ≡ self.old.to_client }
    {
        for place in 0..self.client.len() {
            if let Some(device) = self.client.listed_at(place) {
                self.announce(device)?;
            }
        }
        Ok(())
    }

    /// The client hears a message.
    pub(crate) fn client_hear(&mut self, message: &[u8]) -> Result<(), AllocError>
        ensures heard { OnOk result (self.new ≡ client_hears self.old message.now) }
        ensures way { self.new.to_client ≡ self.old.to_client }
    {
        if self.client.asked() >= MAX_ASKED {
            return Err(AllocError);
        }
        let was_ready = self.client.ready();
        self.deeds = self.deeds.becoming(&(self.channels, message));
        let heard = match self.client.hear(message) {
            Ok(heard) => heard,
            Err(EndFault::Memory) => return Err(AllocError),
            Err(_) => return Ok(()),
        };
        match heard {
            Heard::Nothing => {
                if !was_ready && self.client.ready() {
                    return self.announce_listed();
                }
                Ok(())
            }
            Heard::Ask { device, job } => self.put(device, job),
            Heard::Print(notice) => self.cache.hear(&notice),
        }
    }

    /// The client handles what it read, message by message, until none is whole, or it keeps a job back.
    pub(crate) fn client_handle_all(&mut self) -> Result<(), AllocError>
        ensures { OnOk result (self.new ≡ client_handles_all self.old) }
    {
        if self.to_client.has_ended() {
            return Err(AllocError);
        }
        'handling: while self.kept.is_none() {
            let Some(message) = self.to_client.handle()? else {
                return Ok(());
            };
            self.client_hear(message.as_slice())?;
        }
        Ok(())
    }

    /// A job of a device that was kept back is tried again, and where it has gone what was read after it is handled.
    pub(crate) fn try_kept(&mut self, device: u32) -> Result<(), AllocError>
        ensures { OnOk result (self.new ≡ tries_kept self.old device) }
    {
        match self.kept.take() {
            Some(kept) if kept.device == device => {
                self.put(kept.device, kept.job)?;
                self.client_handle_all()
            }
            other => {
                self.kept = other;
                Ok(())
            }
        }
    }

    /// The host hears a message.
    fn host_hear(&mut self, message: &[u8]) -> Result<(), AllocError>
        ensures heard { OnOk result (self.new ≡ host_hears self.old message.now) }
        ensures way { self.new.to_host ≡ self.old.to_host }
    {
        self.deeds = self.deeds.becoming(&(self.channels, message));
        self.side.hear(message)
    }

    /// The host handles all that it read, and the applications take what came of it.
    pub(crate) fn host_handle_all(&mut self) -> Result<(), AllocError>
        ensures { OnOk result (self.new ≡ host_handles_all self.old) }
    {
        if self.to_host.has_ended() {
            return Err(AllocError);
        }
        self.host_handle()?;
        self.all_take()
    }

    /// The host handles what it read, message by message, until none is whole.
    fn host_handle(&mut self) -> Result<(), AllocError>
        requires { self.old.to_host.ended ≡ false }
        ensures { OnOk result (self.new ≡ host_handles (most_messages self.old.to_host) self.old) }
    {
        'handling: while let Some(message) = self.to_host.handle()? {
            self.host_hear(message.as_slice())?;
        }
        Ok(())
    }

    /// Each application takes the outcome that it awaits, if it is known.
    pub(crate) fn all_take(&mut self) -> Result<(), AllocError>
        ensures { OnOk result (self.new ≡ all_take self.old) }
    {
        let mut awaiting = self.applications.awaiting().copy();
        for _taken in 0..awaiting.count() {
            let place = awaiting.pick(0);
            awaiting.mark(place, false);
            self.take_outcome(place + 1)?;
        }
        Ok(())
    }

    /// An application takes the outcome that it awaits, if it is known.
    fn take_outcome(&mut self, a: u32) -> Result<(), AllocError>
        ensures { OnOk result (self.new ≡ takes_outcome self.old a) }
    {
        let Some(number) = self.applications.awaits(a) else {
            return Ok(());
        };
        let Ok(taken) = self.side.take(number) else {
            return Ok(());
        };
        self.deeds = self.deeds.becoming(&number);
        let given = given_handle(&taken);
        self.applications
            .end_line(a, reported_outcome(taken), given)
    }
}

/// What an open gives its handle: the file id of a device in a life.
fn given_handle(taken: &Taken) -> Option<Handle>
    ensures { result ≡ given_handle taken.now }
{
    let rd_pending::Outcome::Done(reply) = &taken.outcome else {
        return None;
    };
    match reply.body {
        Body::Created { file, .. } if reply.status == Status::SUCCESS => Some(Handle {
            device: taken.device,
            life: taken.life,
            file,
        }),
        _ => None,
    }
}

/// The outcome of a request, as that of its line.
fn reported_outcome(taken: Taken) -> Outcome
    requires { IsKnown taken.outcome }
    ensures outcome { result ≡ reported_outcome taken.outcome }
    ensures countable { IsCountableOutcome result }
{
    match taken.outcome {
        rd_pending::Outcome::Done(reply) => Outcome::Done(reply),
        rd_pending::Outcome::Lost(cause) => Outcome::Lost(cause),
    }
}
