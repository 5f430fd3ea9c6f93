//! What the reader brings: messages of the host, and once more the job that is kept back.

ghost use Rattle.std.specs.Prelude.{◌≡◌, ◌≢◌, ◌<◌, length, slice_get, true, IfSome};
ghost use Rattle.rd_client.specs.Core.{MayHear, hears, may_be_asked};
ghost use Rattle.rd_front.specs.Front.{Announces, AnnouncesOne, AnswersDirectly, ClientDoes, Each, HeardBy, FrontStep, FrontHears, IsPutReply, LearnsNotice, OpeningEnds, PutBy, PutsAt, Puts, RefusedPut, gone_status, is_announced, is_front_ready, may_hear, most_written, desk_place};
ghost use Rattle.rd_front.specs.declared.calls.FrontCall.TheVariants as Call;

use crate::calls::FrontReply;
use crate::front::Front;
use crate::kept_job::KeptJob;
use rd_base::Status;
use rd_client::Heard;
use rd_desk::{DeskCall, DeskReply};
use rd_drive::Job;
use rd_folder::Folder;
use rd_hello::EndFault;
use rd_printer::Notice;
use rd_station::{AnnounceNo, PutNo, PutWhy};
use std::sync::Wait;

const NO_SUCH_DEVICE: Status = Status(0xc000_000e);

const INSUFFICIENT_RESOURCES: Status = Status(0xc000_009a);

/// The most requests that a client hears on a channel.
const MAX_ASKED: u64 = 1 << 40;

impl<'a, T: Wait, F: Folder + Drop> Front<'a, T, F> {
    /// A message is heard, where one may be.
    pub(crate) fn hear(&mut self, message: &[u8]) -> FrontReply
        ensures { FrontStep self.old (Call.Hear message.now) result self.new }
    {
        if !self.may_hear() {
            return FrontReply::Refused;
        }
        if self.is_full() {
            return FrontReply::Full;
        }
        self.hear_message(message)
    }

    /// Whether a message may be heard.
    fn may_hear(&self) -> bool
        ensures { result ≡ may_hear self.now }
    {
        self.on && self.kept.is_none() && self.client.asked() < MAX_ASKED
    }

    /// A message is heard, and what follows from it is done.
    fn hear_message(&mut self, message: &[u8]) -> FrontReply
        requires may { MayHear self.old.client }
        requires few { self.old.unsent < 1024 }
        ensures { FrontHears self.old message.now result self.new }
    {
        let ready = self.is_ready();
        match self.hear_core(message) {
            Err(EndFault::Memory) => FrontReply::Memory,
            Err(fault) => FrontReply::Wrong(fault),
            Ok(heard) => self.follow(ready, heard),
        }
    }

    /// The core hears a message.
    fn hear_core(&mut self, message: &[u8]) -> Result<Heard, EndFault>
        requires may { MayHear self.old.client }
        requires few { self.old.unsent < 1024 }
        ensures { ClientDoes self.old (hears message.now result) (most_written (is_front_ready self.old)) self.new }
    {
        if !self.is_ready() {
            self.unsent += 3;
        }
        self.client.hear(message)
    }

    /// What follows from a message, by whether the opening was over before.
    fn follow(&mut self, ready: bool, heard: Heard) -> FrontReply
        requires few { self.old.unsent < 2048 }
        ensures { HeardBy ready self.old heard result self.new }
    {
        match heard {
            Heard::Nothing => {
                let opens = !ready && self.is_ready();
                self.open(opens)
            }
            Heard::Ask { device, job } => self.put(device, job),
            Heard::Print(notice) => self.learn(&notice),
        }
    }

    /// Where the opening is over, the devices that aren't removed are announced to their desks.
    fn open(&mut self, opens: bool) -> FrontReply
        ensures { OpeningEnds opens self.old result self.new }
    {
        if opens && !self.announce_listed() {
            return FrontReply::Memory;
        }
        self.done(None)
    }

    /// The host tells of a printer.
    fn learn(&mut self, notice: &Notice) -> FrontReply
        ensures { LearnsNotice self.old notice.now result self.new }
    {
        match self.cache.hear(notice) {
            Ok(()) => self.done(None),
            Err(_) => FrontReply::Memory,
        }
    }

    /// The devices that aren't removed are announced to their desks. False where no memory is found for one.
    fn announce_listed(&mut self) -> bool
        ensures { Each AnnouncesOne self.old.client.devices self.old result self.new }
    {
        for place in 0..self.client.len() {
            if !self.announce_at(place) {
                return false;
            }
        }
        true
    }

    /// The device at a place of the client's list is announced, unless it is removed.
    fn announce_at(&mut self, place: usize) -> bool
        requires { place < length self.old.client.devices }
        ensures announced { IfSome (slice_get self.old.client.devices place) (λ d. AnnouncesOne d self.old result self.new) }
        ensures client { self.new.client ≡ self.old.client }
    {
        match self.client.listed_at(place) {
            Some(device) => self.announce(device),
            None => true,
        }
    }

    /// The host is told of a device from now on. False where its desk found no memory.
    pub(crate) fn announce(&mut self, device: u32) -> bool
        ensures { Announces self.old (desk_place self.old.desks device) result self.new }
    {
        let Some(place) = self.place_of(device) else {
            return true;
        };
        let reply = self.call_desk(place, DeskCall::Announce);
        is_announced(&reply)
    }

    /// The job that is kept back is tried once more, where a channel is on.
    pub(crate) fn retry(&mut self) -> FrontReply
        ensures { FrontStep self.old Call.Retry result self.new }
    {
        if !self.on {
            return FrontReply::Refused;
        }
        if self.is_full() {
            return FrontReply::Full;
        }
        match self.kept.take() {
            Some(KeptJob { device, job }) => self.put(device, job),
            None => self.done(None),
        }
    }

    /// A job goes to its desk, or is answered without its device where there is none.
    fn put(&mut self, device: u32, job: Job) -> FrontReply
        requires few { self.old.unsent < 2048 }
        ensures { Puts self.old device job result self.new }
    {
        if !self.client.may_be_asked() {
            return FrontReply::Unfit;
        }
        match self.place_of(device) {
            Some(place) => self.put_at(device, job, place),
            None => self.answer_directly(device, &job, NO_SUCH_DEVICE),
        }
    }

    /// A job goes to the desk at a place.
    fn put_at(&mut self, device: u32, job: Job, place: usize) -> FrontReply
        requires asked { may_be_asked self.old.client.core.shake ≡ true }
        requires few { self.old.unsent < 2048 }
        requires there { place < length self.old.desks }
        ensures { PutsAt self.old device job place result self.new }
    {
        let reply = self.call_desk(place, DeskCall::Put(job));
        self.put_by(device, place, reply)
    }

    /// What follows from a desk's reply to a job.
    fn put_by(&mut self, device: u32, place: usize, reply: DeskReply) -> FrontReply
        requires asked { may_be_asked self.old.client.core.shake ≡ true }
        requires few { self.old.unsent < 2048 }
        requires reply { IsPutReply reply }
        ensures { PutBy self.old device place reply result self.new }
    {
        match reply {
            DeskReply::Put(Ok(())) => self.done(Some(place)),
            DeskReply::Put(Err(no)) => self.refused_put(device, no),
            DeskReply::Unfit(_) => FrontReply::Unfit,
            _ => unreachable!(),
        }
    }

    /// What follows where a job doesn't come to its desk.
    fn refused_put(&mut self, device: u32, no: PutNo) -> FrontReply
        requires asked { may_be_asked self.old.client.core.shake ≡ true }
        requires few { self.old.unsent < 2048 }
        ensures { RefusedPut self.old device no.job no.why result self.new }
    {
        match no.why {
            PutWhy::Gone => {
                let status = self.gone_status(device);
                self.answer_directly(device, &no.job, status)
            }
            PutWhy::Duplicate(key) => {
                self.cut_channel();
                FrontReply::Duplicate(key)
            }
            PutWhy::Full { .. } => {
                self.kept = Some(KeptJob {
                    device,
                    job: no.job,
                });
                FrontReply::Kept
            }
            PutWhy::Worn { .. } => self.answer_directly(device, &no.job, INSUFFICIENT_RESOURCES),
            PutWhy::Memory => FrontReply::Memory,
        }
    }

    /// What a request to a device is answered with whose station isn't live.
    fn gone_status(&self, device: u32) -> Status
        ensures status { result ≡ gone_status self.now device }
        ensures fault { result.0 ≢ 0 }
    {
        if self.is_told(device) {
            INSUFFICIENT_RESOURCES
        } else {
            NO_SUCH_DEVICE
        }
    }

    /// A request is answered without its device.
    fn answer_directly(&mut self, device: u32, job: &Job, status: Status) -> FrontReply
        requires asked { may_be_asked self.old.client.core.shake ≡ true }
        requires few { self.old.unsent < 2048 }
        requires fault { status.0 ≢ 0 }
        ensures { AnswersDirectly self.old device job.now status result self.new }
    {
        match self.client.direct(job, device, status) {
            Ok(()) => {
                self.unsent += 1;
                self.done(None)
            }
            Err(_) => FrontReply::Memory,
        }
    }
}

/// Whether memory was found for what a desk replied.
fn is_announced(reply: &DeskReply) -> bool
    ensures { result ≡ is_announced reply.now }
{
    match reply {
        DeskReply::Announced(Err(AnnounceNo::Memory)) => false,
        _ => true,
    }
}
