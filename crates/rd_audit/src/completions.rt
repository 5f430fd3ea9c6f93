//! Whether each completion of a recording belongs to its request.

ghost use Rattle.std.specs.Prelude.{◌≡◌, ℕ, ◌+◌, ◌==◌, if◌then◌else◌, false, List, [], ◌∷◌, Some, None, Ok, IfOk, OnOk, slice_get};
ghost use Rattle.std.specs.Option.{option_map_or};
ghost use Rattle.rd_recorded.specs.Channels.{HeardChannel as Heard, HeardRequest as Asked, Saying as Said, completes};
ghost use Rattle.rd_audit.specs.declared.course.Course.{Course};
ghost use Rattle.rd_audit.specs.declared.course.Handed.{Handed};
ghost use Rattle.rd_audit.specs.declared.verdict.AuditWhy.TheVariants.{Order};
ghost use Rattle.rd_audit.specs.Completions.{first_wrong, first_wrong_after, is_misplaced, may_refuse, wrong_refusal, wrong_reply, wrong_said};
ghost use Rattle.rd_audit.specs.Kept.{KeepsAccount};
ghost use Rattle.rd_audit.specs.Replayed.{Account};
ghost use Rattle.rd_audit.specs.Said.{status_in};
ghost use Rattle.rd_audit.specs.Telling.{HasTold, CompletesAt, KeepsChannel, nothing_told, told_announced, told_asked, told_before, told_in, told_kept, told_removed, with_told};

use crate::course::{Course, Given, Handed};
use crate::journals::Replayed;
use crate::status::{CANCELLED, NO_SUCH_DEVICE};
use crate::verdict::{AuditWhy, Verdict};
use rd_base::Status;
use rd_drive::status::INSUFFICIENT_RESOURCES;
use rd_irp::read_head;
use rd_recorded::{ClientSaid, HeardChannel, HeardRequest, Saying};
use std::alloc::{AllocError, Global};
use std::collections::BTreeMap;

/// The most entries of a journal before which no request is refused for it.
const WORN_ENTRIES: u64 = 16_776_957;

/// The first completion that doesn't belong to its request, if there is one.
pub fn first_wrong(
    alloc: Global,
    channels: &[HeardChannel<'_>],
    replayed: &Replayed,
) -> Result<Option<Verdict>, AllocError>
    ensures { (account : Account) → KeepsAccount channels.now account replayed.now → IfOk result (λ found. found ≡ first_wrong account 1 channels.now) }
{
    for place in 0..channels.len() {
        let found = first_wrong_on(alloc, &channels[place], place, replayed)?;
        if found.is_some() {
            return Ok(found);
        }
    }
    Ok(None)
}

/// The same of the channel at a place.
fn first_wrong_on(
    alloc: Global,
    channel: &HeardChannel<'_>,
    place: usize,
    replayed: &Replayed,
) -> Result<Option<Verdict>, AllocError>
    ensures { (account : Account) → KeepsChannel account place channel.now replayed.now
        → IfOk result (λ found. found ≡ first_wrong_after account (place + 1) channel.now.requests [] channel.now.sayings) }
{
    let mut telling = Telling::new(alloc, channel, place, replayed)?;
    for saying in &channel.sayings {
        if let Some(why) = telling.hear(saying, channel, place, replayed)? {
            let entry = saying.entry;
            return Ok(Some(Verdict::Entry { entry, why }));
        }
    }
    Ok(None)
}

/// The status of a completion.
fn status_of(message: &[u8]) -> Status
    ensures { result.0 ≡ status_in message.now }
{
    match read_head(message) {
        Ok(head) => head.status,
        Err(_) => Status::SUCCESS,
    }
}

/// A completion of a request.
#[derive(Clone, Copy)]
struct Completion {
    /// The entry of the recording that ended it.
    entry: u64,
    /// The index of its request.
    index: usize,
    status: Status,
}

/// What a channel tells of a device, as far as it was gone over.
#[derive(Drop)]
struct Told {
    /// Whether it was said last that the device is gone, or nothing was said.
    gone: bool,
    /// The entry of the recording that ended the last removal.
    removed: u64,
    /// The entry of the journal that sent the last completion.
    sent: u64,
    /// The requests that never came to the device, and how many of them are completed.
    unserved: Vec<usize>,
    served: usize,
    /// The last request that came.
    came: Option<usize>,
}

/// What a channel tells of its devices.
#[derive(Drop)]
struct Telling {
    alloc: Global,
    devices: BTreeMap<u32, Told>,
}

impl Telling {
    /// Before the channel at a place tells anything.
    fn new(
        alloc: Global,
        channel: &HeardChannel<'_>,
        place: usize,
        replayed: &Replayed,
    ) -> Result<Telling, AllocError>
        ensures { (account : Account) → KeepsChannel account place channel.now replayed.now → IfOk result (HasTold account (place + 1) channel.now.requests []) }
    {
        let mut telling = Telling {
            alloc,
            devices: BTreeMap::new(alloc),
        };
        for index in 0..channel.requests.len() {
            let device = channel.requests[index].device;
            let mut told = telling.take_out(device);
            told.ask(index, replayed.courses.at(place, index))?;
            telling.put(device, told)?;
        }
        Ok(telling)
    }

    /// TakesItem out what is told of a device.
    fn take_out(&mut self, device: u32) -> Told
        ensures told { told_kept result ≡ told_in self.old device }
        ensures others { (d : ℕ) → (device == d) ≡ false → told_in self.new d ≡ told_in self.old d }
    {
        match self.devices.remove(&device) {
            Some(told) => told,
            None => Told::new(self.alloc),
        }
    }

    /// Keeps what is told of a device.
    fn put(&mut self, device: u32, told: Told) -> Result<(), AllocError>
        ensures { OnOk result ((d : ℕ) → told_in self.new d ≡ with_told device (told_kept told) (told_in self.old) d) }
    {
        self.devices.insert(device, told)?;
        Ok(())
    }

    /// The client says something more: why it doesn't belong, if it doesn't.
    fn hear(
        &mut self,
        saying: &Saying<'_>,
        channel: &HeardChannel<'_>,
        place: usize,
        replayed: &Replayed,
    ) -> Result<Option<AuditWhy>, AllocError>
        ensures found { (account : Account) (before : List Said) → KeepsChannel account place channel.now replayed.now → HasTold account (place + 1) channel.now.requests before self.old
            → IfOk result (λ found. found ≡ wrong_said account (place + 1) channel.now.requests saying.now.entry before saying.now.said) }
        ensures heard { (account : Account) (before : List Said) → KeepsChannel account place channel.now replayed.now → HasTold account (place + 1) channel.now.requests before self.old
            → result ≡ Ok None → HasTold account (place + 1) channel.now.requests (saying.now ∷ before) self.new }
    {
        match &saying.said {
            ClientSaid::Announces(ids) => {
                self.announce(ids.as_slice())?;
                Ok(None)
            }
            ClientSaid::Removes(ids) => {
                self.remove(ids.as_slice(), saying.entry)?;
                Ok(None)
            }
            ClientSaid::Completes(index, message) => {
                let Some(index) = *index else {
                    return Ok(Some(AuditWhy::Stray));
                };
                let Some(asked) = channel.requests.get(index) else {
                    return Ok(Some(AuditWhy::Stray));
                };
                let completion = Completion {
                    entry: saying.entry,
                    index,
                    status: status_of(message.as_slice()),
                };
                self.complete(asked, place, completion, replayed)
            }
        }
    }

    /// Devices are there.
    fn announce(&mut self, ids: &[u32]) -> Result<(), AllocError>
        ensures { OnOk result ((d : ℕ) → told_in self.new d ≡ told_announced ids.now (told_in self.old d) d) }
    {
        for id in ids {
            let mut told = self.take_out(*id);
            told.gone = false;
            self.put(*id, told)?;
        }
        Ok(())
    }

    /// Devices are gone, by a message that this entry ended.
    fn remove(&mut self, ids: &[u32], entry: u64) -> Result<(), AllocError>
        ensures { OnOk result ((d : ℕ) → told_in self.new d ≡ told_removed ids.now entry (told_in self.old d) d) }
    {
        for id in ids {
            let mut told = self.take_out(*id);
            told.gone = true;
            told.removed = entry;
            self.put(*id, told)?;
        }
        Ok(())
    }

    /// A request of the channel at a place is completed: why its completion doesn't belong, if it doesn't.
    fn complete(
        &mut self,
        asked: &HeardRequest<'_>,
        place: usize,
        completion: Completion,
        replayed: &Replayed,
    ) -> Result<Option<AuditWhy>, AllocError>
        ensures found { (account : Account) (c : Heard) (before : List Said) (message : List ℕ) → CompletesAt account place c asked.now completion message replayed.now
            → HasTold account (place + 1) c.requests before self.old
            → IfOk result (λ found. found ≡ wrong_said account (place + 1) c.requests completion.entry before (completes (Some completion.index) message)) }
        ensures heard { (account : Account) (c : Heard) (before : List Said) (message : List ℕ) → CompletesAt account place c asked.now completion message replayed.now
            → HasTold account (place + 1) c.requests before self.old → result ≡ Ok None
            → HasTold account (place + 1) c.requests (record { entry = completion.entry; said = completes (Some completion.index) message } ∷ before) self.new }
    {
        let mut told = self.take_out(asked.device);
        let wrong = told.complete(asked, place, completion, replayed);
        self.put(asked.device, told)?;
        Ok(wrong)
    }
}

impl Told {
    /// Of a device of which nothing is told.
    fn new(alloc: Global) -> Told
        ensures { told_kept result ≡ nothing_told }
    {
        Told {
            gone: true,
            removed: 0,
            sent: 0,
            unserved: Vec::new(alloc),
            served: 0,
            came: None,
        }
    }

    /// There is a request to the device, with this index, of which this came.
    fn ask(&mut self, index: usize, course: Option<Course>) -> Result<(), AllocError>
        ensures { (came : Course) → course ≡ Some came → OnOk result (told_kept self.new ≡ told_asked index came (told_kept self.old)) }
    {
        match course {
            Some(course) if course.came() => self.came = Some(index),
            _ => self.unserved.push(index)?,
        }
        Ok(())
    }

    /// A request of the channel at a place is completed: why its completion doesn't belong, if it doesn't.
    fn complete(
        &mut self,
        asked: &HeardRequest<'_>,
        place: usize,
        completion: Completion,
        replayed: &Replayed,
    ) -> Option<AuditWhy>
        ensures found { (account : Account) (c : Heard) (before : List Said) (message : List ℕ) → CompletesAt account place c asked.now completion message replayed.now
            → told_kept self.old ≡ told_before account (place + 1) c.requests before asked.now.device
            → result ≡ wrong_said account (place + 1) c.requests completion.entry before (completes (Some completion.index) message) }
        ensures heard { (account : Account) (c : Heard) (before : List Said) (message : List ℕ) → CompletesAt account place c asked.now completion message replayed.now
            → told_kept self.old ≡ told_before account (place + 1) c.requests before asked.now.device → result ≡ None
            → told_kept self.new ≡ told_before account (place + 1) c.requests (record { entry = completion.entry; said = completes (Some completion.index) message } ∷ before) asked.now.device }
    {
        match replayed.courses.at(place, completion.index) {
            Some(course) if course.came() => self.reply(asked, completion, course),
            _ => {
                let count = replayed.counts.get(&asked.device).copied().unwrap_or(0);
                self.refuse(completion, count)
            }
        }
    }

    /// A request that came is completed: why its completion doesn't belong, if it doesn't.
    fn reply(
        &mut self,
        asked: &HeardRequest<'_>,
        completion: Completion,
        course: Course,
    ) -> Option<AuditWhy>
        ensures found { (account : Account) (number : ℕ) (requests : List Asked) (before : List Said) (message : List ℕ)
            → told_kept self.old ≡ told_before account number requests before asked.now.device → completion.status.0 ≡ status_in message
            → result ≡ wrong_reply account number requests asked.now completion.entry message before course }
        ensures sent { result ≡ None → told_kept self.new ≡ record (told_kept self.old) { sent = option_map_or (λ (h : Handed). h.item) course.sent 0 } }
    {
        let Some(handed) = course.sent else {
            return Some(AuditWhy::Answer);
        };
        match course.given {
            Given::Reply { item, same, cut } => {
                if same {
                    self.send(asked, completion.entry, handed, item, cut)
                } else {
                    Some(AuditWhy::Answer)
                }
            }
            Given::Cancelled => {
                if completion.status == CANCELLED {
                    self.send(asked, completion.entry, handed, 0, true)
                } else {
                    Some(AuditWhy::Answer)
                }
            }
            _ => Some(AuditWhy::Answer),
        }
    }

    /// A completion ends at an entry, and was handed out there, after its reply was given at an item: why it can't stand there, if it can't. Where a removal ended
    /// its request, one has to stand before it.
    fn send(
        &mut self,
        asked: &HeardRequest<'_>,
        entry: u64,
        handed: Handed,
        item: u64,
        removed: bool,
    ) -> Option<AuditWhy>
        ensures found { (account : Account) (number : ℕ) (requests : List Asked) (before : List Said)
            → told_kept self.old ≡ told_before account number requests before asked.now.device
            → result ≡ (if is_misplaced account number requests asked.now entry before handed item removed then Some Order else None) }
        ensures sent { result ≡ None → told_kept self.new ≡ record (told_kept self.old) { sent = handed.item } }
    {
        let early = handed.item < item || handed.item < self.sent;
        if early || entry < handed.heard || (removed && self.removed <= asked.entry) {
            return Some(AuditWhy::Order);
        }
        self.sent = handed.item;
        None
    }

    /// A request that never came is completed: why its completion doesn't belong, if it doesn't. The device's journal has so many entries.
    fn refuse(&mut self, completion: Completion, count: u64) -> Option<AuditWhy>
        ensures found { (account : Account) (number : ℕ) (requests : List Asked) (before : List Said) (asked : Asked) (message : List ℕ)
            → told_kept self.old ≡ told_before account number requests before asked.device → completion.status.0 ≡ status_in message → count ≡ account.counts asked.device
            → result ≡ wrong_refusal account number requests asked completion.index message before }
        ensures served { result ≡ None → told_kept self.new ≡ record (told_kept self.old) { served = self.old.served + 1 } }
    {
        if completion.status == Status::SUCCESS {
            return Some(AuditWhy::Answer);
        }
        if !self.may_refuse(completion, count) || !self.is_next(completion.index) {
            return Some(AuditWhy::Direct);
        }
        self.served += 1;
        None
    }

    /// Whether the client may refuse a request with this status.
    fn may_refuse(&self, completion: Completion, count: u64) -> bool
        ensures { (account : Account) (number : ℕ) (requests : List Asked) (before : List Said) (asked : Asked)
            → told_kept self.now ≡ told_before account number requests before asked.device → count ≡ account.counts asked.device
            → result ≡ may_refuse account number requests asked completion.index completion.status.0 before }
    {
        if self.gone {
            return completion.status == NO_SUCH_DEVICE;
        }
        let is_last = match self.came {
            Some(came) => came < completion.index,
            None => true,
        };
        completion.status == INSUFFICIENT_RESOURCES && count >= WORN_ENTRIES && is_last
    }

    /// Whether a request is the next that is to be refused.
    fn is_next(&self, index: usize) -> bool
        ensures { result ≡ option_map_or (λ next. next == index) (slice_get self.now.unserved.items self.now.served) false }
    {
        match self.unserved.get(self.served) {
            Some(next) => *next == index,
            None => false,
        }
    }
}
