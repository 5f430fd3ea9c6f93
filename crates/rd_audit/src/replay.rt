//! What a device does with the requests of its journal.

ghost use Rattle.std.specs.Prelude.{◌≡◌, ℕ, ◌+◌, ◌-◌, ◌<◌, ◌^◌, true, false, [], ◌∷◌, Some, List, map, count_by, position, if◌then◌else◌, IsTrue, IfErr, IfOk, OnOk};
ghost use Rattle.std.specs.Option.{option_copied};
ghost use Rattle.rd_base.specs.declared.journal.Cause.{Cause};
ghost use Rattle.rd_base.specs.declared.journal.Key as key;
ghost use Rattle.rd_base.specs.declared.journal.Item.TheVariants as entry;
ghost use Rattle.rd_declared.specs.Devices.{Declared, device_parked};
ghost use Rattle.rd_drive.specs.Device.{is_starved};
ghost use Rattle.rd_drive.specs.declared.step.End.{End};
ghost use Rattle.rd_drive.specs.declared.step.Step.TheVariants as step;
ghost use Rattle.rd_recorded.specs.Channels as channels;
ghost use Rattle.rd_drive.specs.Replies.{cancellation, end_reply};
ghost use Rattle.rd_irp.specs.declared.request.Request as request;
ghost use Rattle.rd_lawful.specs.Rules.{key_is};
ghost use Rattle.rd_audit.specs.declared.no.AuditNo.TheVariants.{Memory};
ghost use Rattle.rd_audit.specs.declared.verdict.Verdict.TheVariants as verdict;
ghost use Rattle.rd_audit.specs.Kept.{GivesReplies, ReplaysAs, IsTaking, TakesItem};
ghost use Rattle.rd_audit.specs.Replayed.{DeviceSoFar, heard_at, is_said, is_said_on, named_by, with_number, standing_new};

use crate::course::{Courses, Given, Handed};
use crate::no::AuditNo;
use crate::reply::{completes, fault};
use crate::status::CANCELLED;
use crate::verdict::Verdict;
use rd_base::{Item, Key, ReadNo, Status};
use rd_declared::SessionDevice;
use rd_drive::{Device, Ends, Job, Step, prepare};
use rd_irp::{Op, Reply, Request, read_request};
use rd_recorded::{ClientSaid, HeardChannel, HeardRequest};
use std::alloc::{AllocError, Global};

/// A device, as far as its journal was gone over.
#[derive(Drop)]
pub struct Replay {
    alloc: Global,
    id: u32,
    device: SessionDevice,
    /// The requests that wait in it.
    waiting: Vec<Key>,
    /// How many entries of its journal were gone over.
    count: u64,
    /// The entry of the recording that ended the last request which came.
    heard: u64,
    /// Room for the ends of a run; none is here between two.
    ends: Ends,
}

impl Replay {
    /// A device before the first entry of its journal.
    pub fn new(alloc: Global, id: u32, device: SessionDevice) -> Result<Replay, AllocError>
        ensures { (d : Declared) → device ≡ d.state → device_parked device ≡ [] → IfOk result (λ replay. ReplaysAs replay (standing_new (id, d))) }
    {
        Ok(Replay {
            alloc,
            id,
            device,
            waiting: Vec::new(alloc),
            count: 0,
            heard: 0,
            ends: Ends::new(alloc)?,
        })
    }

    pub fn id(&self) -> u32
        ensures { result ≡ self.now.id }
    {
        self.id
    }

    /// How many entries were gone over.
    pub fn count(&self) -> u64
        ensures { result ≡ self.now.count }
    {
        self.count
    }

    /// That the last entry isn't of a request to the device, or isn't what the device does.
    pub fn mark(&self) -> Verdict
        ensures { result ≡ verdict.Mark self.now.id self.now.count }
    {
        Verdict::Mark {
            device: self.id,
            item: self.count,
        }
    }

    /// Goes over another entry, and keeps with its request what came of it. False where it isn't of a request to the device, or isn't what the device does.
    pub fn take(
        &mut self,
        channels: &[HeardChannel<'_>],
        courses: &mut Courses,
        entry: Item,
    ) -> Result<bool, AuditNo>
        requires count { self.old.count + 1 < 2 ^ 63 }
        requires quiet { self.old.ends ≡ [] }
        ensures quiet { IfOk result (λ fits. IsTrue fits → self.new.ends ≡ []) }
        ensures id { self.new.id ≡ self.old.id }
        ensures count { self.new.count ≡ self.old.count + 1 }
        ensures taken { (d : DeviceSoFar) → ReplaysAs self.old d → IfOk result (TakesItem channels.now d entry self.new courses.old courses.new) }
        ensures refused { IfErr result (λ no. no ≡ Memory) }
    {
        self.count += 1;
        match entry {
            Item::Came(key) => Ok(self.come(channels, courses, key)),
            Item::Ran {
                key,
                moment,
                starved,
                parked,
            } => self.run(channels, courses, key, moment, starved, parked),
            Item::Cancelled(key) => {
                self.cancel(courses, key);
                Ok(true)
            }
            Item::Sent(key) => {
                self.send(courses, key);
                Ok(true)
            }
            Item::Cut(_) => {
                self.cut(channels, courses)?;
                Ok(true)
            }
        }
    }

    /// A request comes.
    fn come(&mut self, channels: &[HeardChannel<'_>], courses: &mut Courses, key: Key) -> bool
        ensures id { self.new.id ≡ self.old.id }
        ensures count { self.new.count ≡ self.old.count }
        ensures ends { self.new.ends ≡ self.old.ends }
        ensures taken { (d : DeviceSoFar) → IsTaking self.old d → TakesItem channels.now d (entry.Came key) self.new courses.old courses.new result }
    {
        match asked_of(channels, key) {
            Some(asked) if asked.device == self.id => {
                courses.give(key, Given::Nothing);
                self.heard = asked.entry;
                true
            }
            _ => false,
        }
    }

    /// A request is given up before it ran.
    fn cancel(&self, courses: &mut Courses, key: Key)
        ensures { (recorded : List channels.HeardChannel) (d : DeviceSoFar) → IsTaking self.now d → TakesItem recorded d (entry.Cancelled key) self.now courses.old courses.new true }
    {
        courses.give(key, Given::Cancelled);
    }

    /// The completion of a request is handed out.
    fn send(&self, courses: &mut Courses, key: Key)
        ensures { (recorded : List channels.HeardChannel) (d : DeviceSoFar) → IsTaking self.now d → TakesItem recorded d (entry.Sent key) self.now courses.old courses.new true }
    {
        let item = self.count;
        let heard = self.heard;
        courses.send(key, Handed { item, heard });
    }

    /// A request runs.
    fn run(
        &mut self,
        channels: &[HeardChannel<'_>],
        courses: &mut Courses,
        key: Key,
        moment: u64,
        starved: bool,
        parked: bool,
    ) -> Result<bool, AuditNo>
        requires { self.old.ends ≡ [] }
        ensures quiet { IfOk result (λ fits. IsTrue fits → self.new.ends ≡ []) }
        ensures id { self.new.id ≡ self.old.id }
        ensures count { self.new.count ≡ self.old.count }
        ensures taken { (d : DeviceSoFar) → IsTaking self.old d → IfOk result (TakesItem channels.now d (entry.Ran key moment starved parked) self.new courses.old courses.new) }
        ensures refused { IfErr result (λ no. no ≡ Memory) }
    {
        let Some(asked) = asked_of(channels, key) else {
            return Ok(false);
        };
        let request = match read_request(self.alloc, asked.message.as_slice()) {
            Ok((request, _)) => request,
            Err(ReadNo::Bad(_)) => return Ok(false),
            Err(ReadNo::Memory) => return Err(AuditNo::Memory),
        };
        if starved {
            return self.starve(channels, courses, key, &request.op, parked);
        }
        self.apply(channels, courses, key, request, moment, parked)
    }

    /// No memory was found for a request.
    fn starve(
        &self,
        channels: &[HeardChannel<'_>],
        courses: &mut Courses,
        key: Key,
        op: &Op,
        parked: bool,
    ) -> Result<bool, AuditNo>
        ensures taken { (d : DeviceSoFar) (r : request.Request) (moment : ℕ) → IsTaking self.now d → named_by channels.now key ≡ Some r → r.op ≡ op.now → IfOk result (TakesItem channels.now d (entry.Ran key moment true parked) self.now courses.old courses.new) }
        ensures refused { IfErr result (λ no. no ≡ Memory) }
    {
        if parked {
            return Ok(false);
        }
        if let Op::Close = op {
            return Ok(false);
        }
        self.give(channels, courses, key, &fault(Status::NO_MEMORY), false)?;
        Ok(true)
    }

    /// The device does what a request asks for.
    fn apply(
        &mut self,
        channels: &[HeardChannel<'_>],
        courses: &mut Courses,
        key: Key,
        request: Request,
        moment: u64,
        parked: bool,
    ) -> Result<bool, AuditNo>
        requires { self.old.ends ≡ [] }
        ensures quiet { IfOk result (λ fits. IsTrue fits → self.new.ends ≡ []) }
        ensures id { self.new.id ≡ self.old.id }
        ensures count { self.new.count ≡ self.old.count }
        ensures taken { (d : DeviceSoFar) → IsTaking self.old d → named_by channels.now key ≡ Some request → IfOk result (TakesItem channels.now d (entry.Ran key moment false parked) self.new courses.old courses.new) }
        ensures refused { IfErr result (λ no. no ≡ Memory) }
    {
        let Request {
            file,
            completion,
            op,
            ..
        } = request;
        let job = Job {
            key,
            file,
            completion,
            op,
        };
        let plan = prepare(self.alloc, job);
        if plan.starved() {
            return Err(AuditNo::Memory);
        }
        match self.device.apply(plan, moment, &mut self.ends) {
            Step::Parked => {
                if !parked {
                    return Ok(false);
                }
                self.waiting.push(key)?;
                self.end(channels, courses)?;
                Ok(true)
            }
            Step::Reply(reply) => {
                if lacked_memory(&reply) {
                    return Err(AuditNo::Memory);
                }
                if parked {
                    return Ok(false);
                }
                self.give(channels, courses, key, &reply, false)?;
                self.end(channels, courses)?;
                Ok(true)
            }
        }
    }

    /// Requests that waited end.
    fn end(&mut self, channels: &[HeardChannel<'_>], courses: &mut Courses) -> Result<(), AuditNo>
        ensures gives { OnOk result (GivesReplies channels.now self.old.count false (map end_reply self.old.ends) courses.old courses.new) }
        ensures waiting { OnOk result ((key : Key) → count_by (key_is key) self.new.waiting.items ≡ count_by (key_is key) self.old.waiting.items - count_by (key_is key) (map (λ (e : End). e.key) self.old.ends)) }
        ensures quiet { OnOk result (self.new.ends ≡ []) }
        ensures others { OnOk result (self.new ≡ record self.old { waiting = self.new.waiting; ends = [] }) }
        ensures id { self.new.id ≡ self.old.id }
        ensures count { self.new.count ≡ self.old.count }
        ensures refused { IfErr result (λ no. no ≡ Memory) }
    {
        while let Some(end) = self.ends.pop() {
            forget(&mut self.waiting, end.key);
            self.give(channels, courses, end.key, &end.reply, false)?;
        }
        Ok(())
    }

    /// The device is cut off: what waits in it is cancelled.
    fn cut(&mut self, channels: &[HeardChannel<'_>], courses: &mut Courses) -> Result<(), AuditNo>
        ensures id { self.new.id ≡ self.old.id }
        ensures count { self.new.count ≡ self.old.count }
        ensures ends { self.new.ends ≡ self.old.ends }
        ensures taken { (d : DeviceSoFar) (cause : Cause) → IsTaking self.old d → OnOk result (TakesItem channels.now d (entry.Cut cause) self.new courses.old courses.new true) }
        ensures refused { IfErr result (λ no. no ≡ Memory) }
    {
        self.device.cut();
        self.cancel_waiting(channels, courses)?;
        self.waiting.clear();
        Ok(())
    }

    /// What waits is cancelled.
    fn cancel_waiting(
        &self,
        channels: &[HeardChannel<'_>],
        courses: &mut Courses,
    ) -> Result<(), AllocError>
        ensures { OnOk result (GivesReplies channels.now self.now.count true (map (λ (key : key.Key). (key, cancellation)) self.now.waiting.items) courses.old courses.new) }
    {
        for key in &self.waiting {
            self.give(channels, courses, *key, &fault(CANCELLED), true)?;
        }
        Ok(())
    }

    /// The device gives a request its reply, which is compared with the completion now, and not kept.
    fn give(
        &self,
        channels: &[HeardChannel<'_>],
        courses: &mut Courses,
        key: Key,
        reply: &Reply,
        cut: bool,
    ) -> Result<(), AllocError>
        ensures { OnOk result (GivesReplies channels.now self.now.count cut ((key, reply.now) ∷ []) courses.old courses.new) }
    {
        let item = self.count;
        let same = self.is_said(channels, key, reply)?;
        courses.give(key, Given::Reply { item, same, cut });
        Ok(())
    }

    /// Whether the completion of a request has this reply.
    fn is_said(
        &self,
        channels: &[HeardChannel<'_>],
        key: Key,
        reply: &Reply,
    ) -> Result<bool, AllocError>
        ensures { IfOk result (λ same. same ≡ is_said channels.now key reply.now) }
    {
        let Some(channel) = channel_of(channels, key.channel) else {
            return Ok(false);
        };
        let Some(asked) = channel.requests.get(key.index as usize) else {
            return Ok(false);
        };
        is_said_on(self.alloc, channel, asked, reply)
    }
}

/// Whether the completion of a request has this reply.
fn is_said_on(
    alloc: Global,
    channel: &HeardChannel<'_>,
    asked: &HeardRequest<'_>,
    reply: &Reply,
) -> Result<bool, AllocError>
    ensures { IfOk result (λ same. same ≡ is_said_on channel.now asked.now reply.now) }
{
    let Some(place) = asked.completion else {
        return Ok(false);
    };
    let Some(saying) = channel.sayings.get(place) else {
        return Ok(false);
    };
    match &saying.said {
        ClientSaid::Completes(_, message) => completes(
            alloc,
            asked.kind,
            message.as_slice(),
            reply,
        ),
        _ => Ok(false),
    }
}

/// The channel with a number.
fn channel_of<'c, 'a>(channels: &'c [HeardChannel<'a>], number: u32) -> Option<&'c HeardChannel<'a>>
    ensures { option_copied result ≡ with_number channels.now number }
{
    if number == 0 {
        return None;
    }
    channels.get((number - 1) as usize)
}

/// The request of a key.
fn asked_of<'c, 'a>(channels: &'c [HeardChannel<'a>], key: Key) -> Option<&'c HeardRequest<'a>>
    ensures { option_copied result ≡ heard_at channels.now key }
{
    channel_of(channels, key.channel)?
        .requests
        .get(key.index as usize)
}

/// Whether a reply says that no memory was found.
fn lacked_memory(reply: &Reply) -> bool
    ensures { result ≡ is_starved (step.Reply reply.now) }
{
    reply.status.0 == Status::NO_MEMORY.0
}

/// TakesItem the first of the keys that is the same as a key out of them.
fn forget(keys: &mut Vec<Key>, key: Key)
    ensures { (k : Key) → count_by (key_is k) keys.new.items ≡ count_by (key_is k) keys.old.items - (if key_is k key then 1 else 0) }
{
    if let Some(place) = place_of(keys.as_slice(), key) {
        keys.remove(place);
    }
}

/// The place of the first of the keys that is the same as a key.
fn place_of(keys: &[Key], key: Key) -> Option<usize>
    ensures { result ≡ position (λ k. key_is k key) keys.now }
{
    keys.iter().position(|other| *other == key)
}
