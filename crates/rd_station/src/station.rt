//! The station of one device.

ghost use Rattle.std.specs.Prelude.{◌≡◌, ◌≢◌, ◌<◌, ◌≤◌, ◌+◌, ◌-◌, ◌↔◌, Bool, true, [], ◌∷◌, ◌++◌, IsTrue, IfOk, IfErr, OnOk, map, Some, None, if◌then◌else◌};
ghost use Rattle.rd_base.specs.declared.journal.Item.TheVariants as Item;
ghost use Rattle.rd_drive.specs.Promise.{CutsOff};
ghost use Rattle.rd_station.specs.Memory.{after_drop};
ghost use Rattle.rd_station.specs.Queues.{job_count};
ghost use Rattle.rd_station.specs.Sound.{RunsJob, SettlesAll, station_with};
ghost use Rattle.rd_station.specs.Station.{drop_channel};

use crate::answers::{Applied, Completion, Given};
use crate::held::{Held, InHand, MAX_HELD, ParkedJob, cancelled};
use crate::memory::Memory;
use crate::refusals::{AnnounceNo, PutNo, PutWhy, StationNo};
use rd_base::{Cause, Item, Journal, Key, Status};
use rd_drive::{Device, Ends, Job, Plan, Step};
use rd_irp::kind_of;
use std::alloc::Global;
use std::marker::Model;

/// The most entries of a journal, reserved places among them.
pub const MAX_ENTRIES: u32 = 16_777_216;

/// The requests of one device, from the moment when they come until their completions are handed out, and the device's journal.
///
/// Contracts see it as a `StationState`. It came to be by its calls (`IsReached`), in every state, so what is proved of any calls holds of it:
/// its journal is lawful, what waits inside the device is what the device tells, and each completion that is ready fits its layout.
#[derive(Drop)]
pub struct Station<D: Device> {
    device: D,
    live: bool,
    ended: bool,
    held: Held,
    journal: Journal,
    memory: Memory,
    /// Where the device puts the ends of a run. It is empty between calls.
    ends: Ends,
}

impl<D: Device> Model for Station<D> {
    ghost use Rattle.std.specs.Prelude.{◌≡◌, []};
    ghost use Rattle.rd_station.specs.Station.{StationState};
    ghost use Rattle.rd_station.specs.Sound.{IsSound, station_with};

    ghost Value = { StationState D };

    ghost view = { λ s. station_with s.device s.live s.ended s.held s.journal.items };

    ghost invariant = { λ s. IsSound D.runs D.parked D.cuts (station_with s.device s.live s.ended s.held s.journal.items) s.held.keys s.journal.spare s.memory × (s.ends ≡ []) };
}

impl<D: Device> Station<D> {
    ghost use Rattle.rd_station.specs.Station as Call;
    ghost use Rattle.rd_station.specs.Station.{MayPut, StationMade, StationStep, entry_count, put_refusal, reserved};
    ghost use Rattle.rd_base.specs.Lawful.{IsLawful};
    ghost use Rattle.rd_station.specs.Tied.{IsReached, as_parked};

    /// A station before its first channel, over a device in which no request waits. Where no memory is found the device comes back.
    pub fn new(alloc: Global, device: D) -> Result<Station<D>, StationNo<D>>
        requires { D.parked device ≡ [] }
        ensures made { StationMade device result }
        ensures reached { IfOk result (IsReached D.runs D.parked D.cuts) }
    {
        let Ok(held) = Held::new(alloc) else {
            return Err(StationNo { device });
        };
        let Ok(ends) = Ends::new(alloc) else {
            return Err(StationNo { device });
        };
        Ok(Station {
            device,
            live: false,
            ended: false,
            held,
            journal: Journal::new(alloc),
            memory: Memory {
                last: None,
                forgotten: None,
            },
            ends,
        })
    }

    /// Jobs may come from now on, since the host is told of the device. Room is found for the entry of the next cut.
    pub fn announce(&mut self) -> Result<(), AnnounceNo>
        ensures step { StationStep D.runs D.parked D.cuts self.old (Call.announces result) self.new }
        ensures reached { IsReached D.runs D.parked D.cuts self.new }
    {
        if self.live {
            return Err(AnnounceNo::Live);
        }
        let count = self.entries();
        if MAX_ENTRIES <= count {
            return Err(AnnounceNo::Worn { count });
        }
        let places = self.places() + 1;
        let Ok(()) = self.journal.reserve(places) else {
            return Err(AnnounceNo::Memory);
        };
        self.live = true;
        Ok(())
    }

    /// Whether a job with this key may come (`put`): it is above every key that came, on the channel of what is held, and on a later one than
    /// what was forgotten.
    pub fn may_put(&self, key: Key) -> bool
        ensures { IsTrue result ↔ MayPut self.now key }
    {
        self.memory.may_come(self.held.len(), key)
    }

    /// A job comes. Every place that it will need is found here, and where none is it comes back, as it does for each other cause.
    pub fn put(&mut self, job: Job) -> Result<(), PutNo>
        requires { MayPut self.old job.key }
        ensures came { OnOk result (StationStep D.runs D.parked D.cuts self.old (Call.puts job None) self.new) }
        ensures refused { IfErr result (λ no. StationStep D.runs D.parked D.cuts self.old (Call.puts job (Some no)) self.new) }
        ensures reached { IsReached D.runs D.parked D.cuts self.new }
    {
        if let Some(why) = self.refusal(&job) {
            return Err(PutNo { why, job });
        }
        let places = self.places() + 3;
        let Ok(()) = self.journal.reserve(places) else {
            let why = PutWhy::Memory;
            return Err(PutNo { why, job });
        };
        let key = job.key;
        match self.held.put(job) {
            Ok(()) => {
                self.journal.add(Item::Came(key));
                self.memory.come(key);
                Ok(())
            }
            Err(job) => {
                let why = PutWhy::Memory;
                Err(PutNo { why, job })
            }
        }
    }

    /// The job that came first of those that wait goes into a hand.
    pub fn take(&mut self) -> Given
        ensures step { StationStep D.runs D.parked D.cuts self.old (Call.takes result) self.new }
        ensures reached { IsReached D.runs D.parked D.cuts self.new }
    {
        if self.ended {
            return Given::Over;
        }
        let Some(job) = self.held.take() else {
            return Given::Nothing;
        };
        Given::Job(job)
    }

    /// A hand gives back the job of a plan, and the device runs it at this moment (100 ns since 1601-01-01 UTC), unless it was removed since
    /// the job came. The bookkeeping takes no memory.
    pub fn apply(&mut self, plan: Plan, moment: u64) -> Applied
        ensures step { StationStep D.runs D.parked D.cuts self.old (Call.applies plan moment result) self.new }
        ensures reached { IsReached D.runs D.parked D.cuts self.new }
    {
        let Some(hand) = self.held.take_back(plan.key()) else {
            return Applied::Stale;
        };
        if hand.removed {
            let kind = kind_of(&plan.job().op);
            self.journal.add(Item::Cancelled(hand.key));
            self.held
                .make_ready(cancelled(hand.key, hand.completion, kind));
            return Applied::Cancelled;
        }
        run(
            &mut self.device,
            &mut self.held,
            &mut self.journal,
            &mut self.ends,
            hand,
            plan,
            moment,
        )
    }

    /// The completion that was ready first is handed out.
    pub fn collect(&mut self) -> Option<Completion>
        ensures step { StationStep D.runs D.parked D.cuts self.old (Call.collects result) self.new }
        ensures reached { IsReached D.runs D.parked D.cuts self.new }
    {
        let completion = self.held.collect()?;
        self.journal.add(Item::Sent(completion.key));
        Some(completion)
    }

    /// The host is told that the device is gone: it is cut off, and what waits is cancelled; what is in hands is cancelled as it comes back, and
    /// what is ready stays so. False where it was gone already.
    pub fn remove(&mut self) -> bool
        ensures step { StationStep D.runs D.parked D.cuts self.old (Call.removes result) self.new }
        ensures reached { IsReached D.runs D.parked D.cuts self.new }
    {
        if !self.live {
            return false;
        }
        self.journal.add(Item::Cut(Cause::Removed));
        self.device.cut();
        self.live = false;
        self.held.mark_removed();
        self.held.cancel_parked();
        self.held.cancel_waiting(&mut self.journal);
        true
    }

    /// The channel ended: all that is held is forgotten, and the device, where it is live, is cut off.
    pub fn drop_channel(&mut self)
        ensures step { StationStep D.runs D.parked D.cuts self.old Call.drops self.new }
        ensures reached { IsReached D.runs D.parked D.cuts self.new }
    {
        cut_off(
            &mut self.device,
            &mut self.live,
            &mut self.held,
            &mut self.journal,
            &mut self.memory,
        );
    }

    /// The session is over, as well as its last channel.
    pub fn end(&mut self)
        ensures step { StationStep D.runs D.parked D.cuts self.old Call.ends self.new }
        ensures reached { IsReached D.runs D.parked D.cuts self.new }
    {
        cut_off(
            &mut self.device,
            &mut self.live,
            &mut self.held,
            &mut self.journal,
            &mut self.memory,
        );
        self.ended = true;
    }

    /// The journal, entry by entry.
    pub fn journal(&self) -> &Journal
        ensures entries { result.now.items ≡ self.now.journal }
        ensures lawful { IsLawful self.now.journal }
    {
        &self.journal
    }

    /// The device. What waits inside it is what the station has parked there.
    pub fn device(&self) -> &D
        ensures device { result.now ≡ self.now.device }
        ensures parked { map as_parked self.now.parked ≡ D.parked result.now }
    {
        &self.device
    }

    /// Whether a job waits that no hand took.
    pub fn waits(&self) -> bool
        ensures { IsTrue result ↔ (self.now.waiting ≢ []) }
    {
        self.held.waits()
    }

    /// Whether a completion can be collected.
    pub fn has_ready(&self) -> bool
        ensures { IsTrue result ↔ (self.now.ready ≢ []) }
    {
        self.held.has_ready()
    }

    /// The device and its journal, as they are.
    pub fn finish(self) -> (D, Journal)
        ensures device { result.0 ≡ self.device }
        ensures journal { result.1.items ≡ self.journal }
        ensures lawful { IsLawful self.journal }
    {
        let Station {
            device,
            journal,
            ..
        } = self;
        (device, journal)
    }

    /// How many entries of the journal are spoken for.
    fn places(&self) -> u32
        ensures count { result ≡ reserved self.now }
        ensures few { result ≤ 257 }
    {
        let cut = if self.live { 1 } else { 0 };
        self.held.owed() + cut
    }

    /// How many entries the journal has, with the places that are spoken for.
    fn entries(&self) -> u32
        ensures count { result ≡ entry_count self.now }
        ensures few { result ≤ 16777216 }
    {
        self.journal.items().len() as u32 + self.places()
    }

    /// Why a job can't come, if it can't.
    fn refusal(&self, job: &Job) -> Option<PutWhy>
        ensures { result ≡ put_refusal self.now job.now }
    {
        if !self.live {
            return Some(PutWhy::Gone);
        }
        if let Some(key) = self.held.key_of(job.completion) {
            return Some(PutWhy::Duplicate(key));
        }
        let held = self.held.len();
        if MAX_HELD <= held {
            return Some(PutWhy::Full { held: held as u32 });
        }
        let count = self.entries();
        if MAX_ENTRIES - 3 < count {
            return Some(PutWhy::Worn { count });
        }
        None
    }
}

/// The device runs the job that came back from a hand. Its own completion is made ready first, and then those of the requests that it ended.
fn run<D: Device>(
    device: &mut D,
    held: &mut Held,
    journal: &mut Journal,
    ends: &mut Ends,
    hand: InHand,
    plan: Plan,
    moment: u64,
) -> Applied
    requires none { ends.old ≡ [] }
    requires room { 0 < journal.old.spare }
    requires few { job_count held.old < 128 }
    requires settles { SettlesAll D.runs D.parked device.old held.old plan moment }
    ensures ran { RunsJob D.runs D.parked device.old held.old journal.old.items hand plan moment result device.new held.new journal.new.items }
    ensures spare { journal.new.spare ≡ journal.old.spare - 1 }
    ensures none { ends.new ≡ [] }
{
    let kind = kind_of(&plan.job().op);
    match device.apply(plan, moment, ends) {
        Step::Reply(reply) => {
            let starved = reply.status == Status::NO_MEMORY;
            journal.add(Item::Ran {
                key: hand.key,
                moment,
                starved,
                parked: false,
            });
            held.make_ready(Completion {
                key: hand.key,
                completion: hand.completion,
                kind,
                reply,
            });
            held.settle(ends);
            Applied::Ran
        }
        Step::Parked => {
            journal.add(Item::Ran {
                key: hand.key,
                moment,
                starved: false,
                parked: true,
            });
            held.settle(ends);
            held.park(ParkedJob {
                key: hand.key,
                completion: hand.completion,
                kind,
            });
            Applied::Parked
        }
    }
}

/// The channel of a device ended: nothing is held any more, and a live device is cut off.
fn cut_off<D: Device>(
    device: &mut D,
    live: &mut bool,
    held: &mut Held,
    journal: &mut Journal,
    memory: &mut Memory,
)
    requires { live.old ≡ true → 0 < journal.old.spare }
    ensures dropped { (ended : Bool) → drop_channel (station_with device.old live.old ended held.old journal.old.items) device.new ≡ station_with device.new live.new ended held.new journal.new.items }
    ensures cut { live.old ≡ true → CutsOff D.cuts D.parked device.old device.new }
    ensures keys { held.new.keys ≡ [] }
    ensures memory { memory.new ≡ after_drop memory.old (job_count held.old) }
{
    memory.forget(held.len());
    held.clear();
    if *live {
        journal.add(Item::Cut(Cause::Dropped));
        device.cut();
        *live = false;
    }
}
