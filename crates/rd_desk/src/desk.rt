//! The desk: a station as an object.

ghost use Rattle.std.specs.Prelude.{◌≡◌, [], ◌≤◌, length, IfErr, IfOk};
ghost use Rattle.std.specs.VecDeque.{deque_capacity, deque_len};
ghost use Rattle.rd_station.specs.Station.{StationSteps};
ghost use Rattle.rd_desk.specs.Desk.{DeskStep, applied_calls, taken_calls};
ghost use Rattle.rd_desk.specs.declared.calls.DeskCall.TheVariants as Call;
ghost use Rattle.rd_desk.specs.declared.calls.DeskReply.TheVariants as Reply;

use crate::batch::{Batch, MOST, Run, Worked};
use crate::calls::{DeskCall, DeskReply};
use rd_drive::{Device, Job};
use rd_station::{Applied, Given, Station};
use rd_turn::Object;
use std::alloc::Global;
use std::collections::VecDeque;
use std::marker::Model;

/// A station behind a turn. It lies on the heap, so that a turn moves a pointer. Contracts see the station.
#[derive(Drop)]
pub struct Desk<D: Device> {
    station: Box<Station<D>>,
}

impl<D: Device> Model for Desk<D> {
    ghost use Rattle.rd_station.specs.Station.{StationState};

    ghost Value = { StationState D };

    ghost view = { λ d. d.station.value };
}

impl<D: Device> Desk<D> {
    /// The desk of a station. Where there is no memory the station comes back.
    pub fn new(alloc: Global, station: Station<D>) -> Result<Self, Station<D>>
        ensures made { IfOk result (λ desk. desk ≡ station) }
        ensures back { IfErr result (λ back. back ≡ station) }
    {
        match Box::new(alloc, station) {
            Ok(station) => Ok(Desk { station }),
            Err(refused) => Err(refused.value),
        }
    }

    /// The station.
    pub fn into_station(self) -> Station<D>
        ensures { result ≡ self }
    {
        let Desk { station } = self;
        Box::into_inner(station)
    }
}

impl<D: Device> Object for Desk<D> {
    ghost use Rattle.rd_desk.specs.Desk.{DeskStep};

    type Call = DeskCall;

    type Reply = DeskReply;

    ghost steps = { DeskStep D.runs D.parked D.cuts };

    fn call(&mut self, call: DeskCall) -> DeskReply {
        let station = &mut *self.station;
        match call {
            DeskCall::Announce => DeskReply::Announced(station.announce()),
            DeskCall::Put(job) => put(station, job),
            DeskCall::Work(batch) => DeskReply::Worked(work(station, batch)),
            DeskCall::Collect => DeskReply::Collected(station.collect()),
            DeskCall::Remove => DeskReply::Removed(station.remove()),
            DeskCall::DropChannel => {
                station.drop_channel();
                DeskReply::Dropped
            }
            DeskCall::End => {
                station.end();
                DeskReply::Ended
            }
        }
    }
}

/// A job comes, where it may.
fn put<D: Device>(station: &mut Station<D>, job: Job) -> DeskReply
    ensures { DeskStep D.runs D.parked D.cuts station.old (Call.Put job) result station.new }
{
    if !station.may_put(job.key) {
        return DeskReply::Unfit(job);
    }
    DeskReply::Put(station.put(job))
}

/// A hand's plans are run, and then it is given jobs.
fn work<D: Device>(station: &mut Station<D>, batch: Batch) -> Worked
    ensures { DeskStep D.runs D.parked D.cuts station.old (Call.Work batch) (Reply.Worked result) station.new }
{
    let Batch { mut room } = batch;
    apply_all(station, &mut room.runs, &mut room.applied);
    let over = take_all(station, &mut room.jobs);
    Worked {
        room,
        left: station.waits(),
        ready: station.has_ready(),
        over,
    }
}

/// Plans are given back in their order.
fn apply_all<D: Device>(
    station: &mut Station<D>,
    runs: &mut VecDeque<Run>,
    applied: &mut VecDeque<Applied>,
)
    requires none { applied.old.items ≡ [] }
    requires room { deque_len runs.old ≤ deque_capacity applied.old }
    ensures steps { StationSteps D.runs D.parked D.cuts station.old (applied_calls runs.old.items applied.new.items) station.new }
    ensures answers { length applied.new.items ≡ length runs.old.items }
    ensures runs { runs.new.items ≡ [] }
    ensures capacity { (deque_capacity runs.new ≡ deque_capacity runs.old) × (deque_capacity applied.new ≡ deque_capacity applied.old) }
{
    while let Some(run) = runs.pop_front() {
        let Run { plan, moment } = run;
        applied.push_back_reserved(station.apply(plan, moment));
    }
}

/// Jobs are taken in the order in which they came. Whether the session is over.
fn take_all<D: Device>(station: &mut Station<D>, jobs: &mut VecDeque<Job>) -> bool
    requires none { jobs.old.items ≡ [] }
    requires room { 4 ≤ deque_capacity jobs.old }
    ensures steps { StationSteps D.runs D.parked D.cuts station.old (taken_calls jobs.new.items result) station.new }
    ensures few { length jobs.new.items ≤ 4 }
    ensures over { result ≡ station.new.ended }
    ensures capacity { deque_capacity jobs.new ≡ deque_capacity jobs.old }
{
    for _ in 0..MOST {
        match station.take() {
            Given::Job(job) => jobs.push_back_reserved(job),
            Given::Nothing => return false,
            Given::Over => return true,
        }
    }
    false
}
