//! What a hand gives back at a desk, and what it is given.

ghost use Rattle.std.specs.Prelude.{◌≡◌, ◌<◌, ◌+◌, ◌≤◌, ◌++◌, ◌∷◌, [], length, map, option_map, slice_get, IfOk};
ghost use Rattle.std.specs.VecDeque.{deque_capacity, deque_len};
ghost use Rattle.rd_desk.specs.Batch.{jobs_of};

use rd_base::Key;
use rd_drive::{Job, Plan, prepare};
use rd_station::Applied;
use std::alloc::{AllocError, Global};
use std::collections::VecDeque;
use std::marker::Model;

/// The most plans that a hand gives back in one call, and the most jobs that it is given.
pub const MOST: usize = 4;

/// A plan, and the moment at which it is to be run, in units of 100 ns since 1601-01-01 UTC.
#[derive(Drop)]
pub struct Run {
    pub plan: Plan,
    pub moment: u64,
}

/// Three queues, each with room for as many as a call moves.
#[derive(Drop)]
pub(crate) struct Room {
    pub(crate) runs: VecDeque<Run>,
    pub(crate) applied: VecDeque<Applied>,
    pub(crate) jobs: VecDeque<Job>,
}

impl Model for Room {
    ghost use Rattle.std.specs.Prelude.{◌≤◌, length};
    ghost use Rattle.std.specs.VecDeque.{deque_capacity};
    ghost use Rattle.rd_desk.specs.Batch.{RoomState};

    ghost Value = { RoomState };

    ghost view = { λ r. record { runs = r.runs.items; applied = r.applied.items; jobs = r.jobs.items } };

    ghost invariant = { λ r. (length r.runs.items ≤ 4) × (length r.applied.items ≤ 4) × (length r.jobs.items ≤ 4)
        × (4 ≤ deque_capacity r.runs) × (4 ≤ deque_capacity r.applied) × (4 ≤ deque_capacity r.jobs) };
}

/// What a hand gives back at a desk: at most four plans, in the order in which they are run. Contracts see them as a list. It has the room for
/// what comes of them and for the jobs that are given next, so a call of the desk takes no memory.
#[derive(Drop)]
pub struct Batch {
    pub(crate) room: Room,
}

impl Model for Batch {
    ghost use Rattle.std.specs.Prelude.{◌≡◌, List, []};
    ghost use Rattle.rd_desk.specs.declared.batch.Run.{Run};

    ghost Value = { List Run };

    ghost view = { λ b. b.room.runs };

    ghost invariant = { λ b. (b.room.applied ≡ []) × (b.room.jobs ≡ []) };
}

impl Batch {
    /// No plans.
    pub fn new(alloc: Global) -> Result<Self, AllocError>
        ensures { IfOk result (λ batch. batch ≡ []) }
    {
        Ok(Batch {
            room: Room {
                runs: VecDeque::with_capacity(alloc, MOST)?,
                applied: VecDeque::with_capacity(alloc, MOST)?,
                jobs: VecDeque::with_capacity(alloc, MOST)?,
            },
        })
    }

    /// Puts a plan after the others, to be run at this moment (100 ns since 1601-01-01 UTC). It takes no memory.
    pub fn add(&mut self, plan: Plan, moment: u64)
        requires { length self.old < 4 }
        ensures { self.new ≡ self.old ++ record { plan = plan; moment = moment } ∷ [] }
    {
        self.room.runs.push_back_reserved(Run { plan, moment });
    }
}

/// What a hand is given at a desk. Contracts see it as a `WorkedState`.
#[derive(Drop)]
pub struct Worked {
    pub(crate) room: Room,
    pub(crate) left: bool,
    pub(crate) ready: bool,
    pub(crate) over: bool,
}

impl Model for Worked {
    ghost use Rattle.std.specs.Prelude.{◌≡◌, []};
    ghost use Rattle.rd_desk.specs.Batch.{WorkedState};

    ghost Value = { WorkedState };

    ghost view = { λ w. record { applied = w.room.applied; jobs = w.room.jobs; left = w.left; ready = w.ready; over = w.over } };

    ghost invariant = { λ w. w.room.runs ≡ [] };
}

impl Worked {
    /// What came of each plan that was given back, in their order.
    pub fn applied(&self, place: usize) -> Option<Applied>
        ensures { result ≡ slice_get self.now.applied place }
    {
        self.room.applied.get(place).copied()
    }

    /// How many jobs were given.
    pub fn count(&self) -> usize
        ensures { result ≡ length self.now.jobs }
    {
        self.room.jobs.len()
    }

    /// The key of the job at a place among those that were given.
    pub fn key(&self, place: usize) -> Option<Key>
        ensures { result ≡ option_map (λ job. job.key) (slice_get self.now.jobs place) }
    {
        self.room.jobs.get(place).map(|job| job.key)
    }

    /// Whether jobs are left that no hand took.
    pub fn left(&self) -> bool
        ensures { result ≡ self.now.left }
    {
        self.left
    }

    /// Whether a completion can be collected.
    pub fn ready(&self) -> bool
        ensures { result ≡ self.now.ready }
    {
        self.ready
    }

    /// Whether the session is over, so that no job will come.
    pub fn over(&self) -> bool
        ensures { result ≡ self.now.over }
    {
        self.over
    }

    /// The jobs that were given, as plans in their order, all to be run at this moment (100 ns since 1601-01-01 UTC). Each plan's own memory is
    /// found here.
    pub fn into_batch(self, alloc: Global, moment: u64) -> Batch
        ensures jobs { jobs_of result ≡ self.jobs }
        ensures moment { map (λ run. run.moment) result ≡ map (λ job. moment) self.jobs }
    {
        let Worked { mut room, .. } = self;
        room.applied.clear();
        plan_all(alloc, moment, &mut room.jobs, &mut room.runs);
        Batch { room }
    }
}

/// Jobs become plans, in their order.
fn plan_all(alloc: Global, moment: u64, jobs: &mut VecDeque<Job>, runs: &mut VecDeque<Run>)
    requires none { runs.old.items ≡ [] }
    requires room { deque_len jobs.old ≤ deque_capacity runs.old }
    ensures jobs { jobs_of runs.new.items ≡ jobs.old.items }
    ensures moment { map (λ run. run.moment) runs.new.items ≡ map (λ job. moment) jobs.old.items }
    ensures none { jobs.new.items ≡ [] }
    ensures capacity { (deque_capacity jobs.new ≡ deque_capacity jobs.old) × (deque_capacity runs.new ≡ deque_capacity runs.old) }
{
    while let Some(job) = jobs.pop_front() {
        runs.push_back_reserved(Run {
            plan: prepare(alloc, job),
            moment,
        });
    }
}
