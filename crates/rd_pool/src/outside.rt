//! What a worker does with jobs outside of the turn.

ghost use Rattle.std.specs.Prelude.{◌≡◌, ℕ, Option, All};
ghost use Rattle.rd_desk.specs.Batch.{jobs_of};
ghost use Rattle.rd_desk.specs.Own.{HasMoment};

use rd_desk::{Batch, Worked};
use rd_link::{Clock, Gate};
use std::alloc::Global;

/// What a worker does between taking jobs and running them, while others use the desk.
pub trait Outside {
    /// The moment at which all are to be run, where there is only one and it can be told.
    ghost moment: { Self → Option ℕ };

    /// The jobs that were given at the desk of this place become plans, each with the moment at which it is to be run. It may hold the worker up.
    fn batch(&self, place: usize, worked: Worked) -> Batch
        ensures jobs { jobs_of result ≡ worked.jobs }
        ensures moments { All (HasMoment (moment self.now)) result };
}

/// Holds nobody up: the jobs are to be run at the moment that the clock then tells.
#[derive(Drop)]
pub struct AtOnce<C> {
    pub alloc: Global,
    pub clock: C,
}

impl<C: Clock> Outside for AtOnce<C> {
    ghost moment = { λ o. C.moment o.clock };

    fn batch(&self, _place: usize, worked: Worked) -> Batch {
        let moment = self.clock.now();
        worked.into_batch(self.alloc, moment)
    }
}

/// Each job passes the gate, in the order in which they were given; then all are to be run at the moment that the clock tells. Where no job was given
/// neither is asked.
#[derive(Drop)]
pub struct AfterGate<'a, C, G> {
    pub alloc: Global,
    pub clock: &'a C,
    pub gate: &'a G,
}

impl<'a, C: Clock, G: Gate> Outside for AfterGate<'a, C, G> {
    ghost moment = { λ o. C.moment o.clock.now };

    fn batch(&self, _place: usize, worked: Worked) -> Batch {
        let mut moment = 0;
        if worked.count() > 0 {
            pass_all(self.gate, &worked);
            moment = self.clock.now();
        }
        worked.into_batch(self.alloc, moment)
    }
}

/// Passes the gate for the key of each job that was given, in their order.
fn pass_all<G: Gate>(gate: &G, worked: &Worked) {
    for place in 0..worked.count() {
        if let Some(key) = worked.key(place) {
            gate.pass(key);
        }
    }
}
