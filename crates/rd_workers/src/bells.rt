//! Whom a client wakes.

ghost use Rattle.std.specs.Prelude.{◌≡◌, IfOk};

use crate::places::{MAX_PLACES, Places};
use rd_pool::Bell;
use std::alloc::{AllocError, Global};
use std::marker::Model;
use std::sync::Wait;

/// The bells of a client with so many desks. The workers have a place for each desk. The writer has one more, for the messages of the core. Contracts see
/// how many desks there are.
#[derive(Drop)]
pub(crate) struct Bells {
    pub(crate) workers: Bell,
    pub(crate) writer: Bell,
    /// Rung in the workers' and the writer's place where the reader works itself. Nobody sleeps at it.
    pub(crate) reader: Bell,
}

impl Model for Bells {
    ghost use Rattle.std.specs.Prelude.{◌≡◌, ℕ, suc};

    ghost Value = { ℕ };

    ghost view = { λ b. b.workers };

    ghost invariant = { λ b. (b.writer ≡ suc b.workers) × (b.reader ≡ suc b.workers) };
}

impl Bells {
    pub(crate) fn new(alloc: Global, desks: usize) -> Result<Self, AllocError>
        ensures { IfOk result (λ bells. bells ≡ desks) }
    {
        let Some(places) = desks.checked_add(1) else {
            return Err(AllocError);
        };
        Ok(Bells {
            workers: Bell::new(alloc, desks)?,
            writer: Bell::new(alloc, places)?,
            reader: Bell::new(alloc, places)?,
        })
    }

    /// How many desks there are: the place of the core's messages, after theirs.
    pub(crate) fn desks(&self) -> usize
        ensures { result ≡ self.now }
    {
        self.workers.count()
    }

    /// A worker is to look at each of these desks, and the writer at each of those places.
    pub(crate) fn ring_all<T: Wait>(&self, rt: &T, desks: Places, ready: Places) {
        ring_at(rt, &self.workers, desks);
        ring_at(rt, &self.writer, ready);
    }

    /// Whether a worker, and the writer, came to their bells. Where no thread can be made they come last.
    pub(crate) fn are_heard<T: Wait>(&self, rt: &T) -> bool {
        self.workers.was_heard(rt) && self.writer.was_heard(rt)
    }

    /// A channel begins: the writer may be rung for.
    pub(crate) fn open_writer<T: Wait>(&self, rt: &T) {
        self.writer.open(rt);
    }

    /// True where the writer sleeps and has nothing to do. It is given nothing then, until it is released.
    pub(crate) fn claim_writer<T: Wait>(&self, rt: &T) -> bool {
        self.writer.claim(rt)
    }

    pub(crate) fn release_writer<T: Wait>(&self, rt: &T) {
        self.writer.release(rt);
    }

    /// The session is over: the workers and the writer leave.
    pub(crate) fn close<T: Wait>(&self, rt: &T) {
        self.workers.close(rt);
        self.writer.close(rt);
    }
}

/// Rings for each of these places that the bell has.
fn ring_at<T: Wait>(rt: &T, bell: &Bell, places: Places) {
    let mut places = places;
    for _ in 0..MAX_PLACES {
        let Some(place) = places.next() else { break };
        if place < bell.count() {
            bell.ring(rt, place);
        }
    }
}
