//! Whom a host wakes: whoever awaits the outcome of a number, and whoever sends what is asked for.

use std::alloc::{AllocError, Global};
use std::sync::{Condvar, Mutex, Wait};

/// How many places there are where applications sleep: one for each that a host has at most.
const PLACES: u64 = 64;

/// How often it was rung for at a place, and how many sleep there.
#[derive(Clone, Copy)]
struct Rung {
    times: u64,
    asleep: u64,
}

impl Rung {
    /// It is rung for once more. Whether somebody is to be woken.
    fn ring(&mut self) -> bool {
        self.times = self.times.wrapping_add(1);
        self.asleep > 0
    }

    fn come(&mut self) {
        self.asleep = self.asleep.wrapping_add(1);
    }

    fn leave(&mut self) {
        self.asleep = self.asleep.wrapping_sub(1);
    }
}

/// A place where threads sleep until it is rung for.
#[derive(Drop)]
struct Place {
    rung: Mutex<Rung>,
    woken: Condvar,
}

impl Place {
    fn new() -> Self {
        Place {
            rung: Mutex::new(Rung {
                times: 0,
                asleep: 0,
            }),
            woken: Condvar::new(),
        }
    }

    fn rung<T: Wait>(&self, rt: &T) -> u64 {
        self.rung.lock(rt).times
    }

    /// All that sleep here are woken.
    fn ring<T: Wait>(&self, rt: &T) {
        if self.rung.lock(rt).ring() {
            self.woken.notify_all();
        }
    }

    /// Sleeps until it was rung more than so many times.
    fn wait<T: Wait>(&self, rt: &T, times: u64) {
        let mut rung = self.rung.lock(rt);
        rung.come();
        self.woken
            .wait_while(rt, rung, |now| now.times == times)
            .leave();
    }
}

/// The places where the threads of a host sleep: the applications until the outcome of a number may be there, where numbers that are 64 apart have the same place; the one that sends
/// until a request was submitted; and those that wait for how the channel stands, until devices came or went, messages were sent, or the channel ended.
///
/// Nothing is promised of who is woken, or when: whoever is looks again. Who first reads how often it was rung, then looks, and then waits, misses nothing.
#[derive(Drop)]
pub struct Sleepers {
    outcomes: Vec<Place>,
    requests: Place,
    changes: Place,
}

impl Sleepers {
    /// Places where nobody sleeps.
    pub fn new(alloc: Global) -> Result<Self, AllocError> {
        let mut outcomes = Vec::new(alloc);
        for _ in 0..PLACES {
            outcomes.push(Place::new())?;
        }
        Ok(Sleepers {
            outcomes,
            requests: Place::new(),
            changes: Place::new(),
        })
    }

    /// How often it was rung so far for the outcome of a number.
    pub fn outcomes<T: Wait>(&self, rt: &T, number: u64) -> u64 {
        match self.place_of(number) {
            Some(place) => place.rung(rt),
            None => 0,
        }
    }

    /// Sleeps until it was rung more often for the outcome of a number.
    pub fn wait_for_outcome<T: Wait>(&self, rt: &T, number: u64, times: u64) {
        if let Some(place) = self.place_of(number) {
            place.wait(rt, times);
        }
    }

    /// The outcome of a number may be there: whoever waits for it is woken.
    pub fn ring_outcome<T: Wait>(&self, rt: &T, number: u64) {
        if let Some(place) = self.place_of(number) {
            place.ring(rt);
        }
    }

    /// Any outcome may be there: all that wait for one are woken.
    pub fn ring_outcomes<T: Wait>(&self, rt: &T) {
        for place in &self.outcomes {
            place.ring(rt);
        }
    }

    /// How often it was rung so far for something to send.
    pub fn requests<T: Wait>(&self, rt: &T) -> u64 {
        self.requests.rung(rt)
    }

    /// Sleeps until it was rung more often for something to send.
    pub fn wait_for_request<T: Wait>(&self, rt: &T, times: u64) {
        self.requests.wait(rt, times);
    }

    /// Something is to be sent: whoever sends is woken.
    pub fn ring_request<T: Wait>(&self, rt: &T) {
        self.requests.ring(rt);
    }

    /// How often it was rung so far for a change of the channel.
    pub fn changes<T: Wait>(&self, rt: &T) -> u64 {
        self.changes.rung(rt)
    }

    /// Sleeps until it was rung more often for a change of the channel.
    pub fn wait_for_change<T: Wait>(&self, rt: &T, times: u64) {
        self.changes.wait(rt, times);
    }

    /// The channel stands otherwise than before: all that wait for that are woken.
    pub fn ring_change<T: Wait>(&self, rt: &T) {
        self.changes.ring(rt);
    }

    fn place_of(&self, number: u64) -> Option<&Place> {
        self.outcomes.get((number % PLACES) as usize)
    }
}
