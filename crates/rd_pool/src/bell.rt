//! The bell: whom to wake.

ghost use Rattle.std.specs.Prelude.{◌≡◌, ◌<◌, ◌≤◌, IfOk, IfSome};
ghost use Rattle.std.specs.VecDeque.{deque_capacity};

use std::alloc::{AllocError, Global};
use std::collections::VecDeque;
use std::marker::Model;
use std::sync::{Condvar, Mutex, Wait};

/// The places that are to be looked at, in the order in which they were rung for, each at most once, and who waits for them.
#[derive(Drop)]
struct Rung {
    places: VecDeque<usize>,
    count: usize,
    over: bool,
    /// Whether somebody has a claim, so that nobody is given a place.
    claimed: bool,
    /// How many sleep.
    asleep: usize,
    /// Whether anybody has ever waited.
    heard: bool,
    ghost room: { count ≤ deque_capacity places },
}

impl Rung {
    /// Whether somebody is to be woken: the place wasn't among them, and nobody has a claim. As all are different and below the count there is room
    /// for it then.
    fn note(&mut self, place: usize) -> bool {
        if self.places.contains(&place) || self.places.len() >= self.count {
            return false;
        }
        self.places.push_back_reserved(place);
        !self.claimed
    }

    /// Whether whoever waits is to sleep.
    fn rests(&self) -> bool {
        !self.over && (self.claimed || self.places.is_empty())
    }

    /// Somebody comes, and may sleep.
    fn come(&mut self) {
        self.asleep = self.asleep.wrapping_add(1);
        self.heard = true;
    }

    /// Whoever came sleeps no more, and is given the place that was rung for first.
    fn leave(&mut self) -> Option<usize> {
        self.asleep = self.asleep.wrapping_sub(1);
        self.next()
    }

    /// The place that was rung for first, unless somebody has a claim.
    fn next(&mut self) -> Option<usize> {
        if self.over || self.claimed {
            return None;
        }
        self.places.pop_front()
    }

    /// Whether there is a claim now that wasn't there.
    fn claim(&mut self) -> bool {
        if self.over || self.claimed || self.asleep == 0 || !self.places.is_empty() {
            return false;
        }
        self.claimed = true;
        true
    }

    /// There is no claim. Whether somebody is to be woken.
    fn release(&mut self) -> bool {
        self.claimed = false;
        !self.places.is_empty()
    }

    fn end(&mut self) {
        self.over = true;
    }

    fn begin(&mut self) {
        self.places.clear();
        self.over = false;
    }
}

/// Says which of so many places are to be looked at, to those that sleep at it. Contracts see how many places there are.
///
/// Nothing is promised of who is woken, or when: of a place that is given no more than that it is below the count.
#[derive(Drop)]
pub struct Bell {
    count: usize,
    rung: Mutex<Rung>,
    sleepers: Condvar,
}

impl Model for Bell {
    ghost use Rattle.std.specs.Prelude.{ℕ};

    ghost Value = { ℕ };

    ghost view = { λ b. b.count };
}

impl Bell {
    /// A bell that wasn't rung, for so many places.
    pub fn new(alloc: Global, count: usize) -> Result<Self, AllocError>
        ensures { IfOk result (λ bell. bell ≡ count) }
    {
        let places = VecDeque::with_capacity(alloc, count)?;
        Ok(Bell {
            count,
            rung: Mutex::new(Rung {
                places,
                count,
                over: false,
                claimed: false,
                asleep: 0,
                heard: false,
            }),
            sleepers: Condvar::new(),
        })
    }

    /// How many places there are.
    pub fn count(&self) -> usize
        ensures { result ≡ self.now }
    {
        self.count
    }

    /// The place is to be looked at: one of those that sleep is woken, unless the place was still to be looked at or somebody has a claim. It takes no
    /// memory.
    pub fn ring<T: Wait>(&self, rt: &T, place: usize)
        requires { place < self.now }
    {
        if self.rung.lock(rt).note(place) {
            self.sleepers.notify_one();
        }
    }

    /// The place that is to be looked at next, or None once the bell is over. Where there is none, or somebody has a claim, it sleeps.
    pub fn wait<T: Wait>(&self, rt: &T) -> Option<usize>
        ensures { IfSome result (λ place. place < self.now) }
    {
        let mut rung = self.rung.lock(rt);
        rung.come();
        let next = self
            .sleepers
            .wait_while(rt, rung, |rung| rung.rests())
            .leave();
        self.within(next)
    }

    /// The place that is to be looked at next, if there is one and nobody has a claim. It doesn't sleep.
    pub fn try_next<T: Wait>(&self, rt: &T) -> Option<usize>
        ensures { IfSome result (λ place. place < self.now) }
    {
        let next = self.rung.lock(rt).next();
        self.within(next)
    }

    /// All places that were rung for are below the count.
    fn within(&self, next: Option<usize>) -> Option<usize>
        ensures { IfSome result (λ place. place < self.now) }
    {
        match next {
            Some(place) if place < self.count => Some(place),
            _ => None,
        }
    }

    /// Whether this is a claim: somebody sleeps at the bell, nothing is rung for, it isn't over, and nobody has a claim. Then nobody is given a place
    /// until `release`. Where only one thread waits at the bell, whoever has a claim does what that one would do.
    pub fn claim<T: Wait>(&self, rt: &T) -> bool {
        self.rung.lock(rt).claim()
    }

    /// Ends the claim, which the caller has: one of those that sleep is woken where a place was rung for meanwhile.
    pub fn release<T: Wait>(&self, rt: &T) {
        if self.rung.lock(rt).release() {
            self.sleepers.notify_one();
        }
    }

    /// Whether somebody sleeps at the bell now.
    pub fn has_sleeper<T: Wait>(&self, rt: &T) -> bool {
        self.rung.lock(rt).asleep > 0
    }

    /// Whether anybody has ever waited at the bell.
    pub fn was_heard<T: Wait>(&self, rt: &T) -> bool {
        self.rung.lock(rt).heard
    }

    /// The bell is over: all that sleep are woken, also where somebody has a claim, and nobody is given a place any more.
    pub fn close<T: Wait>(&self, rt: &T) {
        self.rung.lock(rt).end();
        self.sleepers.notify_all();
    }

    /// Nothing is rung for, and the bell isn't over. Whoever slept when it was closed and hasn't left yet sleeps on. A claim stays.
    pub fn open<T: Wait>(&self, rt: &T) {
        self.rung.lock(rt).begin();
    }
}
