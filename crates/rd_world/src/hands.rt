//! The hands of a session's client, and which of them hold a job.
//!
//! Cost: a hand is found at once; after each call two bits are marked. `new` alone takes memory.

ghost use Rattle.std.specs.Prelude.{◌≡◌, ◌+◌, ◌≤◌, IsTrue, length, replicate, None, OnOk, IfOk, Some};
ghost use Rattle.std.specs.Option.{option_and_then};
ghost use Rattle.rd_world.specs.Bits.{Marks, has, where_holds};
ghost use Rattle.rd_world.specs.Hands.{hand_in, hands_with, is_free_hand, is_full_hand};

use crate::bits::Bits;
use rd_drive::Job;
use std::alloc::{AllocError, Global};
use std::marker::Model;

/// The most hands.
pub const MAX_HANDS: u32 = 16;

/// The hands of a session's client, 1 to 16, counted from 1. Contracts see what each holds: a device and its job, or nothing.
#[derive(Drop)]
pub struct Hands {
    list: Vec<Option<(u32, Job)>>,
    /// The places of the hands that hold nothing, each its number less one.
    free: Bits,
    /// The places of those that hold a job.
    full: Bits,
}

impl Model for Hands {
    ghost use Rattle.std.specs.Prelude.{ℕ, List, Option};
    ghost use Rattle.rd_drive.specs.declared.plan.Job.{Job};
    ghost use Rattle.rd_world.specs.Hands.{KeepsHands};

    ghost Value = { List (Option (ℕ × Job)) };

    ghost view = { λ h. h.list.items };

    ghost invariant = { λ h. KeepsHands h.list.items h.free h.full };
}

impl Hands {
    /// So many hands, which hold nothing.
    pub fn new(alloc: Global, count: u32) -> Result<Self, AllocError>
        requires some { 1 ≤ count }
        requires few { count ≤ MAX_HANDS }
        ensures { IfOk result (λ made. made ≡ replicate count None) }
    {
        let mut list = Vec::new(alloc);
        let mut free = Bits::new();
        for place in 0..count {
            list.push(None)?;
            free.mark(place, true);
        }
        Ok(Hands {
            list,
            free,
            full: Bits::new(),
        })
    }

    /// How many hands there are.
    pub fn len(&self) -> u32
        ensures count { result ≡ length self.now }
        ensures some { 1 ≤ result }
        ensures few { result ≤ MAX_HANDS }
    {
        self.list.len() as u32
    }

    /// The places of the hands that hold nothing, each its number less one.
    pub fn free(&self) -> &Bits
        ensures places { where_holds (has result.now) 64 ≡ where_holds (λ place. is_free_hand self.now (place + 1)) 64 }
        ensures marks { Marks result.now (λ place. is_free_hand self.now (place + 1)) 64 }
        ensures few { length self.now ≤ MAX_HANDS }
    {
        &self.free
    }

    /// The places of the hands that hold a job, each its number less one.
    pub fn full(&self) -> &Bits
        ensures places { where_holds (has result.now) 64 ≡ where_holds (λ place. is_full_hand self.now (place + 1)) 64 }
        ensures marks { Marks result.now (λ place. is_full_hand self.now (place + 1)) 64 }
    {
        &self.full
    }

    /// Whether there is such a hand and it holds nothing.
    pub fn is_free(&self, hand: u32) -> bool
        ensures { result ≡ is_free_hand self.now hand }
    {
        1 <= hand && hand <= MAX_HANDS && self.free.has(hand - 1)
    }

    /// Whether there is such a hand and it holds a job.
    pub fn is_full(&self, hand: u32) -> bool
        ensures { result ≡ is_full_hand self.now hand }
    {
        1 <= hand && hand <= MAX_HANDS && self.full.has(hand - 1)
    }

    /// What a hand holds is taken out of it.
    pub fn take(&mut self, hand: u32) -> Option<(u32, Job)>
        requires first { 1 ≤ hand }
        requires last { hand ≤ length self.old }
        ensures held { result ≡ option_and_then (λ held. held) (hand_in self.old hand) }
        ensures empty { self.new ≡ hands_with self.old hand None }
    {
        let place = hand - 1;
        self.free.mark(place, true);
        self.full.mark(place, false);
        self.list[place as usize].take()
    }

    /// A job of a device goes into a hand that holds nothing.
    pub fn put(&mut self, hand: u32, device: u32, job: Job)
        requires { IsTrue (is_free_hand self.old hand) }
        ensures { self.new ≡ hands_with self.old hand (Some (device, job)) }
    {
        let place = hand - 1;
        self.free.mark(place, false);
        self.full.mark(place, true);
        self.list[place as usize] = Some((device, job));
    }
}
