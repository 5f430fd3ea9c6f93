//! Passes of desks, in the order of the desks.

ghost use Rattle.std.specs.Prelude.{◌≡◌, ◌<◌, ◌+◌, ◌++◌, ◌∷◌, [], IfErr, IfNone, IfOk, OnErr, OnOk};
ghost use Rattle.std.specs.Option.{option_to_list};

use rd_desk::Desk;
use rd_drive::Device;
use rd_turn::Pass;
use std::alloc::{AllocError, Global};
use std::collections::VecDeque;
use std::marker::Model;

/// A pass of each of some desks, in their order. Contracts see a list of passes.
#[derive(Drop)]
pub struct Passes<D: Device> {
    pub(crate) list: VecDeque<Pass<Desk<D>>>,
    /// As much room again, through which the passes go while each of them changes.
    pub(crate) room: VecDeque<Pass<Desk<D>>>,
}

impl<D: Device> Model for Passes<D> {
    ghost use Rattle.std.specs.Prelude.{◌≡◌, ◌≤◌, List, []};
    ghost use Rattle.std.specs.VecDeque.{deque_capacity, deque_len};
    ghost use Rattle.rd_pool.specs.Desks.{DeskPass};

    ghost Value = { List (DeskPass D) };

    ghost view = { λ p. p.list.items };

    ghost invariant = { λ p. (p.room.items ≡ []) × (deque_len p.list ≤ deque_capacity p.room) };
}

impl<D: Device> Passes<D> {
    /// No passes.
    pub fn new(alloc: Global) -> Self
        ensures { result ≡ [] }
    {
        Passes {
            list: VecDeque::new(alloc),
            room: VecDeque::new(alloc),
        }
    }

    /// The first pass, without the others.
    pub fn next(&mut self) -> Option<Pass<Desk<D>>>
        ensures first { self.old ≡ option_to_list result ++ self.new }
        ensures none { IfNone result (self.old ≡ []) }
    {
        self.list.pop_front()
    }

    /// Puts a pass after the others. Where there is no memory it comes back.
    pub fn add(&mut self, pass: Pass<Desk<D>>) -> Result<(), Pass<Desk<D>>>
        ensures added { OnOk result (self.new ≡ self.old ++ pass ∷ []) }
        ensures unchanged { OnErr result (self.new ≡ self.old) }
        ensures back { IfErr result (λ back. back ≡ pass) }
    {
        let more = self.list.len() + 1;
        if self.list.reserve(1).is_err() || self.room.reserve(more).is_err() {
            return Err(pass);
        }
        self.list.push_back_reserved(pass);
        Ok(())
    }
}

/// Passes that come home one after another, with room for those that are still to come. Contracts see a `HomecomingState`.
#[derive(Drop)]
pub struct Homecoming<D: Device> {
    list: VecDeque<Pass<Desk<D>>>,
    room: VecDeque<Pass<Desk<D>>>,
    /// How many are still to come.
    to_come: usize,
}

impl<D: Device> Model for Homecoming<D> {
    ghost use Rattle.std.specs.Prelude.{◌≡◌, ◌≤◌, ◌+◌, []};
    ghost use Rattle.std.specs.VecDeque.{deque_capacity, deque_len};
    ghost use Rattle.rd_pool.specs.Desks.{HomecomingState};

    ghost Value = { HomecomingState D };

    ghost view = { λ h. record { home = h.list.items; to_come = h.to_come } };

    ghost invariant = { λ h. (h.room.items ≡ []) × (deque_len h.list + h.to_come ≤ deque_capacity h.list) × (deque_len h.list + h.to_come ≤ deque_capacity h.room) };
}

impl<D: Device> Homecoming<D> {
    /// With room for so many passes, of which none has come.
    pub fn new(alloc: Global, count: usize) -> Result<Self, AllocError>
        ensures { IfOk result (λ h. (h.home ≡ []) × (h.to_come ≡ count)) }
    {
        Ok(Homecoming {
            list: VecDeque::with_capacity(alloc, count)?,
            room: VecDeque::with_capacity(alloc, count)?,
            to_come: count,
        })
    }

    /// Puts a pass after those that came.
    pub fn add(&mut self, pass: Pass<Desk<D>>)
        requires { 0 < self.old.to_come }
        ensures home { self.new.home ≡ self.old.home ++ pass ∷ [] }
        ensures to_come { self.new.to_come + 1 ≡ self.old.to_come }
    {
        self.list.push_back_reserved(pass);
        self.to_come -= 1;
    }

    /// Those that came.
    pub fn finish(self) -> Passes<D>
        ensures { result ≡ self.home }
    {
        let Homecoming { list, room, .. } = self;
        Passes { list, room }
    }
}
