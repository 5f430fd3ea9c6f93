//! A worker's hands: one at each desk.

ghost use Rattle.std.specs.Prelude.{◌≡◌, ◌≢◌, ◌<◌, ◌≤◌, ℕ, Option, [], length, map, All, IfOk, OnOk, OnErr};
ghost use Rattle.std.specs.List.{AllZip};
ghost use Rattle.std.specs.VecDeque.{deque_capacity, deque_len};
ghost use Rattle.rd_turn.specs.Pass.{after_split, max_made, new_pass};
ghost use Rattle.rd_pool.specs.Desks.{AllByHand, AllByHandBut, IsFirst, IsFresh, IsOther, KeepsMoment};

use crate::bell::Bell;
use crate::desks::Desks;
use crate::outside::Outside;
use crate::passes::Passes;
use crate::workers::work_at;
use rd_desk::{Batch, Desk, Hand};
use rd_drive::Device;
use rd_turn::{Pass, Turn};
use std::alloc::{AllocError, Global};
use std::collections::VecDeque;
use std::marker::Model;
use std::sync::Wait;

/// A hand of each of some desks, in their order: what one worker has. Contracts see a list of hands.
#[derive(Drop)]
pub struct Hands<'a, D: Device> {
    pub(crate) list: VecDeque<Hand<'a, D>>,
    /// Room for their passes, once they come home.
    home: VecDeque<Pass<Desk<D>>>,
    room: VecDeque<Pass<Desk<D>>>,
}

impl<'a, D: Device> Model for Hands<'a, D> {
    ghost use Rattle.std.specs.Prelude.{◌≡◌, ◌≢◌, ◌≤◌, List, [], All};
    ghost use Rattle.std.specs.VecDeque.{deque_capacity, deque_len};
    ghost use Rattle.rd_desk.specs.Hand.{HandState};
    ghost use Rattle.rd_pool.specs.Desks.{AllByHand};

    ghost Value = { List (HandState D) };

    ghost view = { λ h. h.list.items };

    ghost invariant = { λ h. (h.home.items ≡ []) × (h.room.items ≡ []) × (deque_len h.list ≤ deque_capacity h.home) × (deque_len h.list ≤ deque_capacity h.room) × All (λ hand. hand.pass.number ≢ 0) h.list.items × All (λ hand. AllByHand hand.pass) h.list.items };
}

impl<'a, D: Device + Drop> Hands<'a, D> {
    /// A hand of each desk, with passes that are split from the passes 0. Where there is no memory nothing changes.
    pub fn new(
        alloc: Global,
        desks: &'a Desks<D>,
        passes: &mut Passes<D>,
    ) -> Result<Hands<'a, D>, AllocError>
        requires first { AllZip IsFirst desks.now.turns passes.old }
        requires few { All (λ p. p.made < max_made) passes.old }
        ensures kept { OnOk result (passes.new ≡ map after_split passes.old) }
        ensures unchanged { OnErr result (passes.new ≡ passes.old) }
        ensures turns { IfOk result (λ hands. map (λ hand. hand.turn) hands ≡ desks.now.turns) }
        ensures given { IfOk result (λ hands. map (λ hand. hand.pass) hands ≡ map new_pass passes.old) }
        ensures moments { (told : Option ℕ) → All (KeepsMoment told) passes.old → All (KeepsMoment told) passes.new }
        ensures by_hand { (number : ℕ) → All (AllByHandBut number) passes.old → All (AllByHandBut number) passes.new }
        ensures new_moments { IfOk result (λ hands. (told : Option ℕ) → All (KeepsMoment told) (map (λ hand. hand.pass) hands)) }
    {
        let mut list = VecDeque::with_capacity(alloc, passes.list.len())?;
        let Passes {
            list: mut home,
            room,
        } = desks.split(alloc, passes)?;
        take_all(&desks.turns, &mut home, &mut list);
        Ok(Hands { list, home, room })
    }

    /// Works at the desk of a place until nothing is given there. After each call of the desk it rings the bell for the place where jobs are left, so that
    /// another hand comes, and the writer's bell where a completion can be collected. A worker does this wherever its bell says; the reader may do
    /// it too, where no thread works or one job came alone.
    pub fn work<T: Wait, X: Outside>(
        &mut self,
        rt: &T,
        outside: &X,
        bell: &Bell,
        writer: &Bell,
        place: usize,
        batch: Batch,
    ) -> Batch
        requires none { batch ≡ [] }
        requires place { (place < length self.old) × (place < bell.now) × (place < writer.now) }
        ensures none { result ≡ [] }
        ensures turns { map (λ hand. hand.turn) self.new ≡ map (λ hand. hand.turn) self.old }
        ensures moments { All (KeepsMoment (X.moment outside.now)) (map (λ hand. hand.pass) self.old) → All (KeepsMoment (X.moment outside.now)) (map (λ hand. hand.pass) self.new) }
    {
        work_at(
            rt,
            outside,
            bell,
            writer,
            place,
            &mut self.list[place],
            batch,
        )
    }

    /// The passes, so that they can be joined.
    pub fn into_passes(self) -> Passes<D>
        ensures same { result ≡ map (λ hand. hand.pass) self.entry }
        ensures others { AllZip IsOther (map (λ hand. hand.turn) self.entry) result }
        ensures by_hand { (number : ℕ) → All (AllByHandBut number) result }
    {
        let Hands {
            list,
            mut home,
            room,
        } = self;
        leave_all(list, &mut home);
        Passes { list: home, room }
    }
}

/// A hand for each pass.
fn take_all<'a, D: Device>(
    turns: &'a VecDeque<Turn<Desk<D>>>,
    passes: &mut VecDeque<Pass<Desk<D>>>,
    hands: &mut VecDeque<Hand<'a, D>>,
)
    requires fresh { AllZip IsFresh turns.now.items passes.old.items }
    requires none { hands.old.items ≡ [] }
    requires room { deque_len passes.old ≤ deque_capacity hands.old }
    ensures turns { map (λ hand. hand.turn) hands.new.items ≡ turns.now.items }
    ensures passes { map (λ hand. hand.pass) hands.new.items ≡ passes.old.items }
    ensures others { All (λ hand. hand.pass.number ≢ 0) hands.new.items }
    ensures by_hand { All (λ hand. AllByHand hand.pass) hands.new.items }
    ensures none { passes.new.items ≡ [] }
    ensures capacity { deque_capacity passes.new ≡ deque_capacity passes.old }
{
    let mut at = 0;
    while let Some(pass) = passes.pop_front() {
        hands.push_back_reserved(Hand::new(&turns[at], pass));
        at += 1;
    }
}

/// The pass of each hand.
fn leave_all<'a, D: Device>(mut hands: VecDeque<Hand<'a, D>>, passes: &mut VecDeque<Pass<Desk<D>>>)
    requires others { All (λ hand. hand.pass.number ≢ 0) hands.items }
    requires none { passes.old.items ≡ [] }
    requires room { deque_len hands ≤ deque_capacity passes.old }
    ensures same { passes.new.items ≡ map (λ hand. hand.pass) hands.entry.items }
    ensures passes { AllZip IsOther (map (λ hand. hand.turn) hands.entry.items) passes.new.items }
    ensures capacity { deque_capacity passes.new ≡ deque_capacity passes.old }
    ensures len { deque_len passes.new ≡ deque_len hands.entry }
{
    while let Some(hand) = hands.pop_front() {
        passes.push_back_reserved(hand.into_pass());
    }
}
