//! Desks, each behind a turn of its own.

ghost use Rattle.std.specs.Prelude.{◌≡◌, ◌<◌, ◌≤◌, ◌++◌, ◌∷◌, ℕ, List, Option, [], suc, length, map, All, IfOk, IfErr, OnOk, OnErr, slice_get, slice_index_or, slice_set};
ghost use Rattle.std.specs.List.{AllZip, zip};
ghost use Rattle.std.specs.VecDeque.{deque_capacity, deque_len};
ghost use Rattle.rd_turn.specs.Pass.{Called, after_split, first_pass, max_made, new_pass};
ghost use Rattle.rd_desk.specs.Desk.{runs_of};
ghost use Rattle.rd_pool.specs.Desks.{AllByHandBut, CameHome, DeskPass, DeskTurn, IsClosed, IsFirst, IsFresh, IsJoined, IsOther, KeepsMoment};

use crate::passes::Passes;
use rd_desk::{Desk, DeskCall, DeskReply};
use rd_drive::Device;
use rd_station::Station;
use rd_turn::{Pass, Turn};
use std::alloc::{AllocError, Global};
use std::collections::VecDeque;
use std::marker::Model;
use std::mem;
use std::sync::Wait;

/// The desks of some devices, by rising ids, each behind a turn of its own. Contracts see the ids and the turns.
#[derive(Drop)]
pub struct Desks<D: Device> {
    ids: Vec<u32>,
    pub(crate) turns: VecDeque<Turn<Desk<D>>>,
    /// Room for the stations, once they are given back.
    stations: VecDeque<Station<D>>,
}

impl<D: Device> Model for Desks<D> {
    ghost use Rattle.std.specs.Prelude.{◌≡◌, ◌≤◌, [], length};
    ghost use Rattle.std.specs.VecDeque.{deque_capacity, deque_len};
    ghost use Rattle.rd_pool.specs.Desks.{DesksState};

    ghost Value = { DesksState D };

    ghost view = { λ d. record { ids = d.ids.items; turns = d.turns.items } };

    ghost invariant = { λ d. (length d.ids.items ≡ length d.turns.items) × (d.stations.items ≡ []) × (deque_len d.turns ≤ deque_capacity d.stations) };
}

impl<D: Device + Drop> Desks<D> {
    /// No desks.
    pub fn new(alloc: Global) -> Self
        ensures { (result.ids ≡ []) × (result.turns ≡ []) }
    {
        Desks {
            ids: Vec::new(alloc),
            turns: VecDeque::new(alloc),
            stations: VecDeque::new(alloc),
        }
    }

    /// A desk with this station comes last, and its pass 0. Where there is no memory the station comes back, and nothing changes.
    pub fn add(
        &mut self,
        alloc: Global,
        passes: &mut Passes<D>,
        id: u32,
        station: Station<D>,
    ) -> Result<(), Station<D>>
        requires above { All (λ other. other < id) self.old.ids }
        requires first { AllZip IsFirst self.old.turns passes.old }
        ensures first { AllZip IsFirst self.new.turns passes.new }
        ensures added { OnOk result ((t : DeskTurn D) × (self.new ≡ record { ids = self.old.ids ++ id ∷ []; turns = self.old.turns ++ t ∷ [] }) × (t.opening ≡ station) × (passes.new ≡ passes.old ++ first_pass t ∷ [])) }
        ensures unchanged { OnErr result ((self.new ≡ self.old) × (passes.new ≡ passes.old)) }
        ensures back { IfErr result (λ back. back ≡ station) }
        ensures moments { (told : Option ℕ) → All (KeepsMoment told) passes.old → All (KeepsMoment told) passes.new }
        ensures by_hand { (number : ℕ) → All (AllByHandBut number) passes.old → All (AllByHandBut number) passes.new }
    {
        let more = self.turns.len() + 1;
        if self.ids.reserve(1).is_err()
            || self.turns.reserve(1).is_err()
            || self.stations.reserve(more).is_err()
        {
            return Err(station);
        }
        let desk = Desk::new(alloc, station)?;
        let (turn, pass) = match Turn::new(alloc, desk) {
            Ok(both) => both,
            Err(refused) => return Err(refused.object.into_station()),
        };
        if let Err(pass) = passes.add(pass) {
            return Err(turn.close(pass).into_station());
        }
        self.ids.push_reserved(id);
        self.turns.push_back_reserved(turn);
        Ok(())
    }

    /// How many desks there are.
    pub fn count(&self) -> usize
        ensures { result ≡ length self.now.turns }
    {
        self.turns.len()
    }

    /// The id of the device at a place.
    pub fn id(&self, place: usize) -> Option<u32>
        ensures { result ≡ slice_get self.now.ids place }
    {
        self.ids.get(place).copied()
    }

    /// The turn of the desk at a place.
    pub fn turn(&self, place: usize) -> &Turn<Desk<D>>
        requires { place < length self.now.turns }
        ensures { result.now ≡ slice_index_or self.now.turns place result.now }
    {
        &self.turns[place]
    }

    /// Makes a call that gives nothing back at the desk of a place, with the pass of that place. It waits for its turn.
    pub fn call<T: Wait>(
        &self,
        rt: &T,
        passes: &mut Passes<D>,
        place: usize,
        call: DeskCall,
    ) -> DeskReply
        requires place { place < length self.now.turns }
        requires others { AllZip IsOther self.now.turns passes.old }
        requires idle { runs_of call ≡ [] }
        ensures others { AllZip IsOther self.now.turns passes.new }
        ensures called { (p : DeskPass D) × (q : DeskPass D) × (slice_index_or passes.old place p ≡ p) × (passes.new ≡ slice_set passes.old place q) × Called p call result q }
        ensures moments { (told : Option ℕ) → All (KeepsMoment told) passes.old → All (KeepsMoment told) passes.new }
    {
        self.turns[place].call(rt, &mut passes.list[place], call)
    }

    /// Splits a pass from each of the passes 0. Where there is no memory nothing changes.
    pub fn split(&self, alloc: Global, passes: &mut Passes<D>) -> Result<Passes<D>, AllocError>
        requires first { AllZip IsFirst self.now.turns passes.old }
        requires few { All (λ p. p.made < max_made) passes.old }
        ensures kept { OnOk result (passes.new ≡ map after_split passes.old) }
        ensures unchanged { OnErr result (passes.new ≡ passes.old) }
        ensures given { IfOk result (λ new. new ≡ map new_pass passes.old) }
        ensures fresh { IfOk result (λ new. AllZip IsFresh self.now.turns new) }
        ensures others { IfOk result (λ new. AllZip IsOther self.now.turns new) }
        ensures moments { (told : Option ℕ) → All (KeepsMoment told) passes.old → All (KeepsMoment told) passes.new }
        ensures by_hand { (number : ℕ) → All (AllByHandBut number) passes.old → All (AllByHandBut number) passes.new }
        ensures new_moments { IfOk result (λ new. (told : Option ℕ) → All (KeepsMoment told) new) }
    {
        let mut list = VecDeque::with_capacity(alloc, passes.list.len())?;
        let room = VecDeque::with_capacity(alloc, passes.list.len())?;
        split_all(&self.turns, &mut passes.list, &mut passes.room, &mut list);
        mem::swap(&mut passes.list, &mut passes.room);
        Ok(Passes { list, room })
    }

    /// Joins other passes to the passes 0.
    pub fn join(&self, passes: &mut Passes<D>, mut others: Passes<D>)
        requires first { AllZip IsFirst self.now.turns passes.old }
        requires others { AllZip IsOther self.now.turns others }
        ensures first { AllZip IsFirst self.now.turns passes.new }
        ensures joined { AllZip IsJoined (zip passes.old others) passes.new }
        ensures home { AllZip CameHome passes.new others }
        ensures still_home { (earlier : List (DeskPass D)) → AllZip CameHome passes.old earlier → AllZip CameHome passes.new earlier }
        ensures out { map (λ p. suc p.out) passes.new ≡ map (λ p. p.out) passes.old }
        ensures moments { (told : Option ℕ) → All (KeepsMoment told) passes.old → All (KeepsMoment told) others → All (KeepsMoment told) passes.new }
        ensures by_hand { (number : ℕ) → All (AllByHandBut number) passes.old → All (AllByHandBut number) others → All (AllByHandBut number) passes.new }
    {
        join_all(
            &self.turns,
            &mut passes.list,
            &mut passes.room,
            &mut others.list,
        );
        mem::swap(&mut passes.list, &mut passes.room);
    }

    /// Gives the stations back, in the order of the desks, once all passes were joined.
    pub fn close(self, passes: Passes<D>) -> VecDeque<Station<D>>
        requires first { AllZip IsFirst self.turns passes }
        requires home { All (λ p. p.out ≡ 0) passes }
        ensures { AllZip (IsClosed D.runs D.parked D.cuts) (zip self.turns passes) result.items }
    {
        let Desks {
            turns,
            mut stations,
            ..
        } = self;
        let Passes { list, .. } = passes;
        close_all(turns, list, &mut stations);
        stations
    }
}

/// Splits a pass from each.
fn split_all<D: Device>(
    turns: &VecDeque<Turn<Desk<D>>>,
    from: &mut VecDeque<Pass<Desk<D>>>,
    to: &mut VecDeque<Pass<Desk<D>>>,
    new: &mut VecDeque<Pass<Desk<D>>>,
)
    requires first { AllZip IsFirst turns.now.items from.old.items }
    requires few { All (λ p. p.made < max_made) from.old.items }
    requires none { (to.old.items ≡ []) × (new.old.items ≡ []) }
    requires room { (deque_len from.old ≤ deque_capacity to.old) × (deque_len from.old ≤ deque_capacity new.old) }
    ensures kept { to.new.items ≡ map after_split from.old.items }
    ensures given { new.new.items ≡ map new_pass from.old.items }
    ensures fresh { AllZip IsFresh turns.now.items new.new.items }
    ensures others { AllZip IsOther turns.now.items new.new.items }
    ensures none { from.new.items ≡ [] }
    ensures capacity { (deque_capacity from.new ≡ deque_capacity from.old) × (deque_capacity new.new ≡ deque_capacity new.old) }
{
    let mut at = 0;
    while let Some(mut pass) = from.pop_front() {
        new.push_back_reserved(turns[at].split(&mut pass));
        to.push_back_reserved(pass);
        at += 1;
    }
}

/// Joins another pass to each.
fn join_all<D: Device>(
    turns: &VecDeque<Turn<Desk<D>>>,
    from: &mut VecDeque<Pass<Desk<D>>>,
    to: &mut VecDeque<Pass<Desk<D>>>,
    others: &mut VecDeque<Pass<Desk<D>>>,
)
    requires first { AllZip IsFirst turns.now.items from.old.items }
    requires others { AllZip IsOther turns.now.items others.old.items }
    requires none { to.old.items ≡ [] }
    requires room { deque_len from.old ≤ deque_capacity to.old }
    ensures joined { AllZip IsJoined (zip from.old.items others.old.items) to.new.items }
    ensures out { map (λ p. suc p.out) to.new.items ≡ map (λ p. p.out) from.old.items }
    ensures first { AllZip IsFirst turns.now.items to.new.items }
    ensures none { from.new.items ≡ [] }
    ensures len { deque_len to.new ≡ deque_len from.old }
    ensures capacity { deque_capacity from.new ≡ deque_capacity from.old }
{
    let mut at = 0;
    while let Some(mut pass) = from.pop_front() {
        let Some(other) = others.pop_front() else {
            unreachable!()
        };
        turns[at].join(&mut pass, other);
        to.push_back_reserved(pass);
        at += 1;
    }
}

/// Closes each turn.
fn close_all<D: Device + Drop>(
    mut turns: VecDeque<Turn<Desk<D>>>,
    mut passes: VecDeque<Pass<Desk<D>>>,
    stations: &mut VecDeque<Station<D>>,
)
    requires first { AllZip IsFirst turns.items passes.items }
    requires home { All (λ p. p.out ≡ 0) passes.items }
    requires none { stations.old.items ≡ [] }
    requires room { deque_len turns ≤ deque_capacity stations.old }
    ensures { AllZip (IsClosed D.runs D.parked D.cuts) (zip turns.items passes.items) stations.new.items }
{
    while let Some(turn) = turns.pop_front() {
        let Some(pass) = passes.pop_front() else {
            unreachable!()
        };
        stations.push_back_reserved(turn.close(pass).into_station());
    }
}
