//! The slots of a table, by completion id, and which of them are free.

ghost use Rattle.std.specs.Prelude.{◌≡◌, ◌<◌, [], map, length, None, IfOk, MatchOption};
ghost use Rattle.std.specs.BTreeMap.{insert_entry, is_at};
ghost use Rattle.std.specs.Map.{lookup, remove_entry};
ghost use Rattle.std.specs.Option.{option_map};
ghost use Rattle.std.specs.Ordering.{nat_cmp};
ghost use Rattle.rd_pending.specs.Slots.{died, place_at, slot_of, AreAllMarked, IsLeastUnmarked, SetsMark};
ghost use Rattle.rd_pending.specs.Table.{dead_of, free_from, max_slots};

use rd_irp::Kind;
use std::alloc::{AllocError, Global};
use std::marker::Model;

/// The most slots that are held; a completion id is below it.
pub const MAX_SLOTS: usize = 1024;

/// The words in which a bit says of each slot whether it is held.
const WORDS: usize = 16;

/// What a completion id stands for.
#[derive(Clone, Copy, Debug)]
pub struct Held {
    /// Of the request.
    pub number: u64,
    pub device: u32,
    /// Of the completion.
    pub kind: Kind,
    /// The request was lost before its completion came.
    pub dead: bool,
}

/// The slots. Contracts see those that are held, by their completion ids.
#[derive(Debug, Drop)]
pub struct Slots {
    places: Vec<Option<Held>>,
    /// Bit `i % 64` of word `i / 64` says whether slot `i` is held.
    marks: [u64; WORDS],
}

impl Model for Slots {
    ghost use Rattle.std.specs.Prelude.{ℕ, List};
    ghost use Rattle.rd_pending.specs.Table.{Slot};

    ghost Value = { List (ℕ × Slot) };

    ghost use Rattle.rd_pending.specs.Slots.{held_from, AreMarked};

    ghost view = { λ s. held_from 0 s.places.items };

    ghost invariant = { λ s. AreMarked s.marks s.places.items };
}

impl Slots {
    /// Slots of which none is held.
    pub fn new(alloc: Global) -> Result<Self, AllocError>
        ensures { IfOk result (λ slots. slots ≡ []) }
    {
        Ok(Slots {
            places: vec![in alloc; None; MAX_SLOTS]?,
            marks: [0; WORDS],
        })
    }

    /// The least completion id that is free.
    pub fn least_free(&self) -> Option<u32>
        ensures { MatchOption result (length self.now ≡ max_slots) (λ id. (id ≡ free_from 0 self.now) × (id < max_slots) × (length self.now < max_slots)) }
    {
        least_unmarked(&self.marks)
    }

    /// The slot with a completion id, if it is held.
    pub fn get(&self, id: u32) -> Option<Held>
        ensures { option_map slot_of result ≡ lookup (is_at (nat_cmp id)) self.now }
    {
        place(&self.places, id)
    }

    /// Holds the slot with a completion id.
    pub fn hold(&mut self, id: u32, held: Held)
        requires { id < max_slots }
        ensures { self.new ≡ insert_entry nat_cmp self.old id (slot_of held) }
    {
        self.places[id as usize] = Some(held);
        mark(&mut self.marks, id);
    }

    /// The slot with a completion id is free from now on.
    pub fn free(&mut self, id: u32)
        ensures { self.new ≡ remove_entry (is_at (nat_cmp id)) self.old }
    {
        if (id as usize) < MAX_SLOTS {
            self.places[id as usize] = None;
            unmark(&mut self.marks, id);
        }
    }

    /// The slots of a device are dead from now on.
    pub fn kill(&mut self, device: u32)
        ensures { self.new ≡ map (dead_of device) self.old }
    {
        kill_all(&mut self.places, device);
    }

    /// All slots are free from now on.
    pub fn clear(&mut self)
        ensures { self.new ≡ [] }
    {
        self.places.fill(None);
        self.marks = [0; WORDS];
    }
}

/// What a place holds, if it is there and holds something.
fn place(places: &[Option<Held>], id: u32) -> Option<Held>
    ensures { result ≡ place_at places.now id }
{
    *places.get(id as usize)?
}

/// Lets what is of a device be dead.
fn kill_all(places: &mut [Option<Held>], device: u32)
    ensures { places.new ≡ map (died device) places.old }
{
    for place in places.iter_mut() {
        *place = died(*place, device);
    }
}

/// What a place holds is dead, if it is of a device.
fn died(place: Option<Held>, device: u32) -> Option<Held>
    ensures { result ≡ died device place }
{
    let held = place?;
    if held.device == device {
        return Some(Held { dead: true, ..held });
    }
    Some(held)
}

/// The least place that isn't marked.
fn least_unmarked(marks: &[u64; WORDS]) -> Option<u32>
    ensures { MatchOption result (AreAllMarked marks.now) (IsLeastUnmarked marks.now) }
{
    for (word, mark) in marks.iter().enumerate() {
        let bit = mark.trailing_ones();
        if bit < 64 {
            return Some(64 * word as u32 + bit);
        }
    }
    None
}

/// Marks a place.
fn mark(marks: &mut [u64; WORDS], id: u32)
    requires { id < max_slots }
    ensures { SetsMark marks.old marks.new id 1 }
{
    marks[id as usize / 64] |= 1 << (id % 64);
}

/// Takes the mark of a place away.
fn unmark(marks: &mut [u64; WORDS], id: u32)
    requires { id < max_slots }
    ensures { SetsMark marks.old marks.new id 0 }
{
    marks[id as usize / 64] &= !(1 << (id % 64));
}
