//! The locks of a drive's files, which contracts see as one list in the order in which they were taken, and a number of
//! places that are reserved.

ghost use Rattle.std.specs.Prelude.{◌≡◌, ◌≤◌, ◌<◌, ◌+◌, ◌-◌, ◌++◌, ◌∷◌, ◌↔◌, ℕ, [], length, find, Ok, Err, Some, None, OnOk, OnErr, IfOk, IfErr};
ghost use Rattle.rd_locks.specs.Locks.{max_locks, is_in_way, wanted_locks, conflict, may_read, may_write, unlocked, released};
ghost use Rattle.rd_locks.specs.Slots.{is_sought};
ghost use Rattle.rd_locks.specs.declared.locks.LockNo.TheVariants as LockNo;

use crate::held::Held;
use crate::index::{Ends, Home, Homes, add_end, add_home, end_of, set_end};
use crate::slots::{
    Aim, Slot, first, is_in_way, leap_over, release_everywhere, release_on, unlock_on,
};
use rd_irp::Range;
use std::alloc::{AllocError, Global};
use std::collections::HashMap;
use std::marker::Model;
use thiserror::Error;

/// The most locks that stand or have their places reserved.
pub const MAX_LOCKS: usize = 65_536;

/// Why locks were not taken, or places not reserved. Nothing has changed.
#[derive(Clone, Copy, Debug, PartialEq, Eq, Error)]
pub enum LockNo {
    /// The first lock in the way, which stands or was asked for earlier in the same call.
    #[error("another lock is in the way")]
    Conflict(Held),
    #[error("at most 65,536 locks stand or have their places reserved")]
    Full,
    #[error("out of memory")]
    Memory,
}

/// The locks of a drive's files.
#[derive(Drop)]
pub struct Locks {
    alloc: Global,
    slots: Vec<Slot>,
    ends: Ends,
    homes: Homes,
    count: usize,
    reserved: usize,
}

impl Model for Locks {
    ghost use Rattle.std.specs.Prelude.{vec_capacity};
    ghost use Rattle.rd_locks.specs.Locks.{LockList};
    ghost use Rattle.rd_locks.specs.Slots.{standing};
    ghost use Rattle.rd_locks.specs.Index.{IsSoundIndex};

    ghost Value = { LockList };

    ghost view = { λ l. record { locks = standing l.slots.items; reserved = l.reserved } };

    ghost invariant = { λ l. IsSoundIndex l.slots.items l.ends l.homes l.count l.reserved (vec_capacity l.slots) };
}

impl Locks {
    /// No locks, and no places reserved.
    pub fn new(alloc: Global) -> Self
        ensures { result ≡ record { locks = []; reserved = 0 } }
    {
        Locks {
            alloc,
            slots: Vec::new(alloc),
            ends: HashMap::new(alloc),
            homes: HashMap::new(alloc),
            count: 0,
            reserved: 0,
        }
    }

    /// The first lock on the wanted one's node that is what is looked for.
    fn first(&self, aim: Aim, wanted: &Held) -> Option<Held>
        ensures { result ≡ find (is_sought aim wanted.now) self.now.locks }
    {
        let slots = self.slots.as_slice();
        let found = first(slots, end_of(&self.ends, wanted.node), aim, wanted);
        if found < slots.len() {
            return Some(slots[found].lock);
        }
        None
    }

    /// Whether a file may read a range of a node: no other file's exclusive lock overlaps it.
    pub fn may_read(&self, node: u32, file: u32, range: Range) -> bool
        ensures { result ≡ may_read self.now.locks node file range }
    {
        let wanted = Held {
            node,
            file,
            exclusive: false,
            range,
        };
        self.first(Aim::Take, &wanted).is_none()
    }

    /// Whether a file may write a range of a node: no shared lock, not even its own, and no other file's exclusive lock
    /// overlaps it.
    pub fn may_write(&self, node: u32, file: u32, range: Range) -> bool
        ensures { result ≡ may_write self.now.locks node file range }
    {
        let wanted = Held {
            node,
            file,
            exclusive: false,
            range,
        };
        self.first(Aim::Write, &wanted).is_none()
    }

    /// Lets go of a file's locks. It costs a walk over the locks of the file's node.
    pub fn release(&mut self, file: u32)
        ensures { self.new ≡ record self.old { locks = released file self.old.locks } }
    {
        let Some(home) = self.homes.remove(&file) else {
            return;
        };
        if let Home::One(node) = home {
            let end = end_of(&self.ends, node);
            let (gone, end) = release_on(self.slots.as_mut_slice(), node, end, file);
            set_end(&mut self.ends, node, end);
            self.count -= gone;
            return;
        }
        self.count -= release_everywhere(self.slots.as_mut_slice(), file);
    }

    /// Lets go of a file's locks of exactly these ranges, for each range in turn the first, or of none: then it returns the
    /// first range that matches no lock left.
    pub fn unlock(&mut self, node: u32, file: u32, ranges: &[Range]) -> Result<(), Range>
        ensures unlocked { OnOk result (unlocked node file self.old.locks ranges.now ≡ Ok self.new.locks) }
        ensures reserved { self.new.reserved ≡ self.old.reserved }
        ensures missing { IfErr result (λ range. unlocked node file self.old.locks ranges.now ≡ Err range) }
        ensures err { OnErr result (self.new ≡ self.old) }
    {
        let end = end_of(&self.ends, node);
        let end = unlock_on(self.slots.as_mut_slice(), node, end, file, ranges)?;
        set_end(&mut self.ends, node, end);
        self.count -= ranges.len();
        Ok(())
    }

    /// Takes a lock, in a place that was reserved.
    fn put(&mut self, lock: Held)
        requires { 0 < self.old.reserved }
        ensures { self.new ≡ record { locks = self.old.locks ++ lock ∷ []; reserved = self.old.reserved - 1 } }
    {
        let below = end_of(&self.ends, lock.node);
        let slot = Slot {
            lock,
            stands: true,
            linked: true,
            below,
            leap: leap_over(self.slots.as_slice(), lock.node, below, lock.range),
        };
        self.slots.push_reserved(slot);
        let end = self.slots.len();
        add_end(&mut self.ends, lock.node, end);
        add_home(&mut self.homes, lock.file, lock.node);
        self.count += 1;
        self.reserved -= 1;
    }

    /// The first lock in the way of a request, each of its ranges tested against the locks that stand and the ranges before
    /// it.
    pub fn conflict(&self, node: u32, file: u32, exclusive: bool, ranges: &[Range]) -> Option<Held>
        ensures { result ≡ conflict self.now.locks (wanted_locks node file exclusive ranges.now) }
    {
        for (i, range) in ranges.iter().enumerate() {
            let wanted = Held {
                node,
                file,
                exclusive,
                range: *range,
            };
            let held = self.first(Aim::Take, &wanted);
            if held.is_some() {
                return held;
            }
            let earlier = first_wanted(&wanted, &ranges[..i]);
            if earlier.is_some() {
                return earlier;
            }
        }
        None
    }

    /// Takes the locks of a request, in places that were reserved.
    fn put_all(&mut self, node: u32, file: u32, exclusive: bool, ranges: &[Range])
        requires { length ranges.now ≤ self.old.reserved }
        ensures { self.new ≡ record { locks = self.old.locks ++ wanted_locks node file exclusive ranges.now; reserved = self.old.reserved - length ranges.now } }
    {
        for range in ranges {
            self.put(Held {
                node,
                file,
                exclusive,
                range: *range,
            });
        }
    }

    /// How many locks stand or have their places reserved.
    fn len(&self) -> usize
        ensures len { result ≡ length self.now.locks + self.now.reserved }
        ensures few { result ≤ max_locks }
    {
        self.count + self.reserved
    }

    /// Reserves places after the slots that there are.
    fn hold(&mut self, count: usize) -> Result<(), AllocError>
        requires { length self.old.locks + self.old.reserved + count ≤ max_locks }
        ensures ok { OnOk result (self.new ≡ record self.old { reserved = self.old.reserved + count }) }
        ensures err { OnErr result (self.new ≡ self.old) }
    {
        let room = self.reserved + count;
        self.slots.reserve(room)?;
        self.ends.reserve(room)?;
        self.homes.reserve(room)?;
        self.reserved = room;
        Ok(())
    }

    /// The same locks, with places reserved besides, in slots of their own.
    fn rebuilt(&self, count: usize) -> Result<Locks, AllocError>
        requires { length self.now.locks + self.now.reserved + count ≤ max_locks }
        ensures { IfOk result (λ rebuilt. rebuilt ≡ record { locks = self.now.locks; reserved = self.now.reserved + count }) }
    {
        let mut rebuilt = Locks::new(self.alloc);
        rebuilt.hold(self.count + self.reserved + count)?;
        for slot in self.slots.as_slice() {
            if slot.stands {
                rebuilt.put(slot.lock);
            }
        }
        Ok(rebuilt)
    }

    /// Reserves places. Where most slots have no lock left, the others are moved together first.
    fn make_room(&mut self, count: usize) -> Result<(), AllocError>
        requires { length self.old.locks + self.old.reserved + count ≤ max_locks }
        ensures ok { OnOk result (self.new ≡ record self.old { reserved = self.old.reserved + count }) }
        ensures err { OnErr result (self.new ≡ self.old) }
    {
        if self.slots.len() / 2 <= self.len() + count {
            return self.hold(count);
        }
        *self = self.rebuilt(count)?;
        Ok(())
    }

    /// Takes locks on ranges of a node for a file, all or none.
    pub fn lock(
        &mut self,
        node: u32,
        file: u32,
        exclusive: bool,
        ranges: &[Range],
    ) -> Result<(), LockNo>
        ensures locked { OnOk result (self.new ≡ record self.old { locks = self.old.locks ++ wanted_locks node file exclusive ranges.now }) }
        ensures conflict { (held : Held) → (result ≡ Err (LockNo.Conflict held)) ↔ (conflict self.old.locks (wanted_locks node file exclusive ranges.now) ≡ Some held) }
        // It is tested after all conflicts.
        ensures full { (result ≡ Err LockNo.Full) ↔ ((conflict self.old.locks (wanted_locks node file exclusive ranges.now) ≡ None) × (max_locks < length self.old.locks + self.old.reserved + length ranges.now)) }
        ensures err { OnErr result (self.new ≡ self.old) }
    {
        if let Some(held) = self.conflict(node, file, exclusive, ranges) {
            return Err(LockNo::Conflict(held));
        }
        if ranges.len() > MAX_LOCKS - self.len() {
            return Err(LockNo::Full);
        }
        if self.make_room(ranges.len()).is_err() {
            return Err(LockNo::Memory);
        }
        self.put_all(node, file, exclusive, ranges);
        Ok(())
    }

    /// Reserves places for locks that are to be taken later without memory.
    pub fn reserve(&mut self, count: u32) -> Result<(), LockNo>
        ensures reserved { OnOk result (self.new ≡ record self.old { reserved = self.old.reserved + count }) }
        ensures full { (result ≡ Err LockNo.Full) ↔ (max_locks < length self.old.locks + self.old.reserved + count) }
        ensures no_conflict { (held : Held) → ¬ (result ≡ Err (LockNo.Conflict held)) }
        ensures err { OnErr result (self.new ≡ self.old) }
    {
        let count = count as usize;
        if count > MAX_LOCKS - self.len() {
            return Err(LockNo::Full);
        }
        if self.make_room(count).is_err() {
            return Err(LockNo::Memory);
        }
        Ok(())
    }

    /// Takes locks as `lock` does, in places that were reserved, or returns the first lock in the way.
    pub fn lock_reserved(
        &mut self,
        node: u32,
        file: u32,
        exclusive: bool,
        ranges: &[Range],
    ) -> Result<(), Held>
        requires { length ranges.now ≤ self.old.reserved }
        ensures locked { OnOk result (self.new ≡ record { locks = self.old.locks ++ wanted_locks node file exclusive ranges.now; reserved = self.old.reserved - length ranges.now }) }
        ensures conflict { (held : Held) → (result ≡ Err held) ↔ (conflict self.old.locks (wanted_locks node file exclusive ranges.now) ≡ Some held) }
        ensures err { OnErr result (self.new ≡ self.old) }
    {
        if let Some(held) = self.conflict(node, file, exclusive, ranges) {
            return Err(held);
        }
        self.put_all(node, file, exclusive, ranges);
        Ok(())
    }

    /// Gives back places that were reserved.
    pub fn give_back(&mut self, count: u32)
        requires { count ≤ self.old.reserved }
        ensures { self.new ≡ record self.old { reserved = self.old.reserved - count } }
    {
        self.reserved -= count as usize;
    }

    /// Gives back all places that were reserved.
    pub fn give_back_all(&mut self)
        ensures { self.new ≡ record self.old { reserved = 0 } }
    {
        self.reserved = 0;
    }
}

/// The first range in the way of a wanted lock of the same request.
fn first_wanted(wanted: &Held, ranges: &[Range]) -> Option<Held>
    ensures { result ≡ find (is_in_way wanted.now) (wanted_locks wanted.now.node wanted.now.file wanted.now.exclusive ranges.now) }
{
    for range in ranges {
        let earlier = Held {
            range: *range,
            ..*wanted
        };
        if is_in_way(wanted, &earlier) {
            return Some(earlier);
        }
    }
    None
}
