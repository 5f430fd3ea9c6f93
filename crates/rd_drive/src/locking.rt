//! Locks on ranges of a file, and requests that wait for them or for a change (MS-RDPEFS 2.2.3.3.11, 2.2.3.3.12).

ghost use Rattle.std.specs.Prelude.{◌≡◌, ◌<◌, ◌||◌, length, not, vec_capacity, IsSome, Some, true};
ghost use Rattle.std.specs.List.{list_any};
ghost use Rattle.std.specs.Option.{option_map};
ghost use Rattle.rd_locks.specs.Locks.{conflict, wanted_locks};
ghost use Rattle.rd_drive.specs.Access.{reads, writes};
ghost use Rattle.rd_drive.specs.Locking.{is_lock_operation, is_past_end, is_unlock, lock, lock_ranges, unlock_ranges};
ghost use Rattle.rd_drive.specs.Notify.{notify};
ghost use Rattle.rd_drive.specs.Outcome.{on_handle};
ghost use Rattle.rd_drive.specs.Store.{drive_of, kept_handle, IsSound, Serves};
ghost use Rattle.rd_drive.specs.Waits.{IsParked};
ghost use Rattle.rd_tree.specs.Places.{own_path};

use crate::access::{reads, writes};
use crate::ends::MAX_WAITING;
use crate::news::News;
use crate::status;
use crate::store::{Done, Outcome, Store};
use crate::telling::CHANGE_ROOM;
use crate::waiting::{Waiting, Wish};
use rd_base::{Key, Status};
use rd_irp::{Body, Range, Ranges};
use rd_locks::{LockNo, Locks, MAX_LOCKS};
use rd_tree::NodeId;

/// RDP_LOWIO_OP_SHAREDLOCK
const SHARED_LOCK: u32 = 2;

/// RDP_LOWIO_OP_EXCLUSIVELOCK (MS-RDPEFS 2.2.3.3.12)
pub const EXCLUSIVE_LOCK: u32 = 3;

/// RDP_LOWIO_OP_UNLOCK
const UNLOCK: u32 = 4;

/// RDP_LOWIO_OP_UNLOCK_MULTIPLE
const UNLOCK_MULTIPLE: u32 = 5;

/// Whether an operation gives ranges back: RDP_LOWIO_OP_UNLOCK or RDP_LOWIO_OP_UNLOCK_MULTIPLE (MS-RDPEFS 2.2.3.3.12).
pub fn is_unlock(operation: u32) -> bool
    ensures { result ≡ is_unlock operation }
{
    operation == UNLOCK || operation == UNLOCK_MULTIPLE
}

fn is_lock_operation(operation: u32) -> bool
    ensures { result ≡ is_lock_operation operation }
{
    operation == SHARED_LOCK || operation == EXCLUSIVE_LOCK || is_unlock(operation)
}

/// Whether a range goes past 2^64.
fn is_past_end(range: &Range) -> bool
    ensures { result ≡ is_past_end range.now }
{
    let offset = range.offset;
    let length = range.length;
    length > 0 && offset > u64::MAX - (length - 1)
}

/// Whether one of some ranges does.
fn some_past_end(ranges: &[Range]) -> bool
    ensures { result ≡ list_any is_past_end ranges.now }
{
    ranges.iter().any(|range| is_past_end(range))
}

/// Whether this can't be asked: an operation that there isn't, or a range that goes past 2^64 bytes (MS-RDPEFS 2.2.3.3.12).
pub fn is_invalid(operation: u32, ranges: &[Range]) -> bool
    ensures { result ≡ (not (is_lock_operation operation) || list_any is_past_end ranges.now) }
{
    !is_lock_operation(operation) || some_past_end(ranges)
}

/// Whether a handle with this access may lock: it reads or writes.
pub fn may_lock(access: u32) -> bool
    ensures { result ≡ (reads access || writes access) }
{
    reads(access) || writes(access)
}

impl Store {
    pub fn lock(
        &mut self,
        key: Key,
        file: u32,
        operation: u32,
        wait: bool,
        ranges: Ranges,
    ) -> Outcome
        requires sound { IsSound self.old }
        ensures { Serves self.old self.new (on_handle (drive_of self.old) file (lock (drive_of self.old) key file operation wait ranges)) result }
    {
        let Some(handle) = self.handle(file) else {
            return Err(Status::INVALID_HANDLE);
        };
        let node = handle.node;
        if self.tree.is_folder(node) {
            return Err(status::INVALID_DEVICE_REQUEST);
        }
        if !may_lock(handle.access) {
            return Err(status::ACCESS_DENIED);
        }
        let wanted = ranges.as_slice();
        if is_invalid(operation, wanted) {
            return Err(Status::INVALID_PARAMETER);
        }
        if is_unlock(operation) {
            return self.unlock(node, file, wanted);
        }
        self.lock_ranges(key, node, file, operation == EXCLUSIVE_LOCK, wait, ranges)
    }

    fn unlock(&mut self, node: NodeId, file: u32, ranges: &[Range]) -> Outcome
        requires sound { IsSound self.old }
        requires opened { option_map (λ h. (h.node).0) (kept_handle self.old file) ≡ Some node.0 }
        ensures { Serves self.old self.new (unlock_ranges (drive_of self.old) file (own_path self.old.tree node.0) ranges.now) result }
    {
        match self.locks.unlock(node.0, file, ranges) {
            Ok(()) => Ok(Done::Replied(Body::Locked, News::unlocked(node))),
            Err(_) => Err(status::RANGE_NOT_LOCKED),
        }
    }

    /// Locks all ranges, or lets the request wait, if it may.
    fn lock_ranges(
        &mut self,
        key: Key,
        node: NodeId,
        file: u32,
        exclusive: bool,
        wait: bool,
        ranges: Ranges,
    ) -> Outcome
        requires sound { IsSound self.old }
        requires opened { option_map (λ h. (h.node).0) (kept_handle self.old file) ≡ Some node.0 }
        ensures { Serves self.old self.new (lock_ranges (drive_of self.old) key file (own_path self.old.tree node.0) exclusive wait ranges) result }
    {
        let wanted = ranges.as_slice();
        match self.locks.lock(node.0, file, exclusive, wanted) {
            Ok(()) => Ok(Done::Replied(Body::Locked, News::none())),
            Err(LockNo::Full) => Err(status::INSUFFICIENT_RESOURCES),
            Err(LockNo::Memory) => Err(Status::NO_MEMORY),
            Err(LockNo::Conflict(_)) => {
                if !wait {
                    return Err(status::LOCK_NOT_GRANTED);
                }
                self.wait_for_ranges(key, node, file, exclusive, ranges)
            }
        }
    }

    /// Lets a request wait for ranges that another lock is in the way of. Never one whose own ranges are in each other's way.
    fn wait_for_ranges(
        &mut self,
        key: Key,
        node: NodeId,
        file: u32,
        exclusive: bool,
        ranges: Ranges,
    ) -> Outcome
        requires sound { IsSound self.old }
        requires opened { option_map (λ h. (h.node).0) (kept_handle self.old file) ≡ Some node.0 }
        requires blocked { IsSome (conflict self.old.locks.locks (wanted_locks node.0 file exclusive ranges)) }
        ensures { Serves self.old self.new (lock_ranges (drive_of self.old) key file (own_path self.old.tree node.0) exclusive true ranges) result }
    {
        let wanted = ranges.as_slice();
        let alone = Locks::new(self.alloc);
        if alone.conflict(node.0, file, exclusive, wanted).is_some() {
            return Err(status::LOCK_NOT_GRANTED);
        }
        let count = wanted.len();
        if self.waiting.len() >= MAX_WAITING || count > MAX_LOCKS {
            return Err(status::INSUFFICIENT_RESOURCES);
        }
        match self.locks.reserve(count as u32) {
            Ok(()) => {
                let wish = Wish::Ranges { exclusive, ranges };
                Ok(self.park(Waiting { key, file, wish }))
            }
            Err(LockNo::Full) => Err(status::INSUFFICIENT_RESOURCES),
            Err(_) => Err(Status::NO_MEMORY),
        }
    }

    pub fn notify(&mut self, key: Key, file: u32, deep: bool, filter: u32) -> Outcome
        requires sound { IsSound self.old }
        ensures { Serves self.old self.new (on_handle (drive_of self.old) file (notify (drive_of self.old) key file deep filter)) result }
    {
        let Some(handle) = self.handle(file) else {
            return Err(Status::INVALID_HANDLE);
        };
        if !self.tree.is_folder(handle.node) {
            return Err(Status::INVALID_PARAMETER);
        }
        if self.waiting.len() >= MAX_WAITING {
            return Err(status::INSUFFICIENT_RESOURCES);
        }
        let Ok(room) = Vec::with_capacity(self.alloc, CHANGE_ROOM) else {
            return Err(Status::NO_MEMORY);
        };
        let wish = Wish::Change { deep, filter, room };
        Ok(self.park(Waiting { key, file, wish }))
    }

    /// Lets a request wait after the others, for which there is room.
    fn park(&mut self, waiting: Waiting) -> Done
        requires { length self.old.waiting.items < vec_capacity self.old.waiting }
        ensures { IsParked self.old self.new waiting result }
    {
        self.waiting.push(waiting).unwrap();
        Done::Parked
    }
}
