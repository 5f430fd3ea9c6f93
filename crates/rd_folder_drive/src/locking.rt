//! Locks on ranges of a file, and requests that wait for them or for a change (MS-RDPEFS 2.2.3.3.11, 2.2.3.3.12).

ghost use Rattle.std.specs.Prelude.{◌≡◌, ◌<◌, length, vec_capacity, IsSome, Some, true};
ghost use Rattle.std.specs.Option.{option_map};
ghost use Rattle.rd_irp.specs.declared.completion.Body.TheVariants as Body;
ghost use Rattle.rd_irp.specs.declared.completion.Kind.TheVariants as Kind;
ghost use Rattle.rd_irp.specs.declared.op.Op.TheVariants as Op;
ghost use Rattle.rd_locks.specs.Locks.{conflict, wanted_locks};
ghost use Rattle.rd_drive.specs.Locking.{lock, lock_ranges, unlock_ranges};
ghost use Rattle.rd_drive.specs.Notify.{notify};
ghost use Rattle.rd_drive.specs.Outcome.{on_handle};
ghost use Rattle.rd_folder_drive.specs.Alone.{ServesAlone};
ghost use Rattle.rd_folder_drive.specs.Files.{files_in};
ghost use Rattle.rd_folder_drive.specs.Served.{FitsBody, IfReplied};
ghost use Rattle.rd_folder_drive.specs.Table.{kept_handle, path_at, IsSound};
ghost use Rattle.rd_folder_drive.specs.Waits.{IsParked, StaysWaiting, WaitsBy};

use crate::news::News;
use crate::table::{Done, Outcome, Table};
use rd_base::{Key, Status};
use rd_drive::locking::{EXCLUSIVE_LOCK, is_invalid, is_unlock, may_lock};
use rd_drive::telling::CHANGE_ROOM;
use rd_drive::waiting::{Waiting, Wish};
use rd_drive::{MAX_WAITING, status};
use rd_irp::{Body, Range, Ranges};
use rd_locks::{LockNo, Locks, MAX_LOCKS};

impl Table {
    pub fn lock(
        &mut self,
        key: Key,
        file: u32,
        operation: u32,
        wait: bool,
        ranges: Ranges,
    ) -> Outcome
        requires sound { IsSound self.old }
        ensures serves { ServesAlone self.old self.new (λ s. on_handle s file (lock s key file operation wait ranges)) result }
        ensures fits { IfReplied result (FitsBody (Op.Lock operation wait ranges)) }
        ensures waits { WaitsBy self.old self.new (record { key = key; kind = Kind.Lock }) wait result }
        ensures files { files_in self.new ≡ files_in self.old }
    {
        let Some((handle, open)) = self.held(file) else {
            return Err(Status::INVALID_HANDLE);
        };
        let node = handle.node;
        if open.folder {
            return Err(status::INVALID_DEVICE_REQUEST);
        }
        if !may_lock(handle.access) {
            return Err(status::ACCESS_DENIED);
        }
        let wanted = ranges.as_slice();
        if is_invalid(operation, wanted) {
            return Err(Status::INVALID_PARAMETER);
        }
        if is_unlock(operation) {
            return self.unlock(node, file, wanted);
        }
        self.lock_ranges(key, node, file, operation == EXCLUSIVE_LOCK, wait, ranges)
    }

    fn unlock(&mut self, node: u32, file: u32, ranges: &[Range]) -> Outcome
        requires sound { IsSound self.old }
        requires opened { option_map (λ h. h.node) (kept_handle self.old file) ≡ Some node }
        ensures serves { ServesAlone self.old self.new (λ s. unlock_ranges s file (path_at self.old node) ranges.now) result }
        ensures locked { IfReplied result (λ body. body ≡ Body.Locked) }
        ensures waits { StaysWaiting self.old self.new result }
        ensures files { files_in self.new ≡ files_in self.old }
    {
        match self.locks.unlock(node, file, ranges) {
            Ok(()) => Ok(Done::Replied(Body::Locked, News::unlocked(node))),
            Err(_) => Err(status::RANGE_NOT_LOCKED),
        }
    }

    /// Locks all ranges, or lets the request wait, if it may.
    fn lock_ranges(
        &mut self,
        key: Key,
        node: u32,
        file: u32,
        exclusive: bool,
        wait: bool,
        ranges: Ranges,
    ) -> Outcome
        requires sound { IsSound self.old }
        requires opened { option_map (λ h. h.node) (kept_handle self.old file) ≡ Some node }
        ensures serves { ServesAlone self.old self.new (λ s. lock_ranges s key file (path_at self.old node) exclusive wait ranges) result }
        ensures locked { IfReplied result (λ body. body ≡ Body.Locked) }
        ensures waits { WaitsBy self.old self.new (record { key = key; kind = Kind.Lock }) wait result }
        ensures files { files_in self.new ≡ files_in self.old }
    {
        let wanted = ranges.as_slice();
        match self.locks.lock(node, file, exclusive, wanted) {
            Ok(()) => Ok(Done::Replied(Body::Locked, News::none())),
            Err(LockNo::Full) => Err(status::INSUFFICIENT_RESOURCES),
            Err(LockNo::Memory) => Err(Status::NO_MEMORY),
            Err(LockNo::Conflict(_)) => {
                if !wait {
                    return Err(status::LOCK_NOT_GRANTED);
                }
                self.wait_for_ranges(key, node, file, exclusive, ranges)
            }
        }
    }

    /// Lets a request wait for ranges that another lock is in the way of. Never one whose own ranges are in each other's way.
    fn wait_for_ranges(
        &mut self,
        key: Key,
        node: u32,
        file: u32,
        exclusive: bool,
        ranges: Ranges,
    ) -> Outcome
        requires sound { IsSound self.old }
        requires opened { option_map (λ h. h.node) (kept_handle self.old file) ≡ Some node }
        requires blocked { IsSome (conflict self.old.locks.locks (wanted_locks node file exclusive ranges)) }
        ensures serves { ServesAlone self.old self.new (λ s. lock_ranges s key file (path_at self.old node) exclusive true ranges) result }
        ensures unreplied { IfReplied result (λ body. ⊥) }
        ensures waits { WaitsBy self.old self.new (record { key = key; kind = Kind.Lock }) true result }
        ensures files { files_in self.new ≡ files_in self.old }
    {
        let wanted = ranges.as_slice();
        let alone = Locks::new(self.alloc);
        if alone.conflict(node, file, exclusive, wanted).is_some() {
            return Err(status::LOCK_NOT_GRANTED);
        }
        let count = wanted.len();
        if self.waiting.len() >= MAX_WAITING || count > MAX_LOCKS {
            return Err(status::INSUFFICIENT_RESOURCES);
        }
        match self.locks.reserve(count as u32) {
            Ok(()) => {
                let wish = Wish::Ranges { exclusive, ranges };
                Ok(self.park(Waiting { key, file, wish }))
            }
            Err(LockNo::Full) => Err(status::INSUFFICIENT_RESOURCES),
            Err(_) => Err(Status::NO_MEMORY),
        }
    }

    pub fn notify(&mut self, key: Key, file: u32, deep: bool, filter: u32) -> Outcome
        requires sound { IsSound self.old }
        ensures serves { ServesAlone self.old self.new (λ s. on_handle s file (notify s key file deep filter)) result }
        ensures fits { IfReplied result (FitsBody (Op.Notify deep filter)) }
        ensures waits { WaitsBy self.old self.new (record { key = key; kind = Kind.Buffer }) true result }
        ensures files { files_in self.new ≡ files_in self.old }
    {
        let Some((_, open)) = self.held(file) else {
            return Err(Status::INVALID_HANDLE);
        };
        if !open.folder {
            return Err(Status::INVALID_PARAMETER);
        }
        if self.waiting.len() >= MAX_WAITING {
            return Err(status::INSUFFICIENT_RESOURCES);
        }
        let Ok(room) = Vec::with_capacity(self.alloc, CHANGE_ROOM) else {
            return Err(Status::NO_MEMORY);
        };
        let wish = Wish::Change { deep, filter, room };
        Ok(self.park(Waiting { key, file, wish }))
    }

    /// Lets a request wait after the others, for which there is room.
    fn park(&mut self, waiting: Waiting) -> Done
        requires { length self.old.waiting.items < vec_capacity self.old.waiting }
        ensures { IsParked self.old self.new waiting result }
    {
        self.waiting.push(waiting).unwrap();
        Done::Parked
    }
}
