//! A folder in memory.

ghost use Rattle.std.specs.Prelude.{◌≡◌, ◌<◌, ◌≤◌, ◌↔◌, ◌⊎◌, ◌^◌, [], ◌∷◌, Some, None, Err, IfOk, IfSome, OnErr, IsTrue, length, true, Contains, set, if◌then◌else◌};
ghost use Rattle.std.specs.Option.{option_map};
ghost use Rattle.rd_dirinfo.specs.Paths.{is_name};
ghost use Rattle.rd_drive.specs.DriveState.{new_node};
ghost use Rattle.rd_folder.specs.Told.{IsFolderMap};
ghost use Rattle.rd_folder.specs.FolderCalls.{folder_look, folder_make, folder_mark, folder_next, folder_read, folder_remove, folder_rename, folder_replace, folder_resize, folder_write, making};
ghost use Rattle.rd_folder.specs.FolderLaws.{AreNames, CountsRefusal, DoesCall, no_faults, one_fault};
ghost use Rattle.rd_folder.specs.InMemory.{first_numbers, later_number, number_ahead, Runs, Tries};
ghost use Rattle.rd_folder.specs.declared.folder.FolderNo.TheVariants as FolderNo;

use crate::folder::{Folder, FolderNo};
use crate::look::{Listed, Look};
use crate::mem_nodes::MemNodes;
use rd_base::{Bytes, Calls, Moments, Units};
use rd_contents::Contents;
use rd_dirinfo::{Path, Pattern};
use std::alloc::Global;
use std::marker::Model;

/// ARCHIVE
const ARCHIVE: u32 = 0x20;

/// How many methods a folder has.
const METHODS: usize = 10;

const LOOK: usize = 0;

const NEXT: usize = 1;

const READ: usize = 2;

const MAKE: usize = 3;

const REPLACE: usize = 4;

const WRITE: usize = 5;

const RESIZE: usize = 6;

const MARK: usize = 7;

const RENAME: usize = 8;

const REMOVE: usize = 9;

/// How far the numbers of two calls of one method are apart.
const STEP: u64 = 16;

/// A folder in memory that tells its nodes, and some of whose calls fail. Contracts see the nodes, the numbers that the next calls have, the
/// numbers of those that fail, and the faults.
#[derive(Drop)]
pub struct MemFolder {
    alloc: Global,
    nodes: MemNodes,
    numbers: [u64; METHODS],
    fails: Calls,
    faults: u64,
    last: Option<FolderNo>,
}

impl Model for MemFolder {
    ghost use Rattle.rd_folder.specs.InMemory.{FolderState};

    ghost Value = { FolderState };

    ghost view = { λ f. record { nodes = f.nodes; numbers = f.numbers; fails = f.fails; faults = record { count = f.faults; last = f.last } } };
}

impl MemFolder {
    /// A folder in which nothing is. The k-th call of a method, counted from 1, has the number 16 * k + m, where m is the place of the method in
    /// the trait, from 0. The calls with the given numbers fail: 18 is the first `read`, and 25 the first `remove`. It takes no memory.
    pub fn new(alloc: Global, fails: Calls) -> Self
        ensures { result ≡ record { nodes = new_node [] None 0 0 ∷ []; numbers = first_numbers; fails = fails; faults = no_faults } }
    {
        MemFolder {
            alloc,
            nodes: MemNodes::new(alloc),
            numbers: [16, 17, 18, 19, 20, 21, 22, 23, 24, 25],
            fails,
            faults: 0,
            last: None,
        }
    }

    /// Adds a folder, which is no call of the trait.
    pub fn add_folder(&mut self, path: &Path) -> Result<(), FolderNo>
        ensures tries { Tries self.old.nodes self.new.nodes (making path.now None 0 0 self.old.nodes) result }
        ensures others { self.new ≡ record self.old { nodes = self.new.nodes } }
    {
        self.nodes.make(path.names(), None, 0, 0)
    }

    /// Adds a file with bytes, as a drive begins with one. It is no call of the trait.
    pub fn add_file(&mut self, path: &Path, bytes: &[u8]) -> Result<(), FolderNo>
        ensures tries { Tries self.old.nodes self.new.nodes (making path.now (Some bytes.now) 0x20 0 self.old.nodes) result ⊎ result ≡ Err FolderNo.Memory }
        ensures others { self.new ≡ record self.old { nodes = self.new.nodes } }
        ensures err { OnErr result (self.new ≡ self.old) }
    {
        let mut contents = Contents::new(self.alloc);
        if contents.write(0, bytes).is_err() {
            return Err(FolderNo::Memory);
        }
        self.nodes.make(path.names(), Some(contents), ARCHIVE, 0)
    }

    /// Forgets the faults that it had. Its nodes are a map.
    pub(crate) fn renew(&mut self)
        ensures renewed { self.new ≡ record self.old { faults = no_faults } }
        ensures whole { IsFolderMap self.new.nodes }
    {
        self.nodes.whole();
        self.faults = 0;
        self.last = None;
    }

    pub(crate) fn nodes(&self) -> &MemNodes
        ensures { result.now ≡ self.now.nodes }
    {
        &self.nodes
    }

    /// How many faults it had.
    pub(crate) fn faults(&self) -> u64
        ensures { result ≡ (self.now.faults).count }
    {
        self.faults
    }

    /// Counts a call of a method, and a fault if the call is one of those that fail.
    fn fails(&mut self, method: usize) -> bool
        requires { method < 10 }
        ensures fails { IsTrue result ↔ Contains self.old.fails (number_ahead self.old method) }
        ensures counts { self.new ≡ record self.old { numbers = set self.old.numbers method (later_number (number_ahead self.old method)); faults = if result then one_fault FolderNo.Failed self.old.faults else self.old.faults } }
    {
        let number = self.numbers[method];
        self.numbers[method] = number.saturating_add(STEP);
        if self.fails.as_slice().contains(&number) {
            self.faults = self.faults.saturating_add(1);
            self.last = Some(FolderNo::Failed);
            return true;
        }
        false
    }
}

impl Folder for MemFolder {
    ghost nodes = { λ f. Some f.nodes };

    ghost faults = { λ f. f.faults };

    fn look(&mut self, path: &[Units]) -> Result<Option<Look>, FolderNo>
        ensures does { DoesCall (Some self.old.nodes) (Some self.new.nodes) (folder_look path.now) result }
        ensures counted { CountsRefusal (Some self.old.nodes) result self.old.faults self.new.faults }
        ensures bound { IfOk result (λ found. IfSome found (λ look. look.end < 2 ^ 63)) }
        ensures runs { Runs 0 self.old self.new (folder_look path.now self.old.nodes) result }
    {
        if self.fails(LOOK) {
            return Err(FolderNo::Failed);
        }
        Ok(self.nodes.look(path))
    }

    fn next(
        &mut self,
        path: &[Units],
        after: Option<&Units>,
        pattern: &Pattern,
    ) -> Result<Option<Listed>, FolderNo>
        ensures does { DoesCall (Some self.old.nodes) (Some self.new.nodes) (folder_next path.now (option_map (λ other. other.now) after.entry) pattern.now) result }
        ensures counted { CountsRefusal (Some self.old.nodes) result self.old.faults self.new.faults }
        ensures name { IfOk result (λ found. IfSome found (λ listed. is_name listed.name ≡ true)) }
        ensures bound { IfOk result (λ found. IfSome found (λ listed. listed.look.end < 2 ^ 63)) }
        ensures runs { Runs 1 self.old self.new (folder_next path.now (option_map (λ other. other.now) after.entry) pattern.now self.old.nodes) result }
    {
        if self.fails(NEXT) {
            return Err(FolderNo::Failed);
        }
        self.nodes.next(path, after, pattern)
    }

    fn read(
        &mut self,
        path: &[Units],
        offset: u64,
        count: u32,
        room: Vec<u8>,
    ) -> Result<Bytes, FolderNo>
        requires room { room.items ≡ [] }
        ensures does { DoesCall (Some self.old.nodes) (Some self.new.nodes) (folder_read path.now offset count) result }
        ensures counted { CountsRefusal (Some self.old.nodes) result self.old.faults self.new.faults }
        ensures bound { IfOk result (λ bytes. length bytes ≤ count) }
        ensures runs { Runs 2 self.old self.new (folder_read path.now offset count self.old.nodes) result }
    {
        if self.fails(READ) {
            return Err(FolderNo::Failed);
        }
        self.nodes.read(path, offset, count, room)
    }

    fn make(
        &mut self,
        path: &[Units],
        folder: bool,
        attributes: u32,
        moment: u64,
    ) -> Result<(), FolderNo>
        requires named { AreNames path.now }
        ensures does { DoesCall (Some self.old.nodes) (Some self.new.nodes) (folder_make path.now folder attributes moment) result }
        ensures counted { CountsRefusal (Some self.old.nodes) result self.old.faults self.new.faults }
        ensures runs { Runs 3 self.old self.new (folder_make path.now folder attributes moment self.old.nodes) result }
    {
        if self.fails(MAKE) {
            return Err(FolderNo::Failed);
        }
        let contents = if folder {
            None
        } else {
            Some(Contents::new(self.alloc))
        };
        self.nodes.make(path, contents, attributes, moment)
    }

    fn replace(&mut self, path: &[Units], attributes: u32, moment: u64) -> Result<(), FolderNo>
        ensures does { DoesCall (Some self.old.nodes) (Some self.new.nodes) (folder_replace path.now attributes moment) result }
        ensures counted { CountsRefusal (Some self.old.nodes) result self.old.faults self.new.faults }
        ensures runs { Runs 4 self.old self.new (folder_replace path.now attributes moment self.old.nodes) result }
    {
        if self.fails(REPLACE) {
            return Err(FolderNo::Failed);
        }
        self.nodes.replace(path, attributes, moment)
    }

    fn write(
        &mut self,
        path: &[Units],
        offset: u64,
        bytes: &[u8],
        moment: u64,
    ) -> Result<(), FolderNo>
        ensures does { DoesCall (Some self.old.nodes) (Some self.new.nodes) (folder_write path.now offset bytes.now moment) result }
        ensures counted { CountsRefusal (Some self.old.nodes) result self.old.faults self.new.faults }
        ensures runs { Runs 5 self.old self.new (folder_write path.now offset bytes.now moment self.old.nodes) result }
    {
        if self.fails(WRITE) {
            return Err(FolderNo::Failed);
        }
        self.nodes.write(path, offset, bytes, moment)
    }

    fn resize(&mut self, path: &[Units], end: u64, moment: u64) -> Result<(), FolderNo>
        ensures does { DoesCall (Some self.old.nodes) (Some self.new.nodes) (folder_resize path.now end moment) result }
        ensures counted { CountsRefusal (Some self.old.nodes) result self.old.faults self.new.faults }
        ensures runs { Runs 6 self.old self.new (folder_resize path.now end moment self.old.nodes) result }
    {
        if self.fails(RESIZE) {
            return Err(FolderNo::Failed);
        }
        self.nodes.resize(path, end, moment)
    }

    fn mark(&mut self, path: &[Units], attributes: u32, moments: Moments) -> Result<(), FolderNo>
        ensures does { DoesCall (Some self.old.nodes) (Some self.new.nodes) (folder_mark path.now attributes moments) result }
        ensures counted { CountsRefusal (Some self.old.nodes) result self.old.faults self.new.faults }
        ensures runs { Runs 7 self.old self.new (folder_mark path.now attributes moments self.old.nodes) result }
    {
        if self.fails(MARK) {
            return Err(FolderNo::Failed);
        }
        self.nodes.mark(path, attributes, moments)
    }

    fn rename(&mut self, from: &[Units], to: &[Units], moment: u64) -> Result<(), FolderNo>
        requires named { AreNames from.now × AreNames to.now }
        ensures does { DoesCall (Some self.old.nodes) (Some self.new.nodes) (folder_rename from.now to.now moment) result }
        ensures counted { CountsRefusal (Some self.old.nodes) result self.old.faults self.new.faults }
        ensures runs { Runs 8 self.old self.new (folder_rename from.now to.now moment self.old.nodes) result }
    {
        if self.fails(RENAME) {
            return Err(FolderNo::Failed);
        }
        self.nodes.rename(from, to, moment)
    }

    fn remove(&mut self, path: &[Units]) -> Result<(), FolderNo>
        ensures does { DoesCall (Some self.old.nodes) (Some self.new.nodes) (folder_remove path.now) result }
        ensures counted { CountsRefusal (Some self.old.nodes) result self.old.faults self.new.faults }
        ensures memory { result ≡ Err FolderNo.Memory → ⊥ }
        ensures runs { Runs 9 self.old self.new (folder_remove path.now self.old.nodes) result }
    {
        if self.fails(REMOVE) {
            return Err(FolderNo::Failed);
        }
        self.nodes.remove(path)
    }
}
