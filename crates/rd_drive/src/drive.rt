//! The memory drive.

ghost use Rattle.std.specs.Prelude.{◌≡◌, ◌≤◌, ◌^◌, length, IfOk, Some, None};
ghost use Rattle.rd_drive.specs.Adding.{HoldsNode};
ghost use Rattle.rd_drive.specs.Answered.{drive_cuts, drive_parked, drive_runs};
ghost use Rattle.rd_drive.specs.DriveState.{empty_drive};

use crate::device::Device;
use crate::ends::{Ends, MAX_WAITING};
use crate::node::NodeState;
use crate::plan::Plan;
use crate::step::Step;
use crate::store::Store;
use rd_base::{Bytes, Units};
use rd_dirinfo::{Naming, Path};
use rd_locks::Locks;
use rd_tree::{AddNo, Tree};
use std::alloc::{AllocError, Global};
use std::collections::{BTreeMap, HashMap};
use std::marker::Model;

/// A drive in memory.
#[derive(Drop)]
pub struct MemoryDrive {
    store: Store,
}

impl Model for MemoryDrive {
    ghost use Rattle.rd_drive.specs.DriveState.{DriveState};

    ghost Value = { DriveState };

    ghost use Rattle.rd_drive.specs.Store.{drive_of, IsSound};

    ghost view = { λ d. drive_of d.store };

    ghost invariant = { λ d. IsSound d.store };
}

impl MemoryDrive {
    /// An empty drive with a volume label of at most 32 units, whose names are told apart so.
    pub fn new(alloc: Global, label: Units, naming: Naming) -> Result<Self, AllocError>
        requires { length label ≤ 32 }
        ensures { IfOk result (λ drive. drive ≡ empty_drive naming label) }
    {
        let tree = Tree::new(alloc, naming)?;
        let mut states = HashMap::new(alloc);
        states.reserve(1)?;
        let _ = states.insert(0, NodeState::new(0, 0));
        let store = Store {
            alloc,
            naming,
            label,
            tree,
            states,
            handles: BTreeMap::new(alloc),
            locks: Locks::new(alloc),
            waiting: Vec::with_capacity(alloc, MAX_WAITING)?,
            next: 1,
        };
        Ok(MemoryDrive { store })
    }

    /// Adds a folder, before the first request. A refusal changes nothing.
    pub fn add_folder(&mut self, path: &Path) -> Result<(), AddNo>
        ensures { HoldsNode self.old (path.now, None) result self.new }
    {
        self.store.hold_folder(path)
    }

    /// Adds a file with at most 2^40 bytes, before the first request. A refusal changes nothing.
    pub fn add_file(&mut self, path: &Path, bytes: &Bytes) -> Result<(), AddNo>
        requires { length bytes.now ≤ 2 ^ 40 }
        ensures { HoldsNode self.old (path.now, Some bytes.now) result self.new }
    {
        self.store.hold_file(path, bytes)
    }
}

impl Device for MemoryDrive {
    ghost runs = { drive_runs };

    ghost parked = { drive_parked };

    ghost cuts = { drive_cuts };

    fn apply(&mut self, plan: Plan, moment: u64, ends: &mut Ends) -> Step {
        if plan.starved() {
            return self.store.starve(plan.job());
        }
        let (job, room) = plan.into_parts();
        self.store.serve(job, room, moment, ends)
    }

    fn cut(&mut self) {
        self.store.cut();
    }
}
