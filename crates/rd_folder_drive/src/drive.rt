//! A drive over a folder, as a device.

ghost use Rattle.std.specs.Prelude.{◌≡◌, ◌≤◌, [], length, IfOk, IfSome};
ghost use Rattle.std.specs.Option.{option_map};
ghost use Rattle.rd_folder.specs.Told.{IsFolderMap};
ghost use Rattle.rd_folder_drive.specs.FolderDrive.{new_drive, opened_over, FolderCuts, FolderRuns};
ghost use Rattle.rd_folder_drive.specs.Served.{seen};

use crate::table::Table;
use rd_base::Units;
use rd_drive::{Device, Ends, MAX_WAITING, Plan, Step};
use rd_folder::Folder;
use rd_locks::Locks;
use std::alloc::{AllocError, Global};
use std::collections::BTreeMap;
use std::marker::Model;

/// A drive over a folder, which it alone changes. Contracts see the drive, where the folder tells its nodes; what is kept beside the folder; its faults;
/// the file ids that are open; and the requests that wait.
#[derive(Drop)]
pub struct FolderDrive<F: Folder + Drop> {
    table: Table,
    folder: F,
}

impl<F: Folder + Drop> Model for FolderDrive<F> {
    ghost use Rattle.rd_folder_drive.specs.FolderDrive.{FolderDriveState, state_over};
    ghost use Rattle.rd_folder_drive.specs.Served.{seen, IsOver};
    ghost use Rattle.rd_folder_drive.specs.Table.{IsSound};

    ghost Value = { FolderDriveState };

    ghost view = { λ d. state_over d.table (seen F.nodes F.faults d.folder) };

    ghost invariant = { λ d. IsSound d.table × IsOver d.table (seen F.nodes F.faults d.folder) };
}

impl<F: Folder + Drop> FolderDrive<F> {
    /// A drive with a volume label of at most 32 units over a folder. Nothing is open.
    pub fn new(alloc: Global, folder: F, label: Units) -> Result<Self, AllocError>
        requires label { length label ≤ 32 }
        requires whole { IfSome (F.nodes folder) IsFolderMap }
        ensures { IfOk result (λ drive. drive ≡ opened_over (seen F.nodes F.faults folder) label) }
    {
        let table = Table {
            alloc,
            label,
            opens: BTreeMap::new(alloc),
            handles: BTreeMap::new(alloc),
            locks: Locks::new(alloc),
            waiting: Vec::with_capacity(alloc, MAX_WAITING)?,
            next: 1,
        };
        Ok(FolderDrive { table, folder })
    }

    /// The folder again, to be closed: its nodes are the drive's, but for what was pending.
    pub fn finish(self) -> F
        ensures faults { F.faults result ≡ self.faults }
        ensures nodes { option_map (new_drive []) (F.nodes result) ≡ option_map (λ drive. new_drive [] drive.nodes) self.drive }
    {
        let FolderDrive { table: _, folder } = self;
        folder
    }
}

impl<F: Folder + Drop> Device for FolderDrive<F> {
    ghost runs = { FolderRuns };

    ghost parked = { λ d. d.parked };

    ghost cuts = { FolderCuts };

    fn apply(&mut self, plan: Plan, moment: u64, ends: &mut Ends) -> Step {
        if plan.starved() {
            return self.table.starve(plan.job());
        }
        let (job, room) = plan.into_parts();
        self.table.serve(&mut self.folder, job, room, moment, ends)
    }

    fn cut(&mut self) {
        self.table.cut(&mut self.folder);
    }
}
