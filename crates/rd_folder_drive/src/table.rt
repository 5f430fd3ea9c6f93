//! What a drive keeps beside its folder: what is open, the handles, the locks, and the requests that wait.

ghost use Rattle.std.specs.Prelude.{◌≡◌, IfSome, Some, None};
ghost use Rattle.std.specs.Option.{option_map};
ghost use Rattle.std.specs.Ordering.{nat_cmp};
ghost use Rattle.std.specs.BTreeMap.{IsOrdered};
ghost use Rattle.rd_folder_drive.specs.Served.{folder_status};
ghost use Rattle.rd_folder_drive.specs.Table.{kept_handle, open_at, IsSound};

use crate::handle::Handle;
use crate::news::News;
use crate::open::Open;
use rd_base::{Status, Units};
use rd_drive::status;
use rd_drive::waiting::Waiting;
use rd_folder::FolderNo;
use rd_irp::Body;
use rd_locks::Locks;
use std::alloc::Global;
use std::collections::BTreeMap;

/// What a drive keeps beside its folder.
#[derive(Drop)]
pub struct Table {
    pub alloc: Global,
    pub label: Units,
    /// What is open, by the file id that opened it first.
    pub opens: BTreeMap<u32, Open>,
    /// By file id.
    pub handles: BTreeMap<u32, Handle>,
    pub locks: Locks,
    /// In the order in which they began to wait.
    pub waiting: Vec<Waiting>,
    /// The file id that is given next.
    pub next: u64,
}

/// What an operation comes to that isn't refused.
#[derive(Debug, Drop)]
pub enum Done {
    /// The body of its reply, and what the requests that wait have to know.
    Replied(Body, News),
    /// It waits.
    Parked,
    /// A Close whose node the folder kept: the status of the reply, and what the requests that wait have to know.
    Kept(Status, News),
}

/// What an operation comes to, before the requests that wait are looked at.
pub type Outcome = Result<Done, Status>;

impl Table {
    /// What every map of handles, and of what is open, is: its numbers rise. It does nothing, and is called for what it promises.
    pub fn ordered(&self)
        ensures handles { IsOrdered nat_cmp self.now.handles }
        ensures opens { IsOrdered nat_cmp self.now.opens }
    {
        let _ = self.handles.len();
        let _ = self.opens.len();
    }

    /// The handle of a file id.
    pub fn handle(&self, file: u32) -> Option<&Handle>
        ensures { option_map (λ handle. handle.now) result ≡ kept_handle self.now file }
    {
        self.handles.get(&file)
    }

    /// The handle of a file id, and what it has open.
    pub fn held(&self, file: u32) -> Option<(&Handle, &Open)>
        requires sound { IsSound self.now }
        ensures some { IfSome result (λ found. (kept_handle self.now file ≡ Some found.0.now) × (open_at self.now (found.0.now).node ≡ Some found.1.now)) }
        ensures none { result ≡ None → kept_handle self.now file ≡ None }
    {
        let handle = self.handle(file)?;
        match self.opened(handle.node) {
            Some(open) => Some((handle, open)),
            None => unreachable!(),
        }
    }

    /// What is open by a number.
    pub fn opened(&self, node: u32) -> Option<&Open>
        ensures { option_map (λ o. o.now) result ≡ open_at self.now node }
    {
        self.opens.get(&node)
    }
}

/// The status of a folder's refusal.
pub fn folder_status(no: FolderNo) -> Status
    ensures { result ≡ folder_status no }
{
    match no {
        FolderNo::Failed | FolderNo::Missing => IO_DEVICE_ERROR,
        FolderNo::Full => status::DISK_FULL,
        FolderNo::Denied => status::ACCESS_DENIED,
        FolderNo::Memory => Status::NO_MEMORY,
    }
}

/// What a request comes to where its folder failed (MS-ERREF 2.3).
pub const IO_DEVICE_ERROR: Status = Status(0xc000_0185);
