//! What a file and the volume tell of themselves, and the volume's label (MS-FSCC 2.4 and 2.5).

ghost use Rattle.std.specs.Prelude.{◌≡◌, ◌<◌, ◌^◌, [], IfOk, IfErr, Some, None};
ghost use Rattle.rd_irp.specs.declared.op.Op.TheVariants as Op;
ghost use Rattle.rd_drive.specs.DriveState.{Node};
ghost use Rattle.rd_base.specs.Statuses.{invalid_info_class};
ghost use Rattle.rd_drive.specs.Outcome.{on_handle};
ghost use Rattle.rd_drive.specs.Query.{node_info, query_file, query_volume};
ghost use Rattle.rd_drive.specs.SetVolume.{set_volume};
ghost use Rattle.rd_folder.specs.FolderCalls.{look_of};
ghost use Rattle.rd_folder_drive.specs.Alone.{ServesAlone};
ghost use Rattle.rd_folder_drive.specs.Files.{files_in};
ghost use Rattle.rd_folder_drive.specs.Served.{seen, FitsBody, IfReplied, IsOver, Serves};
ghost use Rattle.rd_folder_drive.specs.Table.{IsSound};
ghost use Rattle.rd_folder_drive.specs.Waits.{StaysWaiting};

use crate::news::News;
use crate::table::{Done, Outcome, Table, folder_status};
use rd_base::{Bytes, ReadNo, Status};
use rd_dirinfo::Naming;
use rd_drive::node::shown_attributes;
use rd_drive::query::{allocation_for, volume_info};
use rd_drive::read_write::MOST_BYTES;
use rd_drive::status;
use rd_fileinfo::classes::{ATTRIBUTE_TAG, BASIC, LABEL, STANDARD};
use rd_fileinfo::{FileInfo, put_file_info, put_volume, read_label};
use rd_folder::{Folder, Look};
use rd_irp::Body;

/// What a node tells of itself, by class, from what its folder tells of it.
fn file_info(look: &Look, pending: bool, class: u32) -> Result<FileInfo, Status>
    requires bound { look.now.end < 2 ^ 63 }
    ensures ok { (node : Node) → look.now ≡ look_of node → IfOk result (λ info. node_info (record node { pending = pending }) class ≡ Some info) }
    ensures none { (node : Node) → look.now ≡ look_of node → IfErr result (λ status. node_info (record node { pending = pending }) class ≡ None) }
    ensures err { IfErr result (λ status. status ≡ invalid_info_class) }
{
    let attributes = shown_attributes(look.folder, look.attributes);
    match class {
        BASIC => Ok(FileInfo::Basic {
            moments: look.moments,
            attributes,
        }),
        STANDARD => Ok(FileInfo::Standard {
            allocation: allocation_for(look.end),
            end: look.end,
            links: 1,
            pending: u8::from(pending),
            folder: u8::from(look.folder),
        }),
        ATTRIBUTE_TAG => Ok(FileInfo::Tag { attributes, tag: 0 }),
        _ => Err(status::INVALID_INFO_CLASS),
    }
}

impl Table {
    pub fn query_file<F: Folder>(
        &self,
        folder: &mut F,
        file: u32,
        class: u32,
        mut room: Vec<u8>,
    ) -> Outcome
        requires sound { IsSound self.now }
        requires over { IsOver self.now (seen F.nodes F.faults folder.old) }
        requires room { room.items ≡ [] }
        ensures serves { Serves self.now (seen F.nodes F.faults folder.old) self.now (seen F.nodes F.faults folder.new) (λ s. on_handle s file (query_file s class)) result }
        ensures waits { StaysWaiting self.now self.now result }
        ensures fits { IfReplied result (FitsBody (Op.QueryFile class)) }
    {
        let Some((handle, opened)) = self.held(file) else {
            return Err(Status::INVALID_HANDLE);
        };
        let look = match folder.look(opened.path.names()) {
            Ok(Some(look)) => look,
            Ok(None) => return Err(Status::INVALID_HANDLE),
            Err(no) => return Err(folder_status(no)),
        };
        let info = match file_info(&look, opened.pending, class) {
            Ok(info) => info,
            Err(status) => return Err(status),
        };
        match put_file_info(&mut room, &info) {
            Ok(()) => Ok(Done::Replied(Body::Buffer(Bytes::of(room)), News::none())),
            Err(_) => Err(Status::NO_MEMORY),
        }
    }

    pub fn query_volume(&self, file: u32, class: u32, mut room: Vec<u8>) -> Outcome
        requires sound { IsSound self.now }
        requires room { room.items ≡ [] }
        ensures serves { ServesAlone self.now self.now (λ s. on_handle s file (query_volume s class)) result }
        ensures waits { StaysWaiting self.now self.now result }
        ensures fits { IfReplied result (FitsBody (Op.QueryVolume class)) }
    {
        let Some((_, _)) = self.held(file) else {
            return Err(Status::INVALID_HANDLE);
        };
        let info = match volume_info(self.alloc, &self.label, Naming::Exact, class) {
            Ok(info) => info,
            Err(status) => return Err(status),
        };
        match put_volume(&mut room, &info) {
            Ok(()) => Ok(Done::Replied(Body::Buffer(Bytes::of(room)), News::none())),
            Err(_) => Err(Status::NO_MEMORY),
        }
    }

    pub fn set_volume(&mut self, file: u32, class: u32, bytes: &[u8]) -> Outcome
        requires sound { IsSound self.old }
        ensures serves { ServesAlone self.old self.new (λ s. on_handle s file (set_volume s class bytes.now)) result }
        ensures waits { StaysWaiting self.old self.new result }
        ensures files { files_in self.new ≡ files_in self.old }
        ensures fits { IfReplied result (FitsBody (Op.SetVolume class bytes.now)) }
    {
        let Some((_, _)) = self.held(file) else {
            return Err(Status::INVALID_HANDLE);
        };
        if class != LABEL {
            return Err(status::INVALID_INFO_CLASS);
        }
        if bytes.len() > MOST_BYTES {
            return Err(Status::NO_MEMORY);
        }
        match read_label(self.alloc, bytes) {
            Ok(label) => {
                self.label = label;
                Ok(Done::Replied(Body::Count(bytes.len() as u32), News::none()))
            }
            Err(ReadNo::Memory) => Err(Status::NO_MEMORY),
            Err(ReadNo::Bad(_)) => Err(Status::INVALID_PARAMETER),
        }
    }
}
