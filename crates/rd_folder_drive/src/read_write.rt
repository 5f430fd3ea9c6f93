//! Read and Write (MS-RDPEFS 2.2.1.4.3, 2.2.1.4.4).

ghost use Rattle.std.specs.Prelude.{◌≡◌, ◌+◌, ◌<◌, ◌^◌, [], nat_lt};
ghost use Rattle.rd_contents.specs.Contents.{max_len};
ghost use Rattle.rd_irp.specs.declared.op.Op.TheVariants as Op;
ghost use Rattle.rd_drive.specs.Outcome.{on_handle};
ghost use Rattle.rd_drive.specs.ReadWrite.{read, write};
ghost use Rattle.rd_folder_drive.specs.Served.{seen, FitsBody, IfReplied, IsOver, Serves};
ghost use Rattle.rd_folder_drive.specs.Table.{IsSound};
ghost use Rattle.rd_folder_drive.specs.Waits.{StaysWaiting};

use crate::news::News;
use crate::table::{Done, Outcome, Table, folder_status};
use rd_base::{Bytes, Status};
use rd_contents::MAX_LEN;
use rd_drive::access::{reads, writes};
use rd_drive::news::{CONTENT_BITS, MODIFIED};
use rd_drive::read_write::MOST_BYTES;
use rd_drive::{MAX_READ, status};
use rd_folder::Folder;
use rd_irp::{Body, Range};

/// Whether a range would end behind the last byte that a file may have.
fn is_past_limit(offset: u64, count: u64) -> bool
    ensures { result ≡ nat_lt max_len (offset + count) }
{
    offset > MAX_LEN || count > MAX_LEN - offset
}

impl Table {
    /// Reads into the room that was found for the bytes.
    pub fn read<F: Folder>(
        &self,
        folder: &mut F,
        file: u32,
        offset: u64,
        length: u32,
        room: Vec<u8>,
    ) -> Outcome
        requires sound { IsSound self.now }
        requires over { IsOver self.now (seen F.nodes F.faults folder.old) }
        requires room { room.items ≡ [] }
        ensures serves { Serves self.now (seen F.nodes F.faults folder.old) self.now (seen F.nodes F.faults folder.new) (λ s. on_handle s file (read s file offset length)) result }
        ensures waits { StaysWaiting self.now self.now result }
        ensures fits { IfReplied result (FitsBody (Op.Read offset length)) }
    {
        let Some((handle, opened)) = self.held(file) else {
            return Err(Status::INVALID_HANDLE);
        };
        if opened.folder {
            return Err(status::INVALID_DEVICE_REQUEST);
        }
        if !reads(handle.access) {
            return Err(status::ACCESS_DENIED);
        }
        let length = length.min(MAX_READ);
        if length == 0 {
            return Ok(Done::Replied(Body::Buffer(Bytes::of(room)), News::none()));
        }
        let range = Range {
            offset,
            length: u64::from(length),
        };
        if !self.locks.may_read(handle.node, file, range) {
            return Err(status::FILE_LOCK_CONFLICT);
        }
        match folder.read(opened.path.names(), offset, length, room) {
            Ok(bytes) if bytes.as_slice().is_empty() => Err(Status::END_OF_FILE),
            Ok(bytes) => Ok(Done::Replied(Body::Buffer(bytes), News::none())),
            Err(no) => Err(folder_status(no)),
        }
    }

    pub fn write<F: Folder>(
        &self,
        folder: &mut F,
        file: u32,
        offset: u64,
        bytes: &[u8],
        moment: u64,
    ) -> Outcome
        requires sound { IsSound self.now }
        requires over { IsOver self.now (seen F.nodes F.faults folder.old) }
        ensures serves { Serves self.now (seen F.nodes F.faults folder.old) self.now (seen F.nodes F.faults folder.new) (λ s. on_handle s file (write s moment file offset bytes.now)) result }
        ensures waits { StaysWaiting self.now self.now result }
        ensures fits { IfReplied result (FitsBody (Op.Write offset bytes.now)) }
    {
        let Some((handle, opened)) = self.held(file) else {
            return Err(Status::INVALID_HANDLE);
        };
        if opened.folder {
            return Err(status::INVALID_DEVICE_REQUEST);
        }
        if !writes(handle.access) {
            return Err(status::ACCESS_DENIED);
        }
        if bytes.is_empty() {
            return Ok(Done::Replied(Body::Count(0), News::none()));
        }
        let range = Range {
            offset,
            length: bytes.len() as u64,
        };
        if !self.locks.may_write(handle.node, file, range) {
            return Err(status::FILE_LOCK_CONFLICT);
        }
        if bytes.len() > MOST_BYTES {
            return Err(Status::NO_MEMORY);
        }
        if is_past_limit(offset, bytes.len() as u64) {
            return Err(status::DISK_FULL);
        }
        match folder.write(opened.path.names(), offset, bytes, moment) {
            Ok(()) => Ok(Done::Replied(
                Body::Count(bytes.len() as u32),
                News::changed(MODIFIED, handle.node, CONTENT_BITS),
            )),
            Err(no) => Err(folder_status(no)),
        }
    }
}
