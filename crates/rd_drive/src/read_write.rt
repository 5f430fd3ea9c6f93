//! Read and Write (MS-RDPEFS 2.2.1.4.3, 2.2.1.4.4).

ghost use Rattle.std.specs.Prelude.{◌≡◌, [], ℕ, IsSome, nat_eq};
ghost use Rattle.std.specs.HashMap.{get};
ghost use Rattle.rd_irp.specs.declared.completion.Body.TheVariants as Body;
ghost use Rattle.rd_drive.specs.Changes.{content_bits};
ghost use Rattle.rd_drive.specs.Outcome.{on_handle};
ghost use Rattle.rd_drive.specs.ReadWrite.{read, write};
ghost use Rattle.rd_drive.specs.Store.{about, drive_of, state_of, IsSound, Serves};
ghost use Rattle.rd_drive.specs.Kept.{written_at, IsKept};
ghost use Rattle.rd_drive.specs.declared.news.Named.TheVariants as Named;
ghost use Rattle.rd_drive.specs.declared.store.Done.TheVariants as Done;

use crate::access::{reads, writes};
use crate::news::{CONTENT_BITS, MODIFIED, News};
use crate::plan::MAX_READ;
use crate::status;
use crate::store::{Done, Outcome, Store};
use rd_base::{Bytes, Status};
use rd_contents::SizeNo;
use rd_irp::{Body, Range};
use rd_tree::NodeId;

/// The most bytes that a reply can count.
pub const MOST_BYTES: usize = u32::MAX as usize;

impl Store {
    /// Reads into the room that was found for the bytes.
    pub fn read(&self, file: u32, offset: u64, length: u32, mut room: Vec<u8>) -> Outcome
        requires sound { IsSound self.now }
        requires room { room.items ≡ [] }
        ensures { Serves self.now self.now (on_handle (drive_of self.now) file (read (drive_of self.now) file offset length)) result }
    {
        let Some(handle) = self.handle(file) else {
            return Err(Status::INVALID_HANDLE);
        };
        let node = handle.node;
        let Some(end) = self.tree.end(node) else {
            return Err(status::INVALID_DEVICE_REQUEST);
        };
        if !reads(handle.access) {
            return Err(status::ACCESS_DENIED);
        }
        let length = length.min(MAX_READ);
        if length == 0 {
            return Ok(Done::Replied(Body::Buffer(Bytes::of(room)), News::none()));
        }
        let range = Range {
            offset,
            length: u64::from(length),
        };
        if !self.locks.may_read(node.0, file, range) {
            return Err(status::FILE_LOCK_CONFLICT);
        }
        if offset >= end {
            return Err(Status::END_OF_FILE);
        }
        match self.tree.read_into(node, &mut room, offset, length) {
            Ok(()) => Ok(Done::Replied(Body::Buffer(Bytes::of(room)), News::none())),
            Err(_) => Err(Status::NO_MEMORY),
        }
    }

    pub fn write(&mut self, file: u32, offset: u64, bytes: &[u8], moment: u64) -> Outcome
        requires { IsSound self.old }
        ensures { Serves self.old self.new (on_handle (drive_of self.old) file (write (drive_of self.old) moment file offset bytes.now)) result }
    {
        let Some(handle) = self.handle(file) else {
            return Err(Status::INVALID_HANDLE);
        };
        let node = handle.node;
        if self.tree.is_folder(node) {
            return Err(status::INVALID_DEVICE_REQUEST);
        }
        if !writes(handle.access) {
            return Err(status::ACCESS_DENIED);
        }
        if bytes.is_empty() {
            return Ok(Done::Replied(Body::Count(0), News::none()));
        }
        let range = Range {
            offset,
            length: bytes.len() as u64,
        };
        if !self.locks.may_write(node.0, file, range) {
            return Err(status::FILE_LOCK_CONFLICT);
        }
        if bytes.len() > MOST_BYTES {
            return Err(Status::NO_MEMORY);
        }
        match self.tree.write(node, offset, bytes) {
            Ok(()) => Ok(self.written(node, bytes.len() as u32, moment)),
            Err(SizeNo::TooBig) => Err(status::DISK_FULL),
            Err(SizeNo::Memory) => Err(Status::NO_MEMORY),
        }
    }

    /// The bytes of a file were changed at a moment.
    pub fn written(&mut self, node: NodeId, count: u32, moment: u64) -> Done
        requires { IsSome (get nat_eq self.old.states node.0) }
        ensures others { self.new ≡ record self.old { states = self.new.states } }
        ensures kept { IsKept self.old.states self.new.states node.0 (written_at (state_of self.old.states node.0) moment) }
        ensures done { result ≡ Done.Replied (Body.Count count) (about (record { action = 3; named = Named.Node node; bits = content_bits })) }
    {
        let mut state = self.state(node);
        state.moments.write = moment;
        state.moments.change = moment;
        self.set_state(node, state);
        Done::Replied(
            Body::Count(count),
            News::changed(MODIFIED, node, CONTENT_BITS),
        )
    }
}
