//! Listing a folder, an entry a request (MS-RDPEFS 2.2.3.3.10, MS-FSCC 2.4).

ghost use Rattle.std.specs.Prelude.{◌≡◌, [], false, true, Some, None, IfOk, IfSome, IsSome, nat_eq};
ghost use Rattle.std.specs.HashMap.{get};
ghost use Rattle.std.specs.Option.{option_map};
ghost use Rattle.rd_base.specs.Classes.{choice, is_listed};
ghost use Rattle.rd_dirinfo.specs.Entry.{entry_classes};
ghost use Rattle.rd_tree.specs.Places.{bytes_at, is_folder, own_path, IsLive};
ghost use Rattle.rd_drive.specs.Kept.{own_node};
ghost use Rattle.rd_drive.specs.Outcome.{on_handle};
ghost use Rattle.rd_drive.specs.QueryDir.{entry_of, query_dir};
ghost use Rattle.rd_drive.specs.Relisted.{Finds, Relists};
ghost use Rattle.rd_drive.specs.Store.{drive_of, kept_handle, IsSound, Serves};
ghost use Rattle.rd_drive.specs.declared.handle.Handle.{Handle};

use crate::news::News;
use crate::node::shown_attributes;
use crate::query::allocation_for;
use crate::status;
use crate::store::{Done, Outcome, Store};
use rd_base::{Bytes, Status, Units};
use rd_dirinfo::classes::{BOTH_DIRECTORY, DIRECTORY, FULL_DIRECTORY, NAMES};
use rd_dirinfo::{Entry, PathNo, Pattern, put_entry};
use rd_irp::Body;
use rd_tree::NodeId;
use std::alloc::AllocError;

/// Whether a listing can be asked for in a class (MS-RDPEFS 2.2.3.3.10).
#[tactic(auto, using(crate::proofs::NextLemmas::listed_as))]
pub fn is_entry_class(class: u32) -> bool
    ensures { result ≡ is_listed (choice entry_classes class) }
{
    matches!(class, DIRECTORY | FULL_DIRECTORY | BOTH_DIRECTORY | NAMES)
}

/// What a listing gives next: a name, and the bytes of its entry.
#[derive(Drop)]
struct Listed {
    name: Units,
    bytes: Bytes,
}

impl Store {
    pub fn query_dir(
        &mut self,
        file: u32,
        class: u32,
        initial: bool,
        units: &[u16],
        room: Vec<u8>,
    ) -> Outcome
        requires sound { IsSound self.old }
        requires room { room.items ≡ [] }
        ensures { Serves self.old self.new (on_handle (drive_of self.old) file (query_dir (drive_of self.old) file class initial units.now)) result }
    {
        let Some(handle) = self.handle(file) else {
            return Err(Status::INVALID_HANDLE);
        };
        if !self.tree.is_folder(handle.node) {
            return Err(Status::INVALID_PARAMETER);
        }
        if !is_entry_class(class) {
            return Err(status::INVALID_INFO_CLASS);
        }
        if initial {
            return self.list_anew(file, class, units, room);
        }
        self.list_on(file, class, room)
    }

    /// Begins a listing with a pattern of its own.
    fn list_anew(&mut self, file: u32, class: u32, units: &[u16], room: Vec<u8>) -> Outcome
        requires sound { IsSound self.old }
        requires room { room.items ≡ [] }
        requires folder { IfSome (kept_handle self.old file) (λ h. is_folder self.old.tree (h.node).0 ≡ Some true) }
        requires class { is_listed (choice entry_classes class) ≡ true }
        ensures { Serves self.old self.new (on_handle (drive_of self.old) file (query_dir (drive_of self.old) file class true units.now)) result }
    {
        let Some(handle) = self.handle(file) else {
            return Err(Status::INVALID_HANDLE);
        };
        let pattern = match Pattern::of_path(self.alloc, units) {
            Ok(pattern) => pattern,
            Err(PathNo::Invalid { .. }) => return Err(status::OBJECT_NAME_INVALID),
            Err(PathNo::Memory) => return Err(Status::NO_MEMORY),
        };
        match self.listed(handle.node, None, &pattern, class, room) {
            Err(_) => Err(Status::NO_MEMORY),
            Ok(None) => {
                self.set_listing(file, pattern, None);
                Err(status::NO_SUCH_FILE)
            }
            Ok(Some(Listed { name, bytes })) => {
                self.set_listing(file, pattern, Some(name));
                Ok(Done::Replied(Body::Buffer(bytes), News::none()))
            }
        }
    }

    /// Goes on with a listing.
    fn list_on(&mut self, file: u32, class: u32, room: Vec<u8>) -> Outcome
        requires sound { IsSound self.old }
        requires room { room.items ≡ [] }
        requires folder { IfSome (kept_handle self.old file) (λ h. is_folder self.old.tree (h.node).0 ≡ Some true) }
        requires class { is_listed (choice entry_classes class) ≡ true }
        ensures { Serves self.old self.new (on_handle (drive_of self.old) file (query_dir (drive_of self.old) file class false [])) result }
    {
        let Some(handle) = self.handle(file) else {
            return Err(Status::INVALID_HANDLE);
        };
        match self.listed(
            handle.node,
            handle.last.as_ref(),
            &handle.pattern,
            class,
            room,
        ) {
            Err(_) => Err(Status::NO_MEMORY),
            Ok(None) => Err(status::NO_MORE_FILES),
            Ok(Some(Listed { name, bytes })) => {
                self.set_last(file, name);
                Ok(Done::Replied(Body::Buffer(bytes), News::none()))
            }
        }
    }

    /// What a listing gives next, where something is left.
    fn listed(
        &self,
        folder: NodeId,
        last: Option<&Units>,
        pattern: &Pattern,
        class: u32,
        room: Vec<u8>,
    ) -> Result<Option<Listed>, AllocError>
        requires sound { IsSound self.now }
        requires room { room.items ≡ [] }
        requires folder { is_folder self.now.tree folder.0 ≡ Some true }
        ensures { IfOk result (Finds (drive_of self.now) (own_path self.now.tree folder.0) pattern.now (option_map (λ other. other.now) last.entry) class) }
    {
        let Some(name) = self.tree.next(folder, last, pattern) else {
            return Ok(None);
        };
        let Some(node) = self.tree.child(folder, name.as_slice()) else {
            return Err(AllocError);
        };
        let entry = self.entry_of(node, name.copy()?);
        let name = name.copy()?;
        let mut room = room;
        match put_entry(&mut room, class, &entry) {
            Ok(()) => Ok(Some(Listed {
                name,
                bytes: Bytes::of(room),
            })),
            Err(_) => Err(AllocError),
        }
    }

    /// What a listing says of a node with a name.
    fn entry_of(&self, node: NodeId, name: Units) -> Entry
        requires live { IsLive self.now.tree node.0 }
        requires kept { IsSome (get nat_eq self.now.states node.0) }
        ensures { result ≡ record (entry_of (own_node self.now node.0)) { name = name } }
    {
        let end = self.tree.end(node);
        let folder = end.is_none();
        let end = end.unwrap_or(0);
        let state = self.state(node);
        Entry {
            moments: state.moments,
            end,
            allocation: allocation_for(end),
            attributes: shown_attributes(folder, state.attributes),
            name,
        }
    }

    /// A handle lists with a pattern from now on, after a name.
    fn set_listing(&mut self, file: u32, pattern: Pattern, last: Option<Units>)
        ensures { (h : Handle) → kept_handle self.old file ≡ Some h → Relists self.old file h pattern last self.new }
    {
        if let Some(handle) = self.handles.get_mut(&file) {
            handle.pattern = pattern;
            handle.last = last;
        }
    }

    /// A handle lists on after a name.
    fn set_last(&mut self, file: u32, last: Units)
        ensures { (h : Handle) → kept_handle self.old file ≡ Some h → Relists self.old file h h.pattern (Some last) self.new }
    {
        if let Some(handle) = self.handles.get_mut(&file) {
            handle.last = Some(last);
        }
    }
}
