//! Create: opening what is there, or making it (MS-RDPEFS 2.2.1.4.1).

ghost use Rattle.std.specs.Prelude.{◌≡◌, ◌+◌, ◌<◌, ◌^◌, List, length, nat_eq, false, None, Some, IsSome, IfErr, IfOk, OnErr, OnOk};
ghost use Rattle.std.specs.HashMap.{get};
ghost use Rattle.rd_irp.specs.declared.completion.Body.TheVariants as Body;
ghost use Rattle.rd_drive.specs.declared.access.Use.{Use};
ghost use Rattle.rd_drive.specs.declared.store.Done.TheVariants as Done;
ghost use Rattle.rd_drive.specs.Create.{create, is_full, make_node, open_node};
ghost use Rattle.rd_drive.specs.Kept.{own_node, IsKept};
ghost use Rattle.rd_drive.specs.Made.{with_asked_use, create_at, first_no, open_checks, renewed, replace, AddsHandle, IsAlike};
ghost use Rattle.rd_base.specs.Statuses.{no_memory};
ghost use Rattle.rd_drive.specs.Store.{drive_of, state_of, IsSound, Serves};
ghost use Rattle.rd_tree.specs.Places.{folder_of, node_at, IsFile, IsLive};
ghost use Rattle.rd_drive.specs.Uses.{uses_of};

use crate::access::{use_of, writes};
use crate::asked::{Asked, SUPERSEDED};
use crate::handle::Handle;
use crate::news::{ADDED, CONTENT_BITS, MODIFIED, News, name_bit};
use crate::node::{NodeState, is_readonly};
use crate::status;
use crate::store::{Done, Outcome, Store};
use rd_base::Status;
use rd_dirinfo::{Path, PathNo, Pattern};
use rd_irp::Body;
use rd_tree::{AddNo, NodeId};

impl Store {
    pub fn create(&mut self, asked: Asked, units: &[u16], moment: u64) -> Outcome
        requires sound { IsSound self.old }
        ensures { Serves self.old self.new (create (drive_of self.old) moment asked units.now) result }
    {
        if asked.is_contradictory() {
            return Err(Status::INVALID_PARAMETER);
        }
        let path = match Path::split(self.alloc, units) {
            Ok(path) => path,
            Err(PathNo::Invalid { .. }) => return Err(status::OBJECT_NAME_INVALID),
            Err(PathNo::Memory) => return Err(Status::NO_MEMORY),
        };
        self.open_or_make(asked, &path, moment)
    }

    /// Opens what is at a path, or makes it.
    fn open_or_make(&mut self, asked: Asked, path: &Path, moment: u64) -> Outcome
        requires { IsSound self.old }
        ensures { Serves self.old self.new (create_at (drive_of self.old) moment asked path.now) result }
    {
        if self.is_full() {
            return Err(Status::TOO_MANY_OPENED_FILES);
        }
        let found = self.tree.look(path);
        if let Some(node) = found.node {
            return self.open_node(asked, node, moment);
        }
        match found.folder {
            Some(folder) => self.make_node(asked, path, folder, moment),
            None => Err(status::OBJECT_PATH_NOT_FOUND),
        }
    }

    /// Opens what is there.
    fn open_node(&mut self, asked: Asked, node: NodeId, moment: u64) -> Outcome
        requires sound { IsSound self.old }
        requires live { IsLive self.old.tree node.0 }
        requires free { is_full (drive_of self.old) ≡ false }
        ensures { Serves self.old self.new (open_node (drive_of self.old) asked moment (own_node self.old node.0)) result }
    {
        self.ordered();
        let folder = self.tree.is_folder(node);
        let state = self.state(node);
        if let Some(no) = refusal(&asked, folder, node.0 == 0, &state) {
            return Err(no);
        }
        if asked.replaces() {
            return self.replace(asked, node, moment);
        }
        let file = match self.add_handle(asked, node) {
            Ok(file) => file,
            Err(no) => return Err(no),
        };
        self.count_handle(asked, node);
        Ok(created(file, asked.information(), News::none()))
    }

    /// Opens a file that is there, without its bytes.
    fn replace(&mut self, asked: Asked, node: NodeId, moment: u64) -> Outcome
        requires sound { IsSound self.old }
        requires file { IsFile self.old.tree node.0 }
        requires free { is_full (drive_of self.old) ≡ false }
        ensures { Serves self.old self.new (replace (drive_of self.old) asked moment (own_node self.old node.0)) result }
    {
        let file = match self.add_handle(asked, node) {
            Ok(file) => file,
            Err(no) => return Err(no),
        };
        if self.tree.resize(node, 0).is_err() {
            self.handles.remove(&file);
            return Err(Status::NO_MEMORY);
        }
        self.renew(asked, node, moment);
        self.count_handle(asked, node);
        Ok(created(
            file,
            asked.information(),
            News::changed(MODIFIED, node, CONTENT_BITS),
        ))
    }

    /// A file is replaced at a moment.
    fn renew(&mut self, asked: Asked, node: NodeId, moment: u64)
        requires { IsSome (get nat_eq self.old.states node.0) }
        ensures others { self.new ≡ record self.old { states = self.new.states } }
        ensures kept { IsKept self.old.states self.new.states node.0 (renewed (state_of self.old.states node.0) asked moment) }
    {
        let mut state = self.state(node);
        state.attributes = asked.file_attributes();
        state.moments.write = moment;
        state.moments.change = moment;
        self.set_state(node, state);
    }

    /// Makes a folder, or an empty file, where nothing is.
    fn make_node(&mut self, asked: Asked, path: &Path, folder: NodeId, moment: u64) -> Outcome
        requires sound { IsSound self.old }
        requires free { is_full (drive_of self.old) ≡ false }
        requires folder { folder_of self.old.tree path.now ≡ Some folder.0 }
        requires absent { node_at self.old.tree path.now ≡ None }
        ensures { Serves self.old self.new (make_node (drive_of self.old) asked moment path.now) result }
    {
        self.ordered();
        let _ = path.names();
        if asked.needs_node() {
            return Err(Status::OBJECT_NAME_NOT_FOUND);
        }
        if self.state(folder).pending {
            return Err(status::DELETE_PENDING);
        }
        let is_folder = asked.wants_folder();
        let attributes = asked.new_attributes();
        let node = match self.add_node(folder, path, is_folder, attributes, moment) {
            Ok(node) => node,
            Err(AddNo::Full) => return Err(status::DISK_FULL),
            Err(_) => return Err(Status::NO_MEMORY),
        };
        match self.add_handle(asked, node) {
            Ok(file) => {
                self.count_handle(asked, node);
                let news = News::changed(ADDED, node, name_bit(is_folder));
                Ok(created(file, SUPERSEDED, news))
            }
            Err(no) => {
                self.take_back(node);
                Err(no)
            }
        }
    }

    /// Whether no further handle can be made.
    fn is_full(&self) -> bool
        ensures { result ≡ is_full (drive_of self.now) }
    {
        self.handles.len() >= MAX_HANDLES || self.next >= FILE_ID_LIMIT
    }

    /// Gives the next file id a handle on a node.
    fn add_handle(&mut self, asked: Asked, node: NodeId) -> Result<u32, Status>
        requires { self.old.next < 2 ^ 32 }
        ensures file { IfOk result (λ file. file ≡ self.old.next) }
        ensures added { OnOk result (AddsHandle self.old self.new asked node) }
        ensures no_memory { IfErr result (λ status. status ≡ no_memory) }
        ensures err { OnErr result (IsAlike self.old self.new) }
    {
        let file = self.next as u32;
        let handle = Handle {
            node,
            access: asked.access,
            share: asked.share,
            delete_on_close: asked.deletes_on_close(),
            pattern: Pattern::any(self.alloc),
            last: None,
        };
        match self.handles.insert(file, handle) {
            Ok(_) => Ok(file),
            Err(_) => Err(Status::NO_MEMORY),
        }
    }

    /// Counts the handle of the next file id, which was made.
    fn count_handle(&mut self, asked: Asked, node: NodeId)
        requires kept { IsSome (get nat_eq self.old.states node.0) }
        requires next { self.old.next < 2 ^ 32 }
        requires few { (uses : List Use) × ((state_of self.old.states node.0).uses ≡ uses_of uses) × (length uses < 4096) }
        ensures others { self.new ≡ record self.old { states = self.new.states; next = self.old.next + 1 } }
        ensures kept { IsKept self.old.states self.new.states node.0 (with_asked_use (state_of self.old.states node.0) asked) }
    {
        self.next += 1;
        let mut state = self.state(node);
        state.uses.add(use_of(asked.access, asked.share));
        self.set_state(node, state);
    }
}

/// Why what is there isn't opened.
fn refusal(asked: &Asked, folder: bool, root: bool, state: &NodeState) -> Option<Status>
    ensures { result ≡ first_no (open_checks asked.now folder root state.now) }
{
    if asked.needs_none() {
        return Some(status::OBJECT_NAME_COLLISION);
    }
    if asked.wants_folder() && !folder {
        return Some(status::NOT_A_DIRECTORY);
    }
    if folder && (asked.wants_file() || asked.replaces()) {
        return Some(status::FILE_IS_A_DIRECTORY);
    }
    if state.pending {
        return Some(status::DELETE_PENDING);
    }
    if asked.deletes_on_close() && root {
        return Some(status::ACCESS_DENIED);
    }
    if is_readonly(folder, state.attributes) && (writes(asked.access) || asked.replaces()) {
        return Some(status::ACCESS_DENIED);
    }
    if state.uses.clash(asked.usage()) {
        return Some(status::SHARING_VIOLATION);
    }
    None
}

/// The most handles of a drive.
pub const MAX_HANDLES: usize = 4096;

/// What every file id is below.
pub const FILE_ID_LIMIT: u64 = 1 << 32;

fn created(file: u32, information: u8, news: News) -> Done
    ensures { result ≡ Done.Replied (Body.Created file information) news }
{
    Done::Replied(Body::Created { file, information }, news)
}
