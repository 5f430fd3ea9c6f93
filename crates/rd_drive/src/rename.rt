//! Renaming (MS-FSCC 2.4.42).

ghost use Rattle.std.specs.Prelude.{◌≡◌, ◌≢◌, ◌&&◌, ◌||◌, not, bytes_eq, if◌then◌else◌, [], Some, None, IfOk, nat_eq, ℕ};
ghost use Rattle.std.specs.Option.{IsSome};
ghost use Rattle.std.specs.HashMap.{get};
ghost use Rattle.rd_irp.specs.declared.completion.Body.TheVariants as Body;
ghost use Rattle.rd_dirinfo.specs.Paths.{last_name};
ghost use Rattle.rd_tree.specs.Places.{IsLive, bytes_at, node_at, own_path};
ghost use Rattle.rd_drive.specs.declared.store.Done.TheVariants as Done;
ghost use Rattle.rd_drive.specs.DriveState.{made_path};
ghost use Rattle.rd_drive.specs.Rename.{is_protected, relocate, rename_to, respell};
ghost use Rattle.rd_drive.specs.Renaming.{changed_at, kind_bit, move_status, rename_path, renaming, IsGoing};
ghost use Rattle.rd_drive.specs.Store.{drive_of, state_of, IsSound, Serves};
ghost use Rattle.rd_drive.specs.Kept.{own_node, IsKept};

use crate::news::{Change, Named, News, REMOVED, RENAMED_FROM, RENAMED_TO, name_bit};
use crate::node::is_readonly;
use crate::status;
use crate::store::{Done, Outcome, Store};
use rd_base::{Status, Units};
use rd_dirinfo::{Path, PathNo};
use rd_irp::Body;
use rd_tree::{MoveNo, NodeId};
use std::alloc::AllocError;

/// Whether a path has this name as its last.
fn ends_in(path: &Path, name: &Units) -> bool
    requires { path.now ≢ [] }
    ensures { result ≡ bytes_eq name.now (last_name path.now) }
{
    match path.names().last() {
        Some(last) => name.as_slice() == last.as_slice(),
        None => true,
    }
}

/// Why a path isn't given to a node.
fn move_status(no: MoveNo, replace: bool) -> Status
    ensures { result ≡ move_status no replace }
{
    match no {
        MoveNo::Inside => Status::INVALID_PARAMETER,
        MoveNo::PathNotFound => status::OBJECT_PATH_NOT_FOUND,
        MoveNo::TooDeep => status::OBJECT_NAME_INVALID,
        MoveNo::Collision if replace => status::ACCESS_DENIED,
        MoveNo::Collision => status::OBJECT_NAME_COLLISION,
        MoveNo::Memory => Status::NO_MEMORY,
    }
}

/// Whether one of three tests holds.
fn any_of(first: bool, second: bool, third: bool) -> bool
    ensures { result ≡ (first || second || third) }
{
    first || second || third
}

impl Store {
    /// Gives a node that isn't the root the path that some units spell.
    pub fn rename(
        &mut self,
        node: NodeId,
        units: &[u16],
        replace: bool,
        count: u32,
        moment: u64,
    ) -> Outcome
        requires sound { IsSound self.old }
        requires live { IsLive self.old.tree node.0 }
        requires other { 0 ≢ node.0 }
        ensures { Serves self.old self.new (rename_to (drive_of self.old) moment count (own_node self.old node.0) replace units.now) result }
    {
        match Path::split(self.alloc, units) {
            Ok(path) => self.rename_path(node, &path, replace, count, moment),
            Err(PathNo::Invalid { .. }) => Err(status::OBJECT_NAME_INVALID),
            Err(PathNo::Memory) => Err(Status::NO_MEMORY),
        }
    }

    /// Gives a node that isn't the root a path.
    fn rename_path(
        &mut self,
        node: NodeId,
        path: &Path,
        replace: bool,
        count: u32,
        moment: u64,
    ) -> Outcome
        requires sound { IsSound self.old }
        requires live { IsLive self.old.tree node.0 }
        requires other { 0 ≢ node.0 }
        ensures { Serves self.old self.new (rename_path (drive_of self.old) moment count (own_node self.old node.0) replace path.now) result }
    {
        if path.names().is_empty() {
            return Err(status::ACCESS_DENIED);
        }
        let Ok(old) = self.tree.name(node).copy() else {
            return Err(Status::NO_MEMORY);
        };
        match self.tree.find(path) {
            Some(target) => {
                if target.0 == node.0 {
                    return self.respell(node, old, path, count, moment);
                }
                self.replace_by(node, old, path, target, replace, count, moment)
            }
            None => self.relocate(node, old, path, replace, count, moment),
        }
    }

    /// To its own path: the name is kept as it is asked now, where it has other units.
    fn respell(&mut self, node: NodeId, old: Units, path: &Path, count: u32, moment: u64) -> Outcome
        requires sound { IsSound self.old }
        requires live { IsLive self.old.tree node.0 }
        requires other { 0 ≢ node.0 }
        requires name { old ≡ last_name (own_path self.old.tree node.0) }
        requires path { path.now ≢ [] }
        requires own { node_at self.old.tree path.now ≡ Some node.0 }
        ensures { Serves self.old self.new (respell (drive_of self.old) moment count (own_node self.old node.0) (made_path (drive_of self.old) path.now)) result }
    {
        if ends_in(path, &old) {
            return Ok(Done::Replied(Body::Count(count), News::none()));
        }
        self.ordered();
        let folder = self.tree.parent(node);
        match self.tree.rename(node, path, false) {
            Ok(()) => Ok(self.renamed(node, folder, old, None, count, moment)),
            Err(_) => Err(Status::NO_MEMORY),
        }
    }

    /// To a path where nothing stands.
    fn relocate(
        &mut self,
        node: NodeId,
        old: Units,
        path: &Path,
        replace: bool,
        count: u32,
        moment: u64,
    ) -> Outcome
        requires sound { IsSound self.old }
        requires live { IsLive self.old.tree node.0 }
        requires other { 0 ≢ node.0 }
        requires name { old ≡ last_name (own_path self.old.tree node.0) }
        requires path { path.now ≢ [] }
        requires free { node_at self.old.tree path.now ≡ None }
        ensures { Serves self.old self.new (relocate (drive_of self.old) moment count (own_node self.old node.0) replace path.now (made_path (drive_of self.old) path.now) None) result }
    {
        self.ordered();
        let folder = self.tree.parent(node);
        match self.tree.rename(node, path, false) {
            Ok(()) => Ok(self.renamed(node, folder, old, None, count, moment)),
            Err(no) => Err(move_status(no, replace)),
        }
    }

    /// To a path where another node stands.
    fn replace_by(
        &mut self,
        node: NodeId,
        old: Units,
        path: &Path,
        target: NodeId,
        replace: bool,
        count: u32,
        moment: u64,
    ) -> Outcome
        requires sound { IsSound self.old }
        requires live { IsLive self.old.tree node.0 }
        requires other { 0 ≢ node.0 }
        requires name { old ≡ last_name (own_path self.old.tree node.0) }
        requires path { path.now ≢ [] }
        requires at { node_at self.old.tree path.now ≡ Some target.0 }
        requires apart { target.0 ≢ node.0 }
        requires there { IsLive self.old.tree target.0 }
        requires below { 0 ≢ target.0 }
        ensures { Serves self.old self.new (relocate (drive_of self.old) moment count (own_node self.old node.0) replace path.now (made_path (drive_of self.old) path.now) (Some (own_node self.old target.0))) result }
    {
        self.ordered();
        let replaces = self.may_replace(target, replace);
        let Ok(gone) = self.gone(target) else {
            return Err(Status::NO_MEMORY);
        };
        let folder = self.tree.parent(node);
        match self.tree.rename(node, path, replaces) {
            Ok(()) => {
                self.forget(target);
                Ok(self.renamed(node, folder, old, Some(gone), count, moment))
            }
            Err(no) => Err(move_status(no, replace)),
        }
    }

    /// Whether a node is replaced, where that is asked for.
    fn may_replace(&self, node: NodeId, replace: bool) -> bool
        requires sound { IsSound self.now }
        requires live { IsLive self.now.tree node.0 }
        ensures { result ≡ (replace && not (is_protected (drive_of self.now) (own_node self.now node.0))) }
    {
        if replace {
            !self.is_protected(node)
        } else {
            false
        }
    }

    /// Whether a node can't be replaced: a folder, a file that is read-only, or one that is open.
    fn is_protected(&self, node: NodeId) -> bool
        requires sound { IsSound self.now }
        requires live { IsLive self.now.tree node.0 }
        ensures { result ≡ is_protected (drive_of self.now) (own_node self.now node.0) }
    {
        self.ordered();
        let folder = self.tree.is_folder(node);
        let state = self.state(node);
        let readonly = is_readonly(folder, state.attributes);
        let open = state.uses.handles > 0;
        any_of(folder, readonly, open)
    }

    /// The change that a node went, which isn't told yet. The root never goes.
    fn gone(&self, node: NodeId) -> Result<Change, AllocError>
        requires live { IsLive self.now.tree node.0 }
        requires other { 0 ≢ node.0 }
        ensures { IfOk result (λ change. IsGoing self.now.tree node.0 change) }
    {
        let name = self.tree.name(node).copy()?;
        Ok(Change {
            action: REMOVED,
            named: Named::Gone {
                folder: self.tree.parent(node),
                name,
            },
            bits: name_bit(self.tree.is_folder(node)),
        })
    }

    /// Keeps nothing of a node that went.
    fn forget(&mut self, node: NodeId)
        ensures others { self.new ≡ record self.old { states = self.new.states } }
        ensures states { (n : ℕ) → get nat_eq self.new.states n ≡ (if nat_eq node.0 n then None else get nat_eq self.old.states n) }
    {
        self.states.remove(&node.0);
    }

    /// A node has another path, or name, since this moment.
    fn renamed(
        &mut self,
        node: NodeId,
        folder: NodeId,
        old: Units,
        gone: Option<Change>,
        count: u32,
        moment: u64,
    ) -> Done
        requires live { IsLive self.old.tree node.0 }
        requires kept { IsSome (get nat_eq self.old.states node.0) }
        ensures others { self.new ≡ record self.old { states = self.new.states } }
        ensures kept { IsKept self.old.states self.new.states node.0 (changed_at (state_of self.old.states node.0) moment) }
        ensures told { result ≡ Done.Replied (Body.Count count) (renaming gone folder old node (kind_bit (bytes_at self.old.tree node.0))) }
    {
        let mut state = self.state(node);
        state.moments.change = moment;
        self.set_state(node, state);
        let bits = name_bit(self.tree.is_folder(node));
        let from = Change {
            action: RENAMED_FROM,
            named: Named::Gone { folder, name: old },
            bits,
        };
        let to = Change {
            action: RENAMED_TO,
            named: Named::Node(node),
            bits,
        };
        let news = News {
            closed: None,
            unlocked: None,
            changes: [gone, Some(from), Some(to)],
        };
        Done::Replied(Body::Count(count), news)
    }
}
