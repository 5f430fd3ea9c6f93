//! What is set of a file or folder, and of the volume (MS-RDPEFS 2.2.3.3.9, MS-FSCC 2.4 and 2.5).

ghost use Rattle.std.specs.Prelude.{◌≡◌, ◌≢◌, ◌≤◌, ◌==◌, ◌||◌, if◌then◌else◌, not, bit_and, is_some, OnOk, IfErr, Ok, Err};
ghost use Rattle.rd_fileinfo.specs.declared.set_info.SetInfo.TheVariants as SetInfo;
ghost use Rattle.rd_tree.specs.Places.{bytes_at, IsFile, IsLive};
ghost use Rattle.rd_drive.specs.Access.{deletes, writes};
ghost use Rattle.rd_drive.specs.Outcome.{on_handle};
ghost use Rattle.rd_drive.specs.SetFile.{is_left, set_end, set_file, set_moments, set_or, set_outcome, set_pending};
ghost use Rattle.rd_drive.specs.SetVolume.{set_volume};
ghost use Rattle.rd_base.specs.Statuses.{access_denied, invalid_device_request};
ghost use Rattle.rd_drive.specs.Store.{drive_of, handle_of, IsSound, Serves};
ghost use Rattle.rd_drive.specs.Kept.{own_node, MaySet, MayNotSet};

use crate::access::{deletes, marks, writes};
use crate::handle::Handle;
use crate::news::{ATTRIBUTE_BITS, MODIFIED, News};
use crate::node::{is_readonly, stored_attributes};
use crate::read_write::MOST_BYTES;
use crate::status;
use crate::store::{Done, Outcome, Store};
use rd_base::{InfoNo, Moments, ReadNo, Status};
use rd_contents::{MAX_LEN, SizeNo};
use rd_fileinfo::classes::{ALLOCATION, BASIC, DISPOSITION, END_OF_FILE, LABEL, RENAME};
use rd_fileinfo::{SetInfo, read_label, read_set_info};
use rd_irp::Body;
use rd_tree::NodeId;

/// Whether a moment says that what is there is left (MS-FSCC 2.4.7).
fn is_left(moment: u64) -> bool
    ensures { result ≡ is_left moment }
{
    moment == 0 || moment == u64::MAX
}

/// The moment that is set, or else another.
fn set_or(asked: u64, other: u64) -> u64
    ensures { result ≡ set_or asked other }
{
    if is_left(asked) { other } else { asked }
}

/// The moments as they are set (MS-FSCC 2.4.7), in units of 100 ns since 1601-01-01 UTC. A change that is left is the moment of this request.
pub fn set_moments(old: Moments, asked: Moments, moment: u64) -> Moments
    ensures { result ≡ set_moments old asked moment }
{
    Moments {
        creation: set_or(asked.creation, old.creation),
        access: set_or(asked.access, old.access),
        write: set_or(asked.write, old.write),
        change: set_or(asked.change, moment),
    }
}

/// The attributes as they are stored once they are set (MS-FSCC 2.4.7, 2.6); attributes of 0 are left.
pub fn set_attributes(folder: bool, old: u32, asked: u32) -> u32
    ensures { result ≡ (if asked == 0 then old else (if folder then bit_and asked 7 else bit_and asked 0x27)) }
{
    if asked == 0 {
        old
    } else {
        stored_attributes(folder, asked)
    }
}

/// A refusal, ACCESS_DENIED, unless the access allows it.
pub fn allowed(allows: bool) -> Result<(), Status>
    ensures { result ≡ (if not allows then Err access_denied else Ok tt) }
{
    if allows {
        Ok(())
    } else {
        Err(status::ACCESS_DENIED)
    }
}

/// Refuses a handle whose node may not be deleted or get another path, as the root may not.
fn check_delete(handle: &Handle) -> Result<(), Status>
    ensures { result ≡ (if (not (deletes handle.now.access) || handle.now.node.0 == 0) then Err access_denied else Ok tt) }
{
    if handle.node.0 == 0 {
        return Err(status::ACCESS_DENIED);
    }
    allowed(deletes(handle.access))
}

impl Store {
    /// Refuses a handle whose node's bytes may not be set.
    fn check_resize(&self, handle: &Handle) -> Result<(), Status>
        requires { IsLive self.now.tree handle.now.node.0 }
        ensures { result ≡ (if not (is_some (bytes_at self.now.tree handle.now.node.0)) then Err invalid_device_request else (if not (writes handle.now.access) then Err access_denied else Ok tt)) }
    {
        if self.tree.is_folder(handle.node) {
            return Err(status::INVALID_DEVICE_REQUEST);
        }
        allowed(writes(handle.access))
    }

    /// Refuses a handle for which a class may not be set.
    fn check_set(&self, handle: &Handle, class: u32) -> Result<(), Status>
        requires sound { IsSound self.now }
        requires live { IsLive self.now.tree handle.now.node.0 }
        ensures ok { OnOk result (MaySet (drive_of self.now) (handle_of self.now.tree handle.now) (own_node self.now handle.now.node.0) class) }
        ensures err { IfErr result (MayNotSet (drive_of self.now) (handle_of self.now.tree handle.now) (own_node self.now handle.now.node.0) class) }
    {
        match class {
            BASIC => allowed(marks(handle.access)),
            RENAME => check_delete(handle),
            DISPOSITION => check_delete(handle),
            ALLOCATION => self.check_resize(handle),
            END_OF_FILE => self.check_resize(handle),
            _ => Err(status::INVALID_INFO_CLASS),
        }
    }

    pub fn set_file(&mut self, file: u32, class: u32, bytes: &[u8], moment: u64) -> Outcome
        requires { IsSound self.old }
        ensures { Serves self.old self.new (on_handle (drive_of self.old) file (set_file (drive_of self.old) moment class bytes.now)) result }
    {
        let Some(handle) = self.handle(file) else {
            return Err(Status::INVALID_HANDLE);
        };
        let node = handle.node;
        match self.check_set(handle, class) {
            Ok(()) => {}
            Err(status) => return Err(status),
        }
        if bytes.len() > MOST_BYTES {
            return Err(Status::NO_MEMORY);
        }
        let count = bytes.len() as u32;
        match read_set_info(self.alloc, class, bytes) {
            Ok(
                SetInfo::Basic {
                    moments,
                    attributes,
                },
            ) => Ok(self.set_basic(node, moments, attributes, count, moment)),
            Ok(SetInfo::Rename { replace, path }) => {
                self.rename(node, path.as_slice(), replace, count, moment)
            }
            Ok(SetInfo::Disposition(pending)) => self.set_pending(node, pending, count),
            Ok(SetInfo::Allocation(size)) => {
                let end = self.tree.end(node).unwrap_or(0);
                self.set_end(node, size, size.min(end), count, moment)
            }
            Ok(SetInfo::EndOfFile(end)) => self.set_end(node, end, end, count, moment),
            Err(InfoNo::Memory) => Err(Status::NO_MEMORY),
            Err(InfoNo::Class(_)) => Err(Status::INVALID_PARAMETER),
            Err(InfoNo::Bad(_)) => Err(Status::INVALID_PARAMETER),
        }
    }

    /// Sets moments and attributes; attributes of 0 are left.
    fn set_basic(
        &mut self,
        node: NodeId,
        moments: Moments,
        attributes: u32,
        count: u32,
        moment: u64,
    ) -> Done
        requires sound { IsSound self.old }
        requires live { IsLive self.old.tree node.0 }
        ensures { Serves self.old self.new (set_outcome (drive_of self.old) moment count (own_node self.old node.0) (SetInfo.Basic moments attributes)) (Ok result) }
    {
        let folder = self.tree.is_folder(node);
        let mut state = self.state(node);
        state.attributes = set_attributes(folder, state.attributes, attributes);
        state.moments = set_moments(state.moments, moments, moment);
        self.set_state(node, state);
        Done::Replied(
            Body::Count(count),
            News::changed(MODIFIED, node, ATTRIBUTE_BITS),
        )
    }

    /// Marks a node that isn't the root, or takes its mark away.
    fn set_pending(&mut self, node: NodeId, pending: bool, count: u32) -> Outcome
        requires sound { IsSound self.old }
        requires live { IsLive self.old.tree node.0 }
        requires other { 0 ≢ node.0 }
        ensures { Serves self.old self.new (set_pending (drive_of self.old) count (own_node self.old node.0) pending) result }
    {
        let mut state = self.state(node);
        if pending {
            let folder = self.tree.is_folder(node);
            if is_readonly(folder, state.attributes) {
                return Err(status::ACCESS_DENIED);
            }
            if folder && self.tree.has_child(node) {
                return Err(status::DIRECTORY_NOT_EMPTY);
            }
        }
        state.pending = pending;
        self.set_state(node, state);
        Ok(Done::Replied(Body::Count(count), News::none()))
    }

    /// Cuts a file at an end, or extends it by zeros. What is asked, which is no less, has to be within the limit.
    fn set_end(&mut self, node: NodeId, asked: u64, end: u64, count: u32, moment: u64) -> Outcome
        requires sound { IsSound self.old }
        requires file { IsFile self.old.tree node.0 }
        requires most { end ≤ asked }
        ensures { Serves self.old self.new (set_end (drive_of self.old) moment count (own_node self.old node.0) asked end) result }
    {
        if asked > MAX_LEN {
            return Err(status::DISK_FULL);
        }
        match self.tree.resize(node, end) {
            Ok(()) => Ok(self.written(node, count, moment)),
            Err(SizeNo::TooBig) => Err(status::DISK_FULL),
            Err(SizeNo::Memory) => Err(Status::NO_MEMORY),
        }
    }

    pub fn set_volume(&mut self, file: u32, class: u32, bytes: &[u8]) -> Outcome
        requires { IsSound self.old }
        ensures { Serves self.old self.new (on_handle (drive_of self.old) file (set_volume (drive_of self.old) class bytes.now)) result }
    {
        let Some(_) = self.handle(file) else {
            return Err(Status::INVALID_HANDLE);
        };
        if class != LABEL {
            return Err(status::INVALID_INFO_CLASS);
        }
        if bytes.len() > MOST_BYTES {
            return Err(Status::NO_MEMORY);
        }
        match read_label(self.alloc, bytes) {
            Ok(label) => {
                self.label = label;
                Ok(Done::Replied(Body::Count(bytes.len() as u32), News::none()))
            }
            Err(ReadNo::Memory) => Err(Status::NO_MEMORY),
            Err(ReadNo::Bad(_)) => Err(Status::INVALID_PARAMETER),
        }
    }
}
