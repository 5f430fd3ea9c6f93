//! What is set of a file or folder (MS-RDPEFS 2.2.3.3.9, MS-FSCC 2.4).

ghost use Rattle.std.specs.Prelude.{◌≡◌, ◌≤◌, ℕ, ◌==◌, ◌||◌, if◌then◌else◌, not, length, OnOk, IfErr, Ok, Err, Some};
ghost use Rattle.rd_base.specs.Statuses.{access_denied, invalid_device_request};
ghost use Rattle.rd_fileinfo.specs.declared.set_info.SetInfo.TheVariants as SetInfo;
ghost use Rattle.rd_irp.specs.declared.completion.Body.TheVariants as Body;
ghost use Rattle.rd_irp.specs.declared.op.Op.TheVariants as Op;
ghost use Rattle.rd_drive.specs.Access.{deletes, writes};
ghost use Rattle.rd_drive.specs.Outcome.{on_handle};
ghost use Rattle.rd_drive.specs.SetFile.{set_file};
ghost use Rattle.rd_folder_drive.specs.Files.{files_in};
ghost use Rattle.rd_folder_drive.specs.Served.{seen, FitsBody, IfReplied, IsOver, IsOwnStatus, Serves};
ghost use Rattle.rd_folder_drive.specs.Setting.{ends, sets_of, IsBelowRoot, IsOpenFile, HasNodeThere, MayBePending, MayNotGo, MayNotSetOpen, MaySetOpen, OfOpen, SetsPending};
ghost use Rattle.rd_folder_drive.specs.Table.{open_at, IsSound};
ghost use Rattle.rd_folder_drive.specs.Waits.{StaysWaiting};
ghost use Rattle.rd_folder_drive.specs.declared.open.Open.{Open};

use crate::asking::{has_names, look};
use crate::handle::Handle;
use crate::news::News;
use crate::open::Open;
use crate::table::{Done, Outcome, Table, folder_status};
use rd_base::{InfoNo, Moments, Status};
use rd_contents::MAX_LEN;
use rd_drive::access::{deletes, marks, writes};
use rd_drive::news::{ATTRIBUTE_BITS, CONTENT_BITS, MODIFIED};
use rd_drive::node::is_readonly;
use rd_drive::read_write::MOST_BYTES;
use rd_drive::set_file::{allowed, set_attributes, set_moments};
use rd_drive::status;
use rd_fileinfo::classes::{ALLOCATION, BASIC, DISPOSITION, END_OF_FILE, RENAME};
use rd_fileinfo::{SetInfo, read_set_info};
use rd_folder::Folder;
use rd_irp::Body;
use std::alloc::Global;

/// Refuses what may not be deleted or get another path, as the root may not.
fn check_delete(handle: &Handle, opened: &Open) -> Result<(), Status>
    ensures { result ≡ (if (not (deletes handle.now.access) || length opened.now.path == 0) then Err access_denied else Ok tt) }
{
    if opened.path.names().is_empty() {
        return Err(status::ACCESS_DENIED);
    }
    allowed(deletes(handle.access))
}

/// Refuses what has no bytes that may be set.
fn check_resize(handle: &Handle, opened: &Open) -> Result<(), Status>
    ensures { result ≡ (if opened.now.folder then Err invalid_device_request else (if not (writes handle.now.access) then Err access_denied else Ok tt)) }
{
    if opened.folder {
        return Err(status::INVALID_DEVICE_REQUEST);
    }
    allowed(writes(handle.access))
}

/// Refuses a handle for which a class may not be set.
fn check_set(handle: &Handle, opened: &Open, class: u32) -> Result<(), Status>
    ensures ok { OnOk result (MaySetOpen handle.now opened.now class) }
    ensures err { IfErr result (MayNotSetOpen handle.now opened.now class) }
    ensures own { IfErr result IsOwnStatus }
{
    match class {
        BASIC => allowed(marks(handle.access)),
        RENAME => check_delete(handle, opened),
        DISPOSITION => check_delete(handle, opened),
        ALLOCATION => check_resize(handle, opened),
        END_OF_FILE => check_resize(handle, opened),
        _ => Err(status::INVALID_INFO_CLASS),
    }
}

/// Refuses what may not go: a file that is read-only, and a folder in which something stands.
fn check_going<F: Folder>(alloc: Global, folder: &mut F, opened: &Open) -> Result<(), Status>
    requires there { HasNodeThere (seen F.nodes F.faults folder.old) opened.now }
    ensures ok { OnOk result ((seen F.nodes F.faults folder.new ≡ seen F.nodes F.faults folder.old) × MayBePending (seen F.nodes F.faults folder.old) opened.now) }
    ensures err { IfErr result (MayNotGo (seen F.nodes F.faults folder.old) (seen F.nodes F.faults folder.new) opened.now) }
{
    if opened.folder {
        return match has_names(alloc, folder, opened.path.names()) {
            Ok(false) => Ok(()),
            Ok(true) => Err(status::DIRECTORY_NOT_EMPTY),
            Err(status) => Err(status),
        };
    }
    match look(folder, opened.path.names()) {
        Ok(Some(look)) if is_readonly(look.folder, look.attributes) => Err(status::ACCESS_DENIED),
        Ok(Some(_)) => Ok(()),
        Ok(None) => Err(Status::INVALID_HANDLE),
        Err(status) => Err(status),
    }
}

impl Table {
    pub fn set_file<F: Folder>(
        &mut self,
        folder: &mut F,
        file: u32,
        class: u32,
        bytes: &[u8],
        moment: u64,
    ) -> Outcome
        requires sound { IsSound self.old }
        requires over { IsOver self.old (seen F.nodes F.faults folder.old) }
        ensures serves { Serves self.old (seen F.nodes F.faults folder.old) self.new (seen F.nodes F.faults folder.new) (λ s. on_handle s file (set_file s moment class bytes.now)) result }
        ensures waits { StaysWaiting self.old self.new result }
        ensures files { files_in self.new ≡ files_in self.old }
        ensures fits { IfReplied result (FitsBody (Op.SetFile class bytes.now)) }
    {
        let Some((handle, opened)) = self.held(file) else {
            return Err(Status::INVALID_HANDLE);
        };
        match check_set(handle, opened, class) {
            Ok(()) => {}
            Err(status) => return Err(status),
        }
        if bytes.len() > MOST_BYTES {
            return Err(Status::NO_MEMORY);
        }
        let count = bytes.len() as u32;
        match read_set_info(self.alloc, class, bytes) {
            Ok(
                SetInfo::Basic {
                    moments,
                    attributes,
                },
            ) => self.set_basic(folder, file, moments, attributes, count, moment),
            Ok(SetInfo::Rename { replace, path }) => {
                self.rename(folder, file, path.as_slice(), replace, count, moment)
            }
            Ok(SetInfo::Disposition(pending)) => self.set_pending(folder, file, pending, count),
            Ok(SetInfo::Allocation(size)) => self.set_allocation(folder, file, size, count, moment),
            Ok(SetInfo::EndOfFile(end)) => self.set_end(folder, file, end, end, count, moment),
            Err(InfoNo::Memory) => Err(Status::NO_MEMORY),
            Err(InfoNo::Class(_)) => Err(Status::INVALID_PARAMETER),
            Err(InfoNo::Bad(_)) => Err(Status::INVALID_PARAMETER),
        }
    }

    /// Sets moments and attributes; attributes of 0 are left.
    fn set_basic<F: Folder>(
        &self,
        folder: &mut F,
        file: u32,
        asked: Moments,
        attributes: u32,
        count: u32,
        moment: u64,
    ) -> Outcome
        requires sound { IsSound self.now }
        requires over { IsOver self.now (seen F.nodes F.faults folder.old) }
        ensures serves { Serves self.now (seen F.nodes F.faults folder.old) self.now (seen F.nodes F.faults folder.new) (sets_of file moment count (SetInfo.Basic asked attributes)) result }
        ensures waits { StaysWaiting self.now self.now result }
        ensures body { IfReplied result (λ body. body ≡ Body.Count count) }
    {
        let Some((handle, opened)) = self.held(file) else {
            return Err(Status::INVALID_HANDLE);
        };
        let look = match look(folder, opened.path.names()) {
            Ok(Some(look)) => look,
            Ok(None) => return Err(Status::INVALID_HANDLE),
            Err(status) => return Err(status),
        };
        let attributes = set_attributes(look.folder, look.attributes, attributes);
        let moments = set_moments(look.moments, asked, moment);
        match folder.mark(opened.path.names(), attributes, moments) {
            Ok(()) => Ok(Done::Replied(
                Body::Count(count),
                News::changed(MODIFIED, handle.node, ATTRIBUTE_BITS),
            )),
            Err(no) => Err(folder_status(no)),
        }
    }

    /// Cuts a file at an end, or extends it by zeros. What is asked, which is no less, has to be within the limit.
    fn set_end<F: Folder>(
        &self,
        folder: &mut F,
        file: u32,
        asked: u64,
        end: u64,
        count: u32,
        moment: u64,
    ) -> Outcome
        requires sound { IsSound self.now }
        requires over { IsOver self.now (seen F.nodes F.faults folder.old) }
        requires file { OfOpen self.now file IsOpenFile }
        requires most { end ≤ asked }
        ensures serves { Serves self.now (seen F.nodes F.faults folder.old) self.now (seen F.nodes F.faults folder.new) (ends file moment count asked end) result }
        ensures waits { StaysWaiting self.now self.now result }
        ensures body { IfReplied result (λ body. body ≡ Body.Count count) }
    {
        let Some((handle, opened)) = self.held(file) else {
            return Err(Status::INVALID_HANDLE);
        };
        if asked > MAX_LEN {
            return Err(status::DISK_FULL);
        }
        match folder.resize(opened.path.names(), end, moment) {
            Ok(()) => Ok(Done::Replied(
                Body::Count(count),
                News::changed(MODIFIED, handle.node, CONTENT_BITS),
            )),
            Err(no) => Err(folder_status(no)),
        }
    }

    /// Cuts a file, if its end is behind its allocation.
    fn set_allocation<F: Folder>(
        &self,
        folder: &mut F,
        file: u32,
        size: u64,
        count: u32,
        moment: u64,
    ) -> Outcome
        requires sound { IsSound self.now }
        requires over { IsOver self.now (seen F.nodes F.faults folder.old) }
        requires file { OfOpen self.now file IsOpenFile }
        ensures serves { Serves self.now (seen F.nodes F.faults folder.old) self.now (seen F.nodes F.faults folder.new) (sets_of file moment count (SetInfo.Allocation size)) result }
        ensures waits { StaysWaiting self.now self.now result }
        ensures body { IfReplied result (λ body. body ≡ Body.Count count) }
    {
        let Some((_, opened)) = self.held(file) else {
            return Err(Status::INVALID_HANDLE);
        };
        match look(folder, opened.path.names()) {
            Ok(Some(look)) => {
                self.set_end(folder, file, size, size.min(look.end), count, moment)
            }
            Ok(None) => Err(Status::INVALID_HANDLE),
            Err(status) => Err(status),
        }
    }

    /// Marks what isn't the root, or takes its mark away.
    fn set_pending<F: Folder>(
        &mut self,
        folder: &mut F,
        file: u32,
        pending: bool,
        count: u32,
    ) -> Outcome
        requires sound { IsSound self.old }
        requires over { IsOver self.old (seen F.nodes F.faults folder.old) }
        requires other { OfOpen self.old file IsBelowRoot }
        ensures serves { (moment : ℕ) → Serves self.old (seen F.nodes F.faults folder.old) self.new (seen F.nodes F.faults folder.new) (sets_of file moment count (SetInfo.Disposition pending)) result }
        ensures waits { StaysWaiting self.old self.new result }
        ensures files { files_in self.new ≡ files_in self.old }
        ensures body { IfReplied result (λ body. body ≡ Body.Count count) }
    {
        let Some((handle, opened)) = self.held(file) else {
            return Err(Status::INVALID_HANDLE);
        };
        let node = handle.node;
        if pending {
            return match check_going(self.alloc, folder, opened) {
                Ok(()) => {
                    self.mark(node, true);
                    Ok(Done::Replied(Body::Count(count), News::none()))
                }
                Err(status) => Err(status),
            };
        }
        self.mark(node, false);
        Ok(Done::Replied(Body::Count(count), News::none()))
    }

    /// Marks what is open by a number, or takes its mark away.
    fn mark(&mut self, node: u32, pending: bool)
        ensures { (o : Open) → open_at self.old node ≡ Some o → SetsPending self.old node o pending self.new }
    {
        if let Some(opened) = self.opens.get_mut(&node) {
            opened.pending = pending;
        }
    }
}
