//! Listing a folder, an entry a request (MS-RDPEFS 2.2.3.3.10, MS-FSCC 2.4).

ghost use Rattle.std.specs.Prelude.{◌≡◌, ◌≤◌, [], ℕ, List, length, true, false, Some, None, IfOk, IfErr, IfSome, Err};
ghost use Rattle.std.specs.Option.{option_map};
ghost use Rattle.rd_irp.specs.Fits.{max_buffer};
ghost use Rattle.rd_irp.specs.declared.op.Op.TheVariants as Op;
ghost use Rattle.rd_base.specs.Classes.{choice, is_listed};
ghost use Rattle.rd_dirinfo.specs.Entry.{entry_classes};
ghost use Rattle.rd_drive.specs.DriveState.{Node, has_folder};
ghost use Rattle.rd_drive.specs.Outcome.{on_handle};
ghost use Rattle.rd_drive.specs.QueryDir.{query_dir};
ghost use Rattle.rd_folder.specs.FolderLaws.{AreNames};
ghost use Rattle.rd_folder.specs.Told.{drive_over};
ghost use Rattle.rd_folder_drive.specs.Files.{files_in};
ghost use Rattle.rd_folder_drive.specs.Listing.{FindsNext, Relists};
ghost use Rattle.rd_folder_drive.specs.Served.{seen, FitsBody, IfReplied, IsOver, IsRefusedBy, Serves};
ghost use Rattle.rd_folder_drive.specs.Table.{kept_handle, open_at, IsSound};
ghost use Rattle.rd_folder_drive.specs.Waits.{StaysWaiting};
ghost use Rattle.rd_folder_drive.specs.declared.handle.Handle.{Handle};
ghost use Rattle.rd_folder_drive.specs.declared.open.Open.{Open};

use crate::news::News;
use crate::table::{Done, Outcome, Table, folder_status};
use rd_base::{Bytes, Status, Units};
use rd_dirinfo::{Entry, PathNo, Pattern, put_entry};
use rd_drive::node::shown_attributes;
use rd_drive::query::allocation_for;
use rd_drive::query_dir::is_entry_class;
use rd_drive::status;
use rd_folder::{Folder, Listed};
use rd_irp::Body;

/// What a listing gives next: a name, and the bytes of its entry.
#[derive(Drop)]
pub struct Entered {
    pub name: Units,
    pub bytes: Bytes,
}

/// What a listing of a folder gives next, where something is left, in room that was found for it.
fn listed<F: Folder>(
    folder: &mut F,
    path: &[Units],
    last: Option<&Units>,
    pattern: &Pattern,
    class: u32,
    mut room: Vec<u8>,
) -> Result<Option<Entered>, Status>
    requires named { AreNames path.now }
    requires room { room.items ≡ [] }
    ensures same { F.nodes folder.new ≡ F.nodes folder.old }
    ensures found { (nodes : List Node) → F.nodes folder.old ≡ Some nodes → IfOk result (FindsNext nodes path.now pattern.now (option_map (λ other. other.now) last.entry) class) }
    ensures counted { IfOk result (λ found. F.faults folder.new ≡ F.faults folder.old) }
    ensures refused { ((nodes : List Node) → F.nodes folder.old ≡ Some nodes → has_folder (drive_over nodes) path.now ≡ true) → IfErr result (IsRefusedBy (seen F.nodes F.faults folder.old) (seen F.nodes F.faults folder.new)) }
    ensures short { IfOk result (λ found. IfSome found (λ entered. length entered.bytes ≤ max_buffer)) }
{
    let Listed { name, look } = match folder.next(path, last, pattern) {
        Ok(Some(found)) => found,
        Ok(None) => return Ok(None),
        Err(no) => return Err(folder_status(no)),
    };
    let Ok(kept) = name.copy() else {
        return Err(Status::NO_MEMORY);
    };
    let entry = Entry {
        moments: look.moments,
        end: look.end,
        allocation: allocation_for(look.end),
        attributes: shown_attributes(look.folder, look.attributes),
        name,
    };
    match put_entry(&mut room, class, &entry) {
        Ok(()) => Ok(Some(Entered {
            name: kept,
            bytes: Bytes::of(room),
        })),
        Err(_) => Err(Status::NO_MEMORY),
    }
}

impl Table {
    pub fn query_dir<F: Folder>(
        &mut self,
        folder: &mut F,
        file: u32,
        class: u32,
        initial: bool,
        units: &[u16],
        room: Vec<u8>,
    ) -> Outcome
        requires sound { IsSound self.old }
        requires over { IsOver self.old (seen F.nodes F.faults folder.old) }
        requires room { room.items ≡ [] }
        ensures serves { Serves self.old (seen F.nodes F.faults folder.old) self.new (seen F.nodes F.faults folder.new) (λ s. on_handle s file (query_dir s file class initial units.now)) result }
        ensures waits { StaysWaiting self.old self.new result }
        ensures files { files_in self.new ≡ files_in self.old }
        ensures fits { IfReplied result (FitsBody (Op.QueryDir class initial units.now)) }
    {
        let Some((_, opened)) = self.held(file) else {
            return Err(Status::INVALID_HANDLE);
        };
        if !opened.folder {
            return Err(Status::INVALID_PARAMETER);
        }
        if !is_entry_class(class) {
            return Err(status::INVALID_INFO_CLASS);
        }
        if initial {
            return self.list_anew(folder, file, class, units, room);
        }
        self.list_on(folder, file, class, room)
    }

    /// Begins a listing with a pattern of its own.
    fn list_anew<F: Folder>(
        &mut self,
        folder: &mut F,
        file: u32,
        class: u32,
        units: &[u16],
        room: Vec<u8>,
    ) -> Outcome
        requires sound { IsSound self.old }
        requires over { IsOver self.old (seen F.nodes F.faults folder.old) }
        requires room { room.items ≡ [] }
        requires folds { (h : Handle) (o : Open) → kept_handle self.old file ≡ Some h → open_at self.old h.node ≡ Some o → o.folder ≡ true }
        requires class { is_listed (choice entry_classes class) ≡ true }
        ensures serves { Serves self.old (seen F.nodes F.faults folder.old) self.new (seen F.nodes F.faults folder.new) (λ s. on_handle s file (query_dir s file class true units.now)) result }
        ensures waits { StaysWaiting self.old self.new result }
        ensures files { files_in self.new ≡ files_in self.old }
        ensures fits { IfReplied result (FitsBody (Op.QueryDir class true units.now)) }
    {
        let Some((_, opened)) = self.held(file) else {
            return Err(Status::INVALID_HANDLE);
        };
        let pattern = match Pattern::of_path(self.alloc, units) {
            Ok(pattern) => pattern,
            Err(PathNo::Invalid { .. }) => return Err(status::OBJECT_NAME_INVALID),
            Err(PathNo::Memory) => return Err(Status::NO_MEMORY),
        };
        match listed(folder, opened.path.names(), None, &pattern, class, room) {
            Err(status) => Err(status),
            Ok(None) => {
                self.set_listing(file, pattern, None);
                Err(status::NO_SUCH_FILE)
            }
            Ok(Some(Entered { name, bytes })) => {
                self.set_listing(file, pattern, Some(name));
                Ok(Done::Replied(Body::Buffer(bytes), News::none()))
            }
        }
    }

    /// Goes on with a listing.
    fn list_on<F: Folder>(
        &mut self,
        folder: &mut F,
        file: u32,
        class: u32,
        room: Vec<u8>,
    ) -> Outcome
        requires sound { IsSound self.old }
        requires over { IsOver self.old (seen F.nodes F.faults folder.old) }
        requires room { room.items ≡ [] }
        requires folds { (h : Handle) (o : Open) → kept_handle self.old file ≡ Some h → open_at self.old h.node ≡ Some o → o.folder ≡ true }
        requires class { is_listed (choice entry_classes class) ≡ true }
        ensures serves { (units : List ℕ) → Serves self.old (seen F.nodes F.faults folder.old) self.new (seen F.nodes F.faults folder.new) (λ s. on_handle s file (query_dir s file class false units)) result }
        ensures waits { StaysWaiting self.old self.new result }
        ensures files { files_in self.new ≡ files_in self.old }
        ensures fits { (units : List ℕ) → IfReplied result (FitsBody (Op.QueryDir class false units)) }
    {
        let Some((handle, opened)) = self.held(file) else {
            return Err(Status::INVALID_HANDLE);
        };
        match listed(
            folder,
            opened.path.names(),
            handle.last.as_ref(),
            &handle.pattern,
            class,
            room,
        ) {
            Err(status) => Err(status),
            Ok(None) => Err(status::NO_MORE_FILES),
            Ok(Some(Entered { name, bytes })) => {
                self.set_last(file, name);
                Ok(Done::Replied(Body::Buffer(bytes), News::none()))
            }
        }
    }

    /// A handle lists with a pattern from now on, after a name.
    fn set_listing(&mut self, file: u32, pattern: Pattern, last: Option<Units>)
        ensures { (h : Handle) → kept_handle self.old file ≡ Some h → Relists self.old file h pattern last self.new }
    {
        self.ordered();
        if let Some(handle) = self.handles.get_mut(&file) {
            handle.pattern = pattern;
            handle.last = last;
        }
        self.ordered();
    }

    /// A handle lists on after a name.
    fn set_last(&mut self, file: u32, last: Units)
        ensures { (h : Handle) → kept_handle self.old file ≡ Some h → Relists self.old file h h.pattern (Some last) self.new }
    {
        if let Some(handle) = self.handles.get_mut(&file) {
            handle.last = Some(last);
        }
        self.ordered();
    }
}
