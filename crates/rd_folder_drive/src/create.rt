//! Create: opening what is there, or making it (MS-RDPEFS 2.2.1.4.1).

ghost use Rattle.std.specs.Prelude.{◌≡◌, ◌<◌, ◌^◌, Bool, List, ℕ, length, false, None, Some, OnErr, OnOk, IfErr, IfOk};
ghost use Rattle.std.specs.List.{list_any};
ghost use Rattle.std.specs.Option.{option_and_then, option_map, IsSome};
ghost use Rattle.rd_base.specs.Statuses.{no_memory};
ghost use Rattle.rd_dirinfo.specs.Paths.{Names};
ghost use Rattle.rd_irp.specs.declared.op.Op.TheVariants as Op;
ghost use Rattle.rd_drive.specs.declared.access.Use.{Use};
ghost use Rattle.rd_drive.specs.Create.{create, is_full, wants_folder};
ghost use Rattle.rd_drive.specs.DriveState.{Node};
ghost use Rattle.rd_drive.specs.Made.{create_at, first_no, open_checks};
ghost use Rattle.rd_drive.specs.Uses.{uses_of};
ghost use Rattle.rd_folder_drive.specs.declared.open.Open.{Open};
ghost use Rattle.rd_folder_drive.specs.Asking.{IsLookAt};
ghost use Rattle.rd_folder_drive.specs.Files.{OpensNext};
ghost use Rattle.rd_folder_drive.specs.Opening.{is_of_kind, number_at, told_state, FitsCreate, GainsUse, GivesHandle, IsAsBefore, IsAtPath, IsFree, IsHeldFrom, IsHolding, IsMaking, IsReplacing, MayHold};
ghost use Rattle.rd_folder_drive.specs.Served.{seen, FitsBody, IfReplied, IsOver, Serves};
ghost use Rattle.rd_folder_drive.specs.Table.{drive_of, is_pending_open, open_at, IsSound};
ghost use Rattle.rd_folder_drive.specs.Waits.{StaysWaiting};

use crate::asking::{is_folder, look};
use crate::handle::Handle;
use crate::news::News;
use crate::open::Open;
use crate::paths::{above, is_same};
use crate::table::{Done, Outcome, Table, folder_status};
use crate::way::Way;
use rd_base::{Status, Units};
use rd_dirinfo::{Path, PathNo, Pattern};
use rd_drive::access::{Use, use_of, writes};
use rd_drive::asked::{Asked, SUPERSEDED};
use rd_drive::create::{FILE_ID_LIMIT, MAX_HANDLES};
use rd_drive::news::{ADDED, CONTENT_BITS, MODIFIED, name_bit};
use rd_drive::node::{NodeState, is_readonly};
use rd_drive::status;
use rd_drive::uses::Uses;
use rd_folder::{Folder, Look};
use rd_irp::Body;

impl Table {
    /// Opens what is at the path that some units spell, or makes it.
    pub fn create<F: Folder>(
        &mut self,
        folder: &mut F,
        asked: Asked,
        units: &[u16],
        moment: u64,
    ) -> Outcome
        requires sound { IsSound self.old }
        requires over { IsOver self.old (seen F.nodes F.faults folder.old) }
        ensures serves { Serves self.old (seen F.nodes F.faults folder.old) self.new (seen F.nodes F.faults folder.new) (λ s. create s moment asked units.now) result }
        ensures fits { (allocation : ℕ) → IfReplied result (FitsBody (Op.Create asked.access allocation asked.attributes asked.share asked.disposition asked.options units.now)) }
        ensures waits { StaysWaiting self.old self.new result }
        ensures files { OpensNext self.old self.new result }
    {
        if asked.is_contradictory() {
            return Err(Status::INVALID_PARAMETER);
        }
        match Path::split(self.alloc, units) {
            Ok(path) => self.open_or_make(folder, asked, path, moment),
            Err(PathNo::Invalid { .. }) => Err(status::OBJECT_NAME_INVALID),
            Err(PathNo::Memory) => Err(Status::NO_MEMORY),
        }
    }

    /// Opens what is at a path, or makes it.
    fn open_or_make<F: Folder>(
        &mut self,
        folder: &mut F,
        asked: Asked,
        path: Path,
        moment: u64,
    ) -> Outcome
        requires sound { IsSound self.old }
        requires over { IsOver self.old (seen F.nodes F.faults folder.old) }
        ensures serves { Serves self.old (seen F.nodes F.faults folder.old) self.new (seen F.nodes F.faults folder.new) (λ s. create_at s moment asked path) result }
        ensures fits { FitsCreate asked result }
        ensures waits { StaysWaiting self.old self.new result }
        ensures files { OpensNext self.old self.new result }
    {
        if self.is_full() {
            return Err(Status::TOO_MANY_OPENED_FILES);
        }
        match look(folder, path.names()) {
            Ok(Some(found)) => self.open_found(folder, asked, path, &found, moment),
            Ok(None) => self.make_new(folder, asked, path, moment),
            Err(status) => Err(status),
        }
    }

    // ---- what is there

    /// Opens what is there.
    fn open_found<F: Folder>(
        &mut self,
        folder: &mut F,
        asked: Asked,
        path: Path,
        look: &Look,
        moment: u64,
    ) -> Outcome
        requires sound { IsSound self.old }
        requires over { IsOver self.old (seen F.nodes F.faults folder.old) }
        requires room { IsFree self.old }
        requires there { IsLookAt (seen F.nodes F.faults folder.old) path (Some look.now) }
        ensures serves { Serves self.old (seen F.nodes F.faults folder.old) self.new (seen F.nodes F.faults folder.new) (λ s. create_at s moment asked path) result }
        ensures fits { FitsCreate asked result }
        ensures waits { StaysWaiting self.old self.new result }
        ensures files { OpensNext self.old self.new result }
    {
        let found = self.at(path.names());
        if !self.is_of_kind(found, look.folder) {
            return Err(Status::OBJECT_NAME_NOT_FOUND);
        }
        let state = self.state_at(found, look);
        if let Some(no) = refusal(&asked, look.folder, path.names().is_empty(), &state) {
            return Err(no);
        }
        if asked.replaces() {
            return self.replace(folder, asked, found, path, moment);
        }
        let file = self.next_file();
        match self.hold(asked, found, path, look.folder) {
            Ok(_) => Ok(Done::Replied(
                Body::Created {
                    file,
                    information: asked.information(),
                },
                News::none(),
            )),
            Err(no) => Err(no),
        }
    }

    /// Opens a file that is there, without its bytes.
    fn replace<F: Folder>(
        &mut self,
        folder: &mut F,
        asked: Asked,
        found: Option<u32>,
        path: Path,
        moment: u64,
    ) -> Outcome
        requires sound { IsSound self.old }
        requires over { IsOver self.old (seen F.nodes F.faults folder.old) }
        requires room { IsFree self.old }
        requires at { IsAtPath self.old path found }
        requires may { MayHold self.old asked path false found }
        requires comes { IsReplacing self.old (seen F.nodes F.faults folder.old) asked moment path }
        ensures serves { Serves self.old (seen F.nodes F.faults folder.old) self.new (seen F.nodes F.faults folder.new) (λ s. create_at s moment asked path) result }
        ensures fits { FitsCreate asked result }
        ensures waits { StaysWaiting self.old self.new result }
        ensures files { OpensNext self.old self.new result }
    {
        let file = self.next_file();
        let node = match self.hold(asked, found, path, false) {
            Ok(node) => node,
            Err(no) => return Err(no),
        };
        let Some(opened) = self.opened(node) else {
            unreachable!()
        };
        match folder.replace(opened.path.names(), asked.file_attributes(), moment) {
            Ok(()) => Ok(Done::Replied(
                Body::Created {
                    file,
                    information: asked.information(),
                },
                News::changed(MODIFIED, node, CONTENT_BITS),
            )),
            Err(no) => {
                self.take_back(asked, file, node);
                Err(folder_status(no))
            }
        }
    }

    // ---- what isn't there

    /// Makes a folder, or an empty file, where nothing is.
    fn make_new<F: Folder>(
        &mut self,
        folder: &mut F,
        asked: Asked,
        path: Path,
        moment: u64,
    ) -> Outcome
        requires sound { IsSound self.old }
        requires over { IsOver self.old (seen F.nodes F.faults folder.old) }
        requires room { IsFree self.old }
        requires none { IsLookAt (seen F.nodes F.faults folder.old) path None }
        ensures serves { Serves self.old (seen F.nodes F.faults folder.old) self.new (seen F.nodes F.faults folder.new) (λ s. create_at s moment asked path) result }
        ensures fits { FitsCreate asked result }
        ensures waits { StaysWaiting self.old self.new result }
        ensures files { OpensNext self.old self.new result }
    {
        if path.names().is_empty() {
            return Err(status::OBJECT_PATH_NOT_FOUND);
        }
        match is_folder(folder, above(path.names())) {
            Ok(true) => {}
            Ok(false) => return Err(status::OBJECT_PATH_NOT_FOUND),
            Err(status) => return Err(status),
        }
        if asked.needs_node() {
            return Err(Status::OBJECT_NAME_NOT_FOUND);
        }
        if self.is_pending_at(above(path.names())) {
            return Err(status::DELETE_PENDING);
        }
        if self.at(path.names()).is_some() {
            return Err(Status::OBJECT_NAME_NOT_FOUND);
        }
        self.make(folder, asked, path, moment)
    }

    /// Makes a folder, or an empty file, in a folder that is there.
    fn make<F: Folder>(&mut self, folder: &mut F, asked: Asked, path: Path, moment: u64) -> Outcome
        requires sound { IsSound self.old }
        requires over { IsOver self.old (seen F.nodes F.faults folder.old) }
        requires room { IsFree self.old }
        requires at { IsAtPath self.old path None }
        requires may { MayHold self.old asked path (wants_folder asked) None }
        requires comes { IsMaking self.old (seen F.nodes F.faults folder.old) asked moment path }
        ensures serves { Serves self.old (seen F.nodes F.faults folder.old) self.new (seen F.nodes F.faults folder.new) (λ s. create_at s moment asked path) result }
        ensures fits { FitsCreate asked result }
        ensures waits { StaysWaiting self.old self.new result }
        ensures files { OpensNext self.old self.new result }
    {
        let file = self.next_file();
        let is_folder = asked.wants_folder();
        let node = match self.hold(asked, None, path, is_folder) {
            Ok(node) => node,
            Err(no) => return Err(no),
        };
        let Some(opened) = self.opened(node) else {
            unreachable!()
        };
        match folder.make(
            opened.path.names(),
            is_folder,
            asked.new_attributes(),
            moment,
        ) {
            Ok(()) => Ok(Done::Replied(
                Body::Created {
                    file,
                    information: SUPERSEDED,
                },
                News::changed(ADDED, node, name_bit(is_folder)),
            )),
            Err(no) => {
                self.take_back(asked, file, node);
                Err(folder_status(no))
            }
        }
    }

    // ---- what is asked of the table

    /// Whether no further handle can be made.
    fn is_full(&self) -> bool
        ensures { (nodes : List Node) → result ≡ is_full (drive_of self.now nodes) }
    {
        self.handles.len() >= MAX_HANDLES || self.next >= FILE_ID_LIMIT
    }

    /// The file id that is given next.
    fn next_file(&self) -> u32
        requires { self.now.next < 2 ^ 32 }
        ensures { result ≡ self.now.next }
    {
        self.next as u32
    }

    /// What is open at a path, by its number.
    fn at(&self, path: &[Units]) -> Option<u32>
        ensures { result ≡ number_at path.now self.now.opens.entries }
    {
        for (node, opened) in &self.opens {
            if is_same(opened.path.names(), path) {
                return Some(*node);
            }
        }
        None
    }

    /// Whether something pending is open at a path.
    fn is_pending_at(&self, path: &[Units]) -> bool
        requires sound { IsSound self.now }
        ensures { result ≡ list_any (is_pending_open path.now) self.now.opens.entries }
    {
        match self.at(path) {
            Some(node) => match self.opened(node) {
                Some(opened) => opened.pending,
                None => false,
            },
            None => false,
        }
    }

    /// Whether what is open by a number, if something is, is of a kind.
    fn is_of_kind(&self, found: Option<u32>, folder: bool) -> bool
        ensures { result ≡ is_of_kind folder (option_and_then (open_at self.now) found) }
    {
        match found {
            Some(node) => match self.opened(node) {
                Some(opened) => opened.folder == folder,
                None => true,
            },
            None => true,
        }
    }

    /// What is known of a node by what is told of it, and by what is open.
    fn state_at(&self, found: Option<u32>, look: &Look) -> NodeState
        ensures { result ≡ told_state look.now (option_and_then (open_at self.now) found) }
    {
        match found {
            Some(node) => told_state(look, self.opened(node)),
            None => told_state(look, None),
        }
    }

    // ---- the next handle

    /// Gives the next file id a handle on what is open by a number, or on what isn't open yet.
    fn hold(
        &mut self,
        asked: Asked,
        found: Option<u32>,
        path: Path,
        folder: bool,
    ) -> Result<u32, Status>
        requires sound { IsSound self.old }
        requires room { IsFree self.old }
        requires at { IsAtPath self.old path found }
        ensures held { IfOk result (λ n. IsHolding self.old asked path folder found n self.new) }
        ensures no_memory { IfErr result (λ status. status ≡ no_memory) }
        ensures err { OnErr result (IsAsBefore self.old self.new) }
    {
        match found {
            Some(node) => self.hold_again(asked, node),
            None => self.hold_first(asked, path, folder),
        }
    }

    /// Gives the next file id a handle on what is open by a number.
    fn hold_again(&mut self, asked: Asked, node: u32) -> Result<u32, Status>
        requires sound { IsSound self.old }
        requires room { IsFree self.old }
        requires there { IsSome (open_at self.old node) }
        ensures held { IfOk result (λ n. (path : Names) (folder : Bool) → IsHolding self.old asked path folder (Some node) n self.new) }
        ensures no_memory { IfErr result (λ status. status ≡ no_memory) }
        ensures err { OnErr result (IsAsBefore self.old self.new) }
    {
        match self.add_handle(asked, node) {
            Ok(()) => {
                self.gain_use(node, use_of(asked.access, asked.share));
                self.next += 1;
                self.ordered();
                Ok(node)
            }
            Err(no) => Err(no),
        }
    }

    /// Gives the next file id a handle on what isn't open yet.
    fn hold_first(&mut self, asked: Asked, path: Path, folder: bool) -> Result<u32, Status>
        requires sound { IsSound self.old }
        requires room { IsFree self.old }
        ensures held { IfOk result (λ n. IsHolding self.old asked path folder None n self.new) }
        ensures no_memory { IfErr result (λ status. status ≡ no_memory) }
        ensures err { OnErr result (IsAsBefore self.old self.new) }
    {
        let file = self.next_file();
        match self.add_handle(asked, file) {
            Ok(()) => {}
            Err(no) => return Err(no),
        }
        let mut uses = Uses::new();
        uses.add(use_of(asked.access, asked.share));
        let opened = Open {
            path: Way::new(path),
            folder,
            pending: false,
            uses,
        };
        match self.opens.insert(file, opened) {
            Ok(_) => {
                self.next += 1;
                Ok(file)
            }
            Err(_) => {
                self.handles.remove(&file);
                Err(Status::NO_MEMORY)
            }
        }
    }

    /// Gives the next file id a handle on what is open by a number. Nothing counts it yet.
    fn add_handle(&mut self, asked: Asked, node: u32) -> Result<(), Status>
        requires sound { IsSound self.old }
        requires room { IsFree self.old }
        ensures added { OnOk result (GivesHandle self.old asked node self.new) }
        ensures no_memory { IfErr result (λ status. status ≡ no_memory) }
        ensures err { OnErr result (IsAsBefore self.old self.new) }
    {
        let file = self.next_file();
        let handle = Handle {
            node,
            access: asked.access,
            share: asked.share,
            delete_on_close: asked.deletes_on_close(),
            pattern: Pattern::any(self.alloc),
            last: None,
        };
        match self.handles.insert(file, handle) {
            Ok(_) => Ok(()),
            Err(_) => Err(Status::NO_MEMORY),
        }
    }

    /// What is open by a number is used once more.
    fn gain_use(&mut self, node: u32, usage: Use)
        requires there { (o : Open) × (uses : List Use) × (open_at self.old node ≡ Some o) × (o.uses ≡ uses_of uses) × (length uses < 4096) }
        ensures others { self.new ≡ record self.old { opens = self.new.opens } }
        ensures gains { GainsUse self.old node usage self.new }
    {
        if let Some(opened) = self.opens.get_mut(&node) {
            opened.uses.add(usage);
        }
    }

    /// Takes back the handle that was given last, where nothing came of it.
    fn take_back(&mut self, asked: Asked, file: u32, node: u32)
        requires held { (t : Table) × IsHeldFrom t asked file node self.old }
        ensures alike { (t : Table) → IsHeldFrom t asked file node self.old → IsAsBefore t self.new }
    {
        self.next -= 1;
        self.handles.remove(&file);
        if node == file {
            self.opens.remove(&node);
        } else {
            self.lose_use(node, use_of(asked.access, asked.share), false);
            self.ordered();
        }
    }
}

/// What is known of a node by what is told of it, and by what is open at its path.
fn told_state(look: &Look, opened: Option<&Open>) -> NodeState
    ensures { result ≡ told_state look.now (option_map (λ o. o.now) opened.entry) }
{
    match opened {
        Some(opened) => NodeState {
            attributes: look.attributes,
            moments: look.moments,
            pending: opened.pending,
            uses: opened.uses,
        },
        None => NodeState {
            attributes: look.attributes,
            moments: look.moments,
            pending: false,
            uses: Uses::new(),
        },
    }
}

/// Why what is there isn't opened.
fn refusal(asked: &Asked, folder: bool, root: bool, state: &NodeState) -> Option<Status>
    ensures { result ≡ first_no (open_checks asked.now folder root state.now) }
{
    if asked.needs_none() {
        return Some(status::OBJECT_NAME_COLLISION);
    }
    if asked.wants_folder() && !folder {
        return Some(status::NOT_A_DIRECTORY);
    }
    if folder && (asked.wants_file() || asked.replaces()) {
        return Some(status::FILE_IS_A_DIRECTORY);
    }
    if state.pending {
        return Some(status::DELETE_PENDING);
    }
    if asked.deletes_on_close() && root {
        return Some(status::ACCESS_DENIED);
    }
    if is_readonly(folder, state.attributes) && (writes(asked.access) || asked.replaces()) {
        return Some(status::ACCESS_DENIED);
    }
    if state.uses.clash(asked.usage()) {
        return Some(status::SHARING_VIOLATION);
    }
    None
}
