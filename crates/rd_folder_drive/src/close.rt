//! Close (MS-RDPEFS 2.2.1.4.2).

ghost use Rattle.std.specs.Prelude.{◌≡◌, ◌≢◌, ◌∷◌, [], None, Some, Ok, false, nat_lt};
ghost use Rattle.std.specs.Option.{option_map_or};
ghost use Rattle.std.specs.Ordering.{nat_cmp};
ghost use Rattle.std.specs.Map.{remove_entry};
ghost use Rattle.std.specs.BTreeMap.{is_at};
ghost use Rattle.rd_irp.specs.declared.completion.Body.TheVariants as Body;
ghost use Rattle.rd_irp.specs.declared.op.Op.TheVariants as Op;
ghost use Rattle.rd_drive.specs.declared.uses.Uses.{Uses};
ghost use Rattle.rd_drive.specs.UseCounts.{more};
ghost use Rattle.rd_folder_drive.specs.declared.handle.Handle.{Handle};
ghost use Rattle.rd_folder_drive.specs.declared.open.Open.{Open};
ghost use Rattle.rd_folder_drive.specs.declared.table.Done.TheVariants as Done;
ghost use Rattle.rd_folder_drive.specs.Closing.{kept_done, with_uses_left, IsFed, IsOff, LosesUse};
ghost use Rattle.rd_folder_drive.specs.Served.{seen, FitsBody, IfReplied, IsOver, ServesClose};
ghost use Rattle.rd_folder_drive.specs.Table.{kept_handle, open_at, IsSound};

use crate::news::{Change, Named, News};
use crate::open::Open;
use crate::table::{Done, Outcome, Table, folder_status};
use rd_base::Status;
use rd_drive::access::Use;
use rd_drive::news::{REMOVED, name_bit};
use rd_folder::{Folder, FolderNo};
use rd_irp::Body;

impl Table {
    /// Closes a file. It takes no memory.
    pub fn close<F: Folder>(&mut self, folder: &mut F, file: u32) -> Outcome
        requires sound { IsSound self.old }
        requires over { IsOver self.old (seen F.nodes F.faults folder.old) }
        ensures serves { ServesClose self.old (seen F.nodes F.faults folder.old) self.new (seen F.nodes F.faults folder.new) file result }
        ensures fits { IfReplied result (FitsBody Op.Close) }
        ensures fed { IsFed result }
        ensures waiting { self.new.waiting ≡ self.old.waiting }
        ensures answered { result ≢ Ok Done.Parked }
        ensures handles { self.new.handles.entries ≡ remove_entry (is_at (nat_cmp file)) self.old.handles.entries }
    {
        let Some(handle) = self.handle(file) else {
            return Err(Status::INVALID_HANDLE);
        };
        let node = handle.node;
        let Some(left) = self.take_off(file) else {
            return Ok(Done::Replied(Body::Closed, closed(file, Some(Named::Node(node)), None)));
        };
        if !left.pending {
            return Ok(Done::Replied(
                Body::Closed,
                closed(file, Some(Named::Gone(left.path)), None),
            ));
        }
        let is_folder = left.folder;
        let bits = name_bit(is_folder);
        match folder.remove(left.path.names()) {
            Ok(()) => {
                let gone = Change {
                    action: REMOVED,
                    named: Named::Gone(left.path),
                    bits,
                };
                Ok(Done::Replied(Body::Closed, closed(file, None, Some(gone))))
            }
            Err(no) => Ok(kept(
                no,
                is_folder,
                closed(file, Some(Named::Gone(left.path)), None),
            )),
        }
    }

    /// Takes a handle off what it has open, with its locks. What nothing else uses then comes back, and isn't open any more.
    fn take_off(&mut self, file: u32) -> Option<Open>
        requires sound { IsSound self.old }
        ensures { (h : Handle) (o : Open) → kept_handle self.old file ≡ Some h → open_at self.old h.node ≡ Some o → IsOff self.old file h o result self.new }
    {
        let Some((handle, _)) = self.held(file) else {
            return None;
        };
        let node = handle.node;
        let (usage, pending) = (handle.usage(), handle.delete_on_close);
        self.handles.remove(&file);
        self.locks.release(file);
        self.lose_use(node, usage, pending);
        self.ordered();
        if self.is_used(node) {
            return None;
        }
        self.opens.remove(&node)
    }

    /// Whether a handle is on what is open by a number.
    fn is_used(&self, node: u32) -> bool
        ensures { result ≡ option_map_or (λ o. nat_lt 0 (o.uses).handles) (open_at self.now node) false }
    {
        match self.opened(node) {
            Some(left) => left.uses.handles > 0,
            None => false,
        }
    }

    /// What is open by a number is used once less, and may become pending.
    pub fn lose_use(&mut self, node: u32, usage: Use, pending: bool)
        requires there { (o : Open) × (uses : Uses) × (open_at self.old node ≡ Some o) × (o.uses ≡ more usage uses) }
        ensures others { self.new ≡ record self.old { opens = self.new.opens } }
        ensures loses { LosesUse self.old node usage pending self.new }
    {
        if let Some(left) = self.opens.get_mut(&node) {
            left.lose_use(usage, pending);
        }
    }
}

impl Open {
    /// It is used once less, and may become pending.
    fn lose_use(&mut self, usage: Use, pending: bool)
        requires { (uses : Uses) × (self.old.uses ≡ more usage uses) }
        ensures { (uses : Uses) → self.old.uses ≡ more usage uses → self.new ≡ with_uses_left self.old uses pending }
    {
        self.pending = self.pending || pending;
        self.uses.remove(usage);
    }
}

/// What a Close comes to whose node the folder doesn't take out: it is a folder in which something stands, or the folder failed.
fn kept(no: FolderNo, is_folder: bool, news: News) -> Done
    ensures { result ≡ kept_done no is_folder news }
{
    match no {
        FolderNo::Missing if is_folder => Done::Replied(Body::Closed, news),
        _ => Done::Kept(folder_status(no), news),
    }
}

/// A file id is closed.
fn closed(file: u32, unlocked: Option<Named>, change: Option<Change>) -> News
    ensures { result ≡ record { closed = Some file; unlocked = unlocked; changes = change ∷ None ∷ None ∷ [] } }
{
    News {
        closed: Some(file),
        unlocked,
        changes: [change, None, None],
    }
}
