//! What is open gets another path.

ghost use Rattle.std.specs.Prelude.{◌≡◌, IfErr, IfOk, OnOk, true};
ghost use Rattle.std.specs.List.{list_any};
ghost use Rattle.rd_dirinfo.specs.Paths.{is_path};
ghost use Rattle.rd_irp.specs.declared.completion.Body.TheVariants as Body;
ghost use Rattle.rd_folder_drive.specs.Files.{files_in};
ghost use Rattle.rd_folder_drive.specs.Moving.{is_open_in, move_news, AreMoved, IsMovedOpen, IsNewPath, MayNotReplace, MayReplace};
ghost use Rattle.rd_folder_drive.specs.Served.{seen, IfReplied, IsOver, Serves};
ghost use Rattle.rd_folder_drive.specs.Setting.{renames, IsBelowRoot, OfOpen};
ghost use Rattle.rd_folder_drive.specs.Table.{IsSound};
ghost use Rattle.rd_folder_drive.specs.Waits.{StaysWaiting};

use crate::asking::look;
use crate::news::{Change, Named, News};
use crate::open::Open;
use crate::paths::is_prefix;
use crate::table::{Done, Outcome, Table, folder_status};
use crate::way::Way;
use rd_base::{Status, Units};
use rd_dirinfo::Path;
use rd_drive::news::{REMOVED, RENAMED_FROM, RENAMED_TO, name_bit};
use rd_drive::node::is_readonly;
use rd_drive::status;
use rd_folder::{Folder, Look};
use rd_irp::Body;
use std::alloc::{AllocError, Global};
use std::collections::BTreeMap;

/// What is open, once what is at or below one path is moved to another: nothing where its path would be past the limits.
fn moved_open(
    alloc: Global,
    opened: &Open,
    from: &[Units],
    to: &Path,
) -> Result<Option<Open>, AllocError>
    ensures { IfOk result (IsMovedOpen from.now to.now opened.now) }
{
    match opened.path.moved(alloc, from, to)? {
        Some(path) => Ok(Some(Open {
            path,
            folder: opened.folder,
            pending: opened.pending,
            uses: opened.uses,
        })),
        None => Ok(None),
    }
}

/// All that is open, once what is at or below one path is moved to another: nothing where some path would be past the limits.
fn moved_opens(
    alloc: Global,
    opens: &BTreeMap<u32, Open>,
    from: &[Units],
    to: &Path,
) -> Result<Option<BTreeMap<u32, Open>>, AllocError>
    ensures { IfOk result (AreMoved from.now to.now opens.now.entries) }
{
    let mut moved = BTreeMap::new(alloc);
    for (number, open) in opens.iter() {
        let Some(open) = moved_open(alloc, open, from, to)? else {
            return Ok(None);
        };
        moved.insert(*number, open)?;
    }
    Ok(Some(moved))
}

/// Whether something is open at a path or below it.
fn any_open_in(opens: &BTreeMap<u32, Open>, path: &[Units]) -> bool
    ensures { result ≡ list_any (is_open_in path.now) opens.now.entries }
{
    for (_, open) in opens.iter() {
        if is_prefix(path, open.path.names()) {
            return true;
        }
    }
    false
}

/// The news that what is open by a number got another path, and that what was there went.
fn move_news(
    alloc: Global,
    from: &[Units],
    to: &[Units],
    node: u32,
    folder: bool,
    target: Option<Look>,
) -> Result<News, AllocError>
    requires from { is_path from.now ≡ true }
    requires to { is_path to.now ≡ true }
    ensures { IfOk result (λ news. news ≡ move_news from.now to.now node folder target) }
{
    let gone = match target {
        Some(look) => Some(Change {
            action: REMOVED,
            named: Named::Gone(Way::of(alloc, to)?),
            bits: name_bit(look.folder),
        }),
        None => None,
    };
    let bits = name_bit(folder);
    let old = Change {
        action: RENAMED_FROM,
        named: Named::Gone(Way::of(alloc, from)?),
        bits,
    };
    let new = Change {
        action: RENAMED_TO,
        named: Named::Node(node),
        bits,
    };
    Ok(News {
        closed: None,
        unlocked: None,
        changes: [gone, Some(old), Some(new)],
    })
}

impl Table {
    /// Refuses a target that isn't to be replaced, or can't be.
    fn check_target(&self, to: &[Units], replace: bool, target: Option<Look>) -> Result<(), Status>
        ensures ok { OnOk result (MayReplace self.now to.now replace target) }
        ensures err { IfErr result (MayNotReplace self.now to.now replace target) }
    {
        let kept = match target {
            Some(_) if !replace => return Err(status::OBJECT_NAME_COLLISION),
            Some(look) => look.folder || is_readonly(look.folder, look.attributes),
            None => false,
        };
        if kept || any_open_in(&self.opens, to) {
            return Err(status::ACCESS_DENIED);
        }
        Ok(())
    }

    /// Moves what a file id has open, and all that is below it, to a path in a folder that is there.
    pub fn relocate<F: Folder>(
        &mut self,
        folder: &mut F,
        file: u32,
        to: &Path,
        replace: bool,
        count: u32,
        moment: u64,
    ) -> Outcome
        requires sound { IsSound self.old }
        requires over { IsOver self.old (seen F.nodes F.faults folder.old) }
        requires below { OfOpen self.old file IsBelowRoot }
        requires new { IsNewPath self.old (seen F.nodes F.faults folder.old) file to.now }
        ensures serves { Serves self.old (seen F.nodes F.faults folder.old) self.new (seen F.nodes F.faults folder.new) (renames file moment count replace to.now) result }
        ensures waits { StaysWaiting self.old self.new result }
        ensures files { files_in self.new ≡ files_in self.old }
        ensures body { IfReplied result (λ body. body ≡ Body.Count count) }
    {
        let Some((handle, opened)) = self.held(file) else {
            return Err(Status::INVALID_HANDLE);
        };
        let from = opened.path.names();
        let path = to.names();
        let moved = match moved_opens(self.alloc, &self.opens, from, to) {
            Ok(Some(moved)) => moved,
            Ok(None) => return Err(status::OBJECT_NAME_INVALID),
            Err(_) => return Err(Status::NO_MEMORY),
        };
        let target = match look(folder, path) {
            Ok(found) => found,
            Err(status) => return Err(status),
        };
        if let Err(status) = self.check_target(path, replace, target) {
            return Err(status);
        }
        let Ok(news) = move_news(self.alloc, from, path, handle.node, opened.folder, target) else {
            return Err(Status::NO_MEMORY);
        };
        match folder.rename(from, path, moment) {
            Ok(()) => {
                self.opens = moved;
                Ok(Done::Replied(Body::Count(count), news))
            }
            Err(no) => Err(folder_status(no)),
        }
    }
}
