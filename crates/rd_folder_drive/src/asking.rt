//! What a drive asks its folder before it changes something.

ghost use Rattle.std.specs.Prelude.{◌≡◌, IfErr, IfOk};
ghost use Rattle.rd_folder.specs.FolderLaws.{AreNames};
ghost use Rattle.rd_folder_drive.specs.Asking.{HasNames, IsFolderAt, IsLookAt, TellsFolder};
ghost use Rattle.rd_folder_drive.specs.Served.{seen, IsRefusedBy};

use crate::table::folder_status;
use rd_base::{Status, Units};
use rd_dirinfo::Pattern;
use rd_folder::{Folder, Look};
use std::alloc::Global;

/// What stands at a path, if anything does.
pub fn look<F: Folder>(folder: &mut F, path: &[Units]) -> Result<Option<Look>, Status>
    requires named { AreNames path.now }
    ensures ok { IfOk result (λ found. (seen F.nodes F.faults folder.new ≡ seen F.nodes F.faults folder.old) × IsLookAt (seen F.nodes F.faults folder.old) path.now found) }
    ensures err { IfErr result (λ status. (F.nodes folder.new ≡ F.nodes folder.old) × IsRefusedBy (seen F.nodes F.faults folder.old) (seen F.nodes F.faults folder.new) status) }
{
    match folder.look(path) {
        Ok(found) => Ok(found),
        Err(no) => Err(folder_status(no)),
    }
}

/// Whether a folder stands at a path.
pub fn is_folder<F: Folder>(folder: &mut F, path: &[Units]) -> Result<bool, Status>
    requires named { AreNames path.now }
    ensures ok { IfOk result (λ is. (seen F.nodes F.faults folder.new ≡ seen F.nodes F.faults folder.old) × TellsFolder (seen F.nodes F.faults folder.old) path.now is) }
    ensures err { IfErr result (λ status. (F.nodes folder.new ≡ F.nodes folder.old) × IsRefusedBy (seen F.nodes F.faults folder.old) (seen F.nodes F.faults folder.new) status) }
{
    match look(folder, path) {
        Ok(Some(look)) => Ok(look.folder),
        Ok(None) => Ok(false),
        Err(status) => Err(status),
    }
}

/// Whether something stands in the folder at a path.
pub fn has_names<F: Folder>(alloc: Global, folder: &mut F, path: &[Units]) -> Result<bool, Status>
    requires named { AreNames path.now }
    requires folder { IsFolderAt (seen F.nodes F.faults folder.old) path.now }
    ensures ok { IfOk result (λ some. (seen F.nodes F.faults folder.new ≡ seen F.nodes F.faults folder.old) × HasNames (seen F.nodes F.faults folder.old) path.now some) }
    ensures err { IfErr result (λ status. (F.nodes folder.new ≡ F.nodes folder.old) × IsRefusedBy (seen F.nodes F.faults folder.old) (seen F.nodes F.faults folder.new) status) }
{
    match folder.next(path, None, &Pattern::any(alloc)) {
        Ok(found) => Ok(found.is_some()),
        Err(no) => Err(folder_status(no)),
    }
}
