//! Renaming (MS-FSCC 2.4.37, in the form of MS-RDPEFS 2.2.3.3.9.1).

ghost use Rattle.std.specs.Prelude.{◌≡◌};
ghost use Rattle.rd_fileinfo.specs.declared.set_info.SetInfo.TheVariants as SetInfo;
ghost use Rattle.rd_irp.specs.declared.completion.Body.TheVariants as Body;
ghost use Rattle.rd_folder_drive.specs.Files.{files_in};
ghost use Rattle.rd_folder_drive.specs.Served.{seen, IfReplied, IsOver, Serves};
ghost use Rattle.rd_folder_drive.specs.Setting.{renames, sets_of, IsBelowRoot, OfOpen};
ghost use Rattle.rd_folder_drive.specs.Table.{IsSound};
ghost use Rattle.rd_folder_drive.specs.Waits.{StaysWaiting};

use crate::asking::is_folder;
use crate::news::News;
use crate::paths::{above, is_below, is_same};
use crate::table::{Done, Outcome, Table};
use rd_base::Status;
use rd_dirinfo::{Path, PathNo};
use rd_drive::status;
use rd_folder::Folder;
use rd_irp::Body;

impl Table {
    /// Gives what a file id has open, and all that is below it, the path that some units spell.
    pub fn rename<F: Folder>(
        &mut self,
        folder: &mut F,
        file: u32,
        units: &[u16],
        replace: bool,
        count: u32,
        moment: u64,
    ) -> Outcome
        requires sound { IsSound self.old }
        requires over { IsOver self.old (seen F.nodes F.faults folder.old) }
        requires other { OfOpen self.old file IsBelowRoot }
        ensures serves { Serves self.old (seen F.nodes F.faults folder.old) self.new (seen F.nodes F.faults folder.new) (sets_of file moment count (SetInfo.Rename replace units.now)) result }
        ensures waits { StaysWaiting self.old self.new result }
        ensures files { files_in self.new ≡ files_in self.old }
        ensures body { IfReplied result (λ body. body ≡ Body.Count count) }
    {
        let Some((_, _)) = self.held(file) else {
            return Err(Status::INVALID_HANDLE);
        };
        match Path::split(self.alloc, units) {
            Ok(path) => self.rename_path(folder, file, &path, replace, count, moment),
            Err(PathNo::Invalid { .. }) => Err(status::OBJECT_NAME_INVALID),
            Err(PathNo::Memory) => Err(Status::NO_MEMORY),
        }
    }

    /// Gives what a file id has open, and all that is below it, a path. To its own path nothing happens.
    fn rename_path<F: Folder>(
        &mut self,
        folder: &mut F,
        file: u32,
        path: &Path,
        replace: bool,
        count: u32,
        moment: u64,
    ) -> Outcome
        requires sound { IsSound self.old }
        requires over { IsOver self.old (seen F.nodes F.faults folder.old) }
        requires other { OfOpen self.old file IsBelowRoot }
        ensures serves { Serves self.old (seen F.nodes F.faults folder.old) self.new (seen F.nodes F.faults folder.new) (renames file moment count replace path.now) result }
        ensures waits { StaysWaiting self.old self.new result }
        ensures files { files_in self.new ≡ files_in self.old }
        ensures body { IfReplied result (λ body. body ≡ Body.Count count) }
    {
        let Some((handle, opened)) = self.held(file) else {
            return Err(Status::INVALID_HANDLE);
        };
        if path.names().is_empty() {
            return Err(status::ACCESS_DENIED);
        }
        if is_same(path.names(), opened.path.names()) {
            return Ok(Done::Replied(Body::Count(count), News::none()));
        }
        if is_below(opened.path.names(), path.names()) {
            return Err(Status::INVALID_PARAMETER);
        }
        match is_folder(folder, above(path.names())) {
            Ok(true) => {}
            Ok(false) => return Err(status::OBJECT_PATH_NOT_FOUND),
            Err(status) => return Err(status),
        }
        self.relocate(folder, file, path, replace, count, moment)
    }
}
