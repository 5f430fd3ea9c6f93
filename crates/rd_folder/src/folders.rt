//! Where folders come from.

ghost use Rattle.std.specs.Prelude.{◌≡◌, ℕ, List, Option, IfOk, IfSome, OnErr};
ghost use Rattle.rd_drive.specs.DriveState.{Node};
ghost use Rattle.rd_link.specs.Links.{more_faults};
ghost use Rattle.rd_folder.specs.FolderLaws.{no_faults};
ghost use Rattle.rd_folder.specs.Told.{IsFolderMap};
ghost use Rattle.rd_folder.specs.FolderOpens.{CountsOpening, OpensFolder};

use crate::folder::{Folder, FolderNo};

/// What opens folders, each at a place that the user names, and closes them.
pub trait Folders {
    type F: Folder + Send + Drop;

    /// The nodes that each folder had when it was opened, in order, where it can tell.
    ghost opened: { Self → Option (List (List Node)) };

    /// How many openings failed. The count stands still at 2^64 - 1.
    ghost failures: { Self → ℕ };

    /// How many faults closed folders had. The count stands still at 2^64 - 1.
    ghost trouble: { Self → ℕ };

    /// Opens the folder at a place, which had no fault yet. An opening that fails counts in `failures`, and is the only one that answers
    /// `Failed`; it answers nothing else but want of memory.
    fn open(&mut self, place: &str) -> Result<Self::F, FolderNo>
        ensures failures { CountsOpening result (failures self.old) (failures self.new) }
        ensures trouble { trouble self.new ≡ trouble self.old }
        ensures faultless { IfOk result (λ folder. Self.F.faults folder ≡ no_faults) }
        ensures whole { IfOk result (λ folder. IfSome (Self.F.nodes folder) IsFolderMap) }
        ensures opens { IfOk result (λ folder. OpensFolder (opened self.old) (opened self.new) (Self.F.nodes folder)) }
        ensures err { OnErr result (opened self.new ≡ opened self.old) };

    /// Takes a folder back. It takes no memory. `trouble` rises by the folder's faults, so it stays where it had none.
    fn close(&mut self, folder: Self::F)
        ensures failures { failures self.new ≡ failures self.old }
        ensures trouble { trouble self.new ≡ more_faults (trouble self.old) (Self.F.faults folder).count }
        ensures opened { opened self.new ≡ opened self.old };
}
