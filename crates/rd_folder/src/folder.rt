//! A folder, and all that is below it, by paths.

ghost use Rattle.std.specs.Prelude.{◌≡◌, ◌<◌, ◌≤◌, ◌^◌, [], List, Option, length, true, Err, IfOk, IfSome};
ghost use Rattle.std.specs.Option.{option_map};
ghost use Rattle.rd_dirinfo.specs.Paths.{is_name};
ghost use Rattle.rd_drive.specs.DriveState.{Node};
ghost use Rattle.rd_folder.specs.FolderCalls.{folder_look, folder_make, folder_mark, folder_next, folder_read, folder_remove, folder_rename, folder_replace, folder_resize, folder_write};
ghost use Rattle.rd_folder.specs.FolderLaws.{AreNames, CountsRefusal, DoesCall, FolderFaults};
ghost use Rattle.rd_folder.specs.declared.folder.FolderNo.TheVariants as FolderNo;

use crate::look::{Listed, Look};
use rd_base::{Bytes, Moments, Units};
use rd_dirinfo::Pattern;
use thiserror::Error;

/// Why a folder doesn't do what it is called for. Nothing has changed.
#[derive(Clone, Copy, Debug, PartialEq, Eq, Error)]
pub enum FolderNo {
    /// The system failed.
    #[error("the folder failed")]
    Failed,
    /// There is no room left.
    #[error("the folder is full")]
    Full,
    /// The system doesn't allow it.
    #[error("the folder refused")]
    Denied,
    /// There is no such change or answer: nothing is at the path, or something is, or it is of the wrong kind or isn't empty.
    #[error("there is no such node")]
    Missing,
    #[error("out of memory")]
    Memory,
}

/// A folder, and all that is below it, by paths; its own path is the root's. Names are told apart by their units.
///
/// It counts its faults: each refusal but want of memory, and but `Missing` where it tells its nodes.
pub trait Folder {
    /// The nodes, where it can tell.
    ghost nodes: { Self → Option (List Node) };

    /// How many faults it had, and by which refusal the last. The count stands still at 2^64 - 1.
    ghost faults: { Self → FolderFaults };

    /// What stands at a path, if anything does.
    fn look(&mut self, path: &[Units]) -> Result<Option<Look>, FolderNo>
        requires named { AreNames path.now }
        ensures does { DoesCall (nodes self.old) (nodes self.new) (folder_look path.now) result }
        ensures counted { CountsRefusal (nodes self.old) result (faults self.old) (faults self.new) }
        ensures bound { IfOk result (λ found. IfSome found (λ look. look.end < 2 ^ 63)) };

    /// The first name in the folder at a path that matches a pattern and comes after another name, if one is given, with what is told of its
    /// node. Without one a listing begins.
    fn next(
        &mut self,
        path: &[Units],
        after: Option<&Units>,
        pattern: &Pattern,
    ) -> Result<Option<Listed>, FolderNo>
        requires named { AreNames path.now }
        ensures does { DoesCall (nodes self.old) (nodes self.new) (folder_next path.now (option_map (λ other. other.now) after.entry) pattern.now) result }
        ensures counted { CountsRefusal (nodes self.old) result (faults self.old) (faults self.new) }
        ensures name { IfOk result (λ found. IfSome found (λ listed. is_name listed.name ≡ true)) }
        ensures bound { IfOk result (λ found. IfSome found (λ listed. listed.look.end < 2 ^ 63)) };

    /// The bytes of a file from an offset up to its end, at most `count`, read into the room that was found for them. It takes no memory where the
    /// room has a capacity of `count` bytes.
    fn read(
        &mut self,
        path: &[Units],
        offset: u64,
        count: u32,
        room: Vec<u8>,
    ) -> Result<Bytes, FolderNo>
        requires named { AreNames path.now }
        requires room { room.items ≡ [] }
        ensures does { DoesCall (nodes self.old) (nodes self.new) (folder_read path.now offset count) result }
        ensures counted { CountsRefusal (nodes self.old) result (faults self.old) (faults self.new) }
        ensures bound { IfOk result (λ bytes. length bytes ≤ count) };

    /// Makes a folder or an empty file where nothing stands.
    fn make(
        &mut self,
        path: &[Units],
        folder: bool,
        attributes: u32,
        moment: u64,
    ) -> Result<(), FolderNo>
        requires named { AreNames path.now }
        ensures does { DoesCall (nodes self.old) (nodes self.new) (folder_make path.now folder attributes moment) result }
        ensures counted { CountsRefusal (nodes self.old) result (faults self.old) (faults self.new) };

    /// Empties a file, which gets these attributes.
    fn replace(&mut self, path: &[Units], attributes: u32, moment: u64) -> Result<(), FolderNo>
        requires named { AreNames path.now }
        ensures does { DoesCall (nodes self.old) (nodes self.new) (folder_replace path.now attributes moment) result }
        ensures counted { CountsRefusal (nodes self.old) result (faults self.old) (faults self.new) };

    /// Writes bytes into a file at an offset. A gap before them reads as zeros.
    fn write(
        &mut self,
        path: &[Units],
        offset: u64,
        bytes: &[u8],
        moment: u64,
    ) -> Result<(), FolderNo>
        requires named { AreNames path.now }
        ensures does { DoesCall (nodes self.old) (nodes self.new) (folder_write path.now offset bytes.now moment) result }
        ensures counted { CountsRefusal (nodes self.old) result (faults self.old) (faults self.new) };

    /// Cuts a file at an end, or extends it by zeros.
    fn resize(&mut self, path: &[Units], end: u64, moment: u64) -> Result<(), FolderNo>
        requires named { AreNames path.now }
        ensures does { DoesCall (nodes self.old) (nodes self.new) (folder_resize path.now end moment) result }
        ensures counted { CountsRefusal (nodes self.old) result (faults self.old) (faults self.new) };

    /// Sets the attributes and moments of a file or folder.
    fn mark(&mut self, path: &[Units], attributes: u32, moments: Moments) -> Result<(), FolderNo>
        requires named { AreNames path.now }
        ensures does { DoesCall (nodes self.old) (nodes self.new) (folder_mark path.now attributes moments) result }
        ensures counted { CountsRefusal (nodes self.old) result (faults self.old) (faults self.new) };

    /// Moves a file, or a folder with all that is below it. A file that stands at the other path goes.
    fn rename(&mut self, from: &[Units], to: &[Units], moment: u64) -> Result<(), FolderNo>
        requires named { AreNames from.now × AreNames to.now }
        ensures does { DoesCall (nodes self.old) (nodes self.new) (folder_rename from.now to.now moment) result }
        ensures counted { CountsRefusal (nodes self.old) result (faults self.old) (faults self.new) };

    /// Takes out a file, or a folder in which nothing stands. It takes no memory.
    fn remove(&mut self, path: &[Units]) -> Result<(), FolderNo>
        requires named { AreNames path.now }
        ensures does { DoesCall (nodes self.old) (nodes self.new) (folder_remove path.now) result }
        ensures counted { CountsRefusal (nodes self.old) result (faults self.old) (faults self.new) }
        ensures memory { result ≡ Err FolderNo.Memory → ⊥ };
}
