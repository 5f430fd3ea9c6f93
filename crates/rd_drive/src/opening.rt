//! What a drive begins with.

ghost use Rattle.std.specs.Prelude.{◌≤◌, ◌^◌, length, Some, None};
ghost use Rattle.rd_drive.specs.Adding.{HoldsNode};
ghost use Rattle.rd_drive.specs.Store.{drive_of, IsSound};

use crate::store::Store;
use rd_base::Bytes;
use rd_dirinfo::Path;
use rd_tree::AddNo;

/// ARCHIVE, the stored attributes of a file that is there from the beginning.
const ARCHIVE: u32 = 0x20;

impl Store {
    /// Adds a folder.
    pub fn hold_folder(&mut self, path: &Path) -> Result<(), AddNo>
        requires sound { IsSound self.old }
        ensures sound { IsSound self.new }
        ensures holds { HoldsNode (drive_of self.old) (path.now, None) result (drive_of self.new) }
    {
        self.ordered();
        let _ = path.names();
        let parent = match self.tree.free(path) {
            Ok(parent) => parent,
            Err(no) => return Err(no),
        };
        match self.add_node(parent, path, true, 0, 0) {
            Ok(_) => Ok(()),
            Err(no) => Err(no),
        }
    }

    /// Adds a file with its bytes.
    pub fn hold_file(&mut self, path: &Path, bytes: &Bytes) -> Result<(), AddNo>
        requires sound { IsSound self.old }
        requires few { length bytes.now ≤ 2 ^ 40 }
        ensures sound { IsSound self.new }
        ensures holds { HoldsNode (drive_of self.old) (path.now, Some bytes.now) result (drive_of self.new) }
    {
        self.ordered();
        let _ = path.names();
        let parent = match self.tree.free(path) {
            Ok(parent) => parent,
            Err(no) => return Err(no),
        };
        let node = match self.add_node(parent, path, false, ARCHIVE, 0) {
            Ok(node) => node,
            Err(no) => return Err(no),
        };
        match self.tree.write(node, 0, bytes.as_slice()) {
            Ok(()) => Ok(()),
            Err(_) => {
                self.take_back(node);
                Err(AddNo::Memory)
            }
        }
    }
}
