//! Folders, by paths: what a drive over a folder asks of it, a folder in memory, and a real one.
//!
//! It stands on `rd_drive` for what a node is and what becomes of nodes, by its definitions alone, and on `rd_dirinfo` for paths and patterns. The
//! layers above use one contract of it: where a folder tells its nodes, each call makes of them, and answers, what a definition says, or refuses and
//! changes nothing; and a refusal other than want of memory is counted (`Folder`).
//!
//! Cost: in memory a call goes over the list of all nodes. A real folder takes a call of the system for each name of the path, and a few more; of a
//! file that it keeps open, one to read or write. What is read goes into the caller's room.
#![tactic(auto)]

mod faults;
mod finding;
mod folder;
mod folders;
mod kept;
mod listing;
mod look;
mod mem_folders;
mod mem_nodes;
mod memory;
mod node;
mod nodes;
mod one_name;
mod place;
mod seen;
mod standard;

pub use folder::{Folder, FolderNo};
pub use folders::Folders;
pub use look::{Listed, Look};
pub use mem_folders::MemFolders;
pub use memory::MemFolder;
pub use standard::{StdFolder, StdFolders};
