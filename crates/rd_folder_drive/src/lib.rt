//! A drive over a folder: `FolderDrive`, a device.
//!
//! It stands on `rd_folder` for folders, on `rd_drive` for what a drive is, and on `rd_locks` for ranges. The layer above uses one contract of it: what comes of a job is
//! what the definition of a drive says, or the folder refused, and nothing changed.
//!
//! Cost: an operation looks up a file id, and what it has open; what it asks of the folder is the folder's.
#![tactic(auto)]

mod asking;
mod close;
mod control;
mod create;
mod cut;
mod drive;
mod handle;
mod locking;
mod moves;
mod news;
mod open;
mod paths;
mod query;
mod query_dir;
mod read_write;
mod rename;
mod serve;
mod set_file;
mod settle;
mod table;
mod telling;
mod way;

pub use drive::FolderDrive;
