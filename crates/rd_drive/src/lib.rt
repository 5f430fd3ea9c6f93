//! The memory drive: what a request does to the files of a drive, and the reply to it.
//!
//! It stands on `rd_tree` for files and folders, on `rd_locks` for ranges, and on the packets' crates for requests, names and information
//! classes. The layers above use one contract of it: `Device::apply` is one step of the definition (`drive_step`), or changes nothing where
//! no memory is found; `Device::cut` is `drive_cut`.
//!
//! Cost of one request: a path is looked up name by name, in ordered maps; the bytes of a read or a write are copied once; a request that
//! waits is looked at again when a lock is given back or a folder changes, of at most 64. Nothing grows with the requests that came before.
#![tactic(auto)]

mod close;
mod cut;
mod device;
mod drive;
mod handle;
mod laws;
mod opening;
mod promises;
mod rename;
mod serve;
mod store;

// public for the drive over a folder (`rd_folder_drive`), which calls some of their items
pub mod access;
pub mod asked;
pub mod create;
pub mod ends;
pub mod locking;
pub mod news;
pub mod node;
pub mod plan;
pub mod query;
pub mod query_dir;
pub mod read_write;
pub mod set_file;
pub mod settle;
pub mod status;
pub mod step;
pub mod telling;
pub mod uses;
pub mod waiting;

pub use device::Device;
pub use drive::MemoryDrive;
pub use ends::{Ends, MAX_WAITING};
pub use laws::{
    ends_are_of_those_that_wait, journals_tell_what_was_done, limits_are_as_listed,
    requests_are_answered, waiting_is_as_listed,
};
pub use plan::{Job, MAX_READ, Plan, prepare};
pub use promises::{
    cuts_cancel, drives_are_devices, drives_stay_fitting, replies_are_in_range,
    requests_have_one_reply,
};
pub use step::{End, Step};
