//! The devices that a client serves: those that a script makes up, and drives over folders.
//!
//! It stands on `rd_world` for the first and on `rd_folder_drive` for the second. The layers above use one contract of it: a `ServedDevice` is a
//! `Device`, and does what the device does that it is (`served_runs`, `served_cuts`). Contracts see a drive over a folder by what it tells alone, so no
//! definition above speaks of the folder's type.
//!
//! Cost: one test a call.
#![tactic(auto)]

mod served;

pub use served::ServedDevice;
