//! The devices that a client serves, opened from its script and from the folders that this names, and the folders closed again.
//!
//! It stands on `rd_served_devices` for devices, on `rd_folder` for where folders come from, and on `rd_world` for the devices that a script makes up. The
//! layer above uses two contracts of it: what `open_served` opens are the devices of the script, each announced, with a station in which nothing is done yet
//! (`AreServedDevices`, `OpensServed`); and `close_device` hands a device's folder back (`trouble_with`).
//!
//! Cost: all of it is done once a session. Lines are gone over three times, a drive over a folder finds its place among at most 32 devices.
#![tactic(auto)]

mod closing;
mod devices;
mod laws;
mod opening;
mod opening_no;
mod real;

pub use closing::close_device;
pub use laws::calm_folders_have_no_fault;
pub use opening::{ServedOpening, open_served};
pub use opening_no::OpeningNo;
