//! The devices that a script declares, and the replies that their journals give.
//!
//! It stands below a session's world: whoever reads a recording and journals needs no more. `declared_devices` makes the devices of lines, memory drives with
//! what is on them and printers with their names.
//!
//! Cost: lines are gone over twice, and each byte of a file is copied once.
#![tactic(auto)]

mod declaring;
mod device;
mod names;
mod printers;

pub use declaring::{DeclaredDevice, declared_devices};
pub use device::SessionDevice;
pub use names::{dos_name, label_of};
pub use printers::{PrinterNames, Printers, zero_text};
