//! The devices of a client as values and as bytes: the list that announces them (MS-RDPEFS 2.2.2.9), the host's reply to
//! each (2.2.2.1), the removal of some (2.2.3.2), and what a printer's announcement says (MS-RDPEPC 2.2.2.1).
//!
//! It stands on `rd_base`. The layers above use one contract of it for each message: bytes are a value with a count of
//! ignored bytes after it, or have a first fault, and what is written is that one value.
//!
//! Cost: a list is read with one allocation for its devices and one for the data of each; it is written into one buffer of
//! its exact size, or after what the caller's buffer holds (`put`), and a device's data is copied once. No request of an
//! application passes through here.
#![tactic(auto)]

mod laws;
mod list;
mod printer;
mod removal;
mod reply;

pub use laws::{
    list_is_decided, printer_is_decided, removal_is_decided, reply_is_decided, worked_messages,
};
pub use list::{
    Announce, DeviceList, MAX_DEVICES, can_write_list, list_size, put_list, read_list, write_list,
};
pub use printer::{PrinterInfo, can_write_printer, put_printer, read_printer, write_printer};
pub use removal::{Removal, can_write_removal, put_removal, read_removal, write_removal};
pub use reply::{DeviceReply, put_reply, read_reply, write_reply};
