//! Printers: what the host tells a client of them (MS-RDPEPC 2.2.2.2 to 2.2.2.6), as values and as bytes; what a client keeps of that
//! (`Cache`); and a printer as a device (`Printer`), which keeps what is printed in memory.
//!
//! It stands on `rd_base`, and a printer on `rd_drive` for the words of every device, and on `rd_irp` for requests and replies. The layers
//! above use three contracts of it: bytes are a notice with a count of ignored bytes after it, or have a first fault, and what is written is
//! that one notice; `Cache::hear` does what a notice tells (`HearsNotice`); `Device::apply` of a printer is one step of its definition
//! (`printer_step`), or changes nothing where no memory is found, and `Device::cut` is `printer_cut`.
//!
//! Cost: each byte field of a notice is copied once, into memory of its size; a notice is written into one buffer of its
//! exact size, or after what the caller's buffer holds (`put_notice`). A request to a printer looks its document up in an ordered map; each
//! byte of a Write is copied once, and a document's room at least doubles where it is full; Close copies nothing and takes no memory. A notice
//! that a cache hears is looked up by its name in an ordered map; a renaming moves the configuration.
#![tactic(auto)]

mod cache;
mod document;
mod laws;
mod notice;
mod printer;

pub use cache::Cache;
pub use laws::{
    notice_is_decided, printer_replies_are_in_range, printer_requests_have_one_reply,
    printers_are_as_listed, printers_are_devices, worked_notices,
};
pub use notice::{Notice, can_write_notice, put_notice, read_notice, write_notice};
pub use printer::{Documents, Printer};
