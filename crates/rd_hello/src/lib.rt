//! The messages that open a channel (MS-RDPEFS 2.2.2.2 to 2.2.2.8) as values and as bytes, and how host and client take turns
//! with them until both are ready (3.2.5, 3.3.5).
//!
//! It stands on `rd_base`. The layers above use two contracts of it. Bytes are one of the six messages with a count of ignored
//! bytes after it, or have a first fault, and what is written is that one message. A step of a side is the row of its table
//! of states (`specs/ClientTable`, `specs/HostTable`), or there is no such row and nothing changes.
//!
//! Cost: capability sets are read with one allocation for all and one for each that is kept unread; a message is written into
//! one buffer of its exact size, or after what the caller's buffer holds (`put_hello`). A step allocates what it replies. No
//! request of an application passes through here.
#![tactic(auto)]

mod capability;
mod client;
mod end_fault;
mod hello;
mod host;
mod laws;
mod own;
mod replies;

pub use capability::{Cap, Caps, General, MAX_SETS};
pub use client::{ClientShake, ClientState, client_row};
pub use end_fault::EndFault;
pub use hello::{
    Hello, MAX_NAME_BYTES, Version, can_write_hello, put_hello, read_hello, write_hello,
};
pub use host::{HostShake, HostState, host_row};
pub use laws::{
    confirm_comes_first, hello_is_decided, sides_open, worked_faults, worked_messages, worked_sets,
};
pub use replies::{Replies, ShakeNo};
