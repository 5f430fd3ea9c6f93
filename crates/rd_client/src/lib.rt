//! A client's end of a channel: what it makes of the host's messages, and what it writes beside the completions of its devices
//! (MS-RDPEFS 3.2.5).
//!
//! It stands on `rd_core` for what both ends do alike, and on the packets' crates. The layer above uses one contract: each call of
//! `ClientCore` is its step of the definitions (`ClientStep`), and `IsClientKept` holds before and after it.
//!
//! Cost: of a request its packet is told by four bytes, then it is read once, and its bytes are copied once, from the message into the job; nothing
//! is looked up. A list is written into one buffer of its exact size, in three passes over at most 256 devices; a removed device is found in an
//! ordered set.
#![tactic(auto)]

mod client_core;
mod heard;
mod hearing;
mod laws;
mod listing;
mod outgoing;

pub use client_core::ClientCore;
pub use heard::Heard;
pub use laws::{
    clients_answer_by_key, clients_hear_as_listed, clients_keep, clients_keep_order,
    clients_open_as_listed, clients_stay_wrong, clients_want_memory, clients_write_in_order,
};
pub use outgoing::Outgoing;
