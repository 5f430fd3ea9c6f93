//! A host's end of a channel: what it makes of the client's messages, and what it writes beside its requests (MS-RDPEFS 3.3.5).
//!
//! It stands on `rd_core` for what both ends do alike, on `rd_pending` and on the packets' crates. The layer above uses one contract: each
//! call of `HostCore` is its step of the definitions (`HostStep`), and `IsHostKept` holds before and after it.
//!
//! Cost: a completion's head is read in place. `hear_lent` lends the bytes after it out of the message and takes no memory for them; `hear`
//! copies them once.
#![tactic(auto)]

mod act;
mod hearing;
mod host_core;
mod laws;

pub use act::{Act, LentAct};
pub use host_core::HostCore;
pub use laws::{
    hosts_go_as_listed, hosts_hear_as_listed, hosts_keep, hosts_keep_order, hosts_open_as_listed,
    hosts_reply_as_due, hosts_reply_by_lives, hosts_stand, hosts_stay_wrong, hosts_want_memory,
    hosts_write_in_order,
};
