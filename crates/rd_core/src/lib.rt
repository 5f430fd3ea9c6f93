//! What both ends of a channel share: where the opening stands, what was wrong with a message, what waits to be sent, and how a message is
//! heard (MS-RDPEFS 3.2.5, 3.3.5).
//!
//! It stands on `rd_hello`, `rd_chunk` and `rd_base`; both ends stand on it. The layer above uses two contracts: the header of a message says
//! which packet comes, or what is wrong, and a fault stays until a channel begins (`EndCore::expect`, `EndCore::fail`); messages are sent in
//! order, and want of memory changes nothing (`EndCore::open`, `EndCore::put`, `EndCore::send`).
//!
//! Cost: one request costs the reading of four bytes and at most five comparisons here; a message is moved into the outbox and out of it.
#![tactic(auto)]

mod end_core;
mod laws;
mod opening;

pub use end_core::EndCore;
pub use laws::ends_send_in_order;
pub use opening::{read_opening, write_opening};
