//! What the two threads of a host's channel do: the one that reads it, and the one that writes it.
//!
//! It stands on `rd_host_front` (what both share), on `rd_carry` (messages over the halves of a channel) and on `rd_sleepers` (who is woken). The layer above begins and ends channels, and runs
//! `listen` and `send` beside each other, each with a pass of the front of its own. It uses two contracts: the calls of the one pass give what came on the channel to be heard, in order, and
//! drop the channel at the end (`Listens`); what the calls of the other were handed was put to the half, in order, and nothing waits there (`Sends`).
//!
//! Cost: a call of the front's turn for each message that comes, and one for each room of messages that go out. Messages are moved, and one that goes out is copied once, into its frames.
#![tactic(auto)]

mod ending;
mod laws;
mod listening;
mod putting;
mod sending;

pub use ending::Ending;
pub use laws::messages_are_heard_in_order;
pub use listening::{Listened, listen};
pub use sending::{Sent, send};
