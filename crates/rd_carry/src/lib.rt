//! Messages over the two halves of one channel: those that come in out of a source of carrier frames, and those that go out in frames
//! into a sink. And how a session at an end of channels ended.
//!
//! It stands on `rd_chunk` (frames) and `rd_link` (halves), on `rd_hello` for faults of messages, and on `rd_trace` for what was read and handed out.
//! The layers above use two contracts of it: what an `Incoming` read are the messages that it handed out, in frames, and then what isn't
//! handled (`HasHeard`); what an `Outgoing` wrote is a prefix of the frames of the messages that it was given, and all but what waits where
//! no write failed (`HasWritten`).
//!
//! Cost: a message that comes in is copied once, from the buffer of a read, and one that goes out twice: into its frames, and to those that
//! wait for the next write. Each half has a buffer that its caller lends. Memory is taken for each message that comes in, which is
//! moved out, and where a buffer of outgoing frames grows.
#![tactic(auto)]

mod ended;
mod feeding;
mod incoming;
mod laws;
mod outgoing;

pub use ended::{EndWhy, Ended};
pub use feeding::{CarryNo, MAX_INCOMING};
pub use incoming::Incoming;
pub use laws::{all_handled, frames_are_written, read_to_the_end};
pub use outgoing::{FLUSH_LEN, Outgoing};
