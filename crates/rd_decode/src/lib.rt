//! Recordings of a channel, printed: a line for each message.
//!
//! It stands on the readers of all packets and on the table of chunk faults. The layer above uses `decode`: whatever bytes its input has, it
//! prints the lines of the messages before the first fault, and says which fault that is and where.
//!
//! Cost: the input is read and the lines are written in pieces of 65,536 bytes. The bytes of a message are copied once, into the data of its
//! side, whose buffer is kept for the next message and grows with the data that come, not with what a frame promises. A request takes a place
//! in an ordered map until its completion comes. Nothing else is kept.
#![tactic(auto)]

mod awaited;
mod channel;
mod decoder;
mod entry;
mod fault;
mod flushing;
mod frame;
mod laws;
mod lines;
mod message;
mod printing;
mod reading;
mod side;
mod under_way;

pub use awaited::{Pair, Requests};
pub use fault::{DecodeNo, EntryFault, Fault, FaultWhy, LineNo};
pub use frame::{SIZE_LEN, head_of, size_of};
pub use laws::{first_fault_stays, recordings_are_as_listed};
pub use lines::may_send;
pub use message::plain_tail;
pub use printing::decode;
pub use side::Side;
pub use under_way::UnderWay;
