//! What a recording says, channel by channel: the requests of the host, and what its client says of devices and requests.
//!
//! `recorded_channels` goes over a recording once. A message that a single frame carries is lent by the recording, and any other is copied once. It stands on
//! `rd_decode`, whose faults are those of a recording here too, but that a completion without a request is none.
//!
//! Cost: a completion finds its request in the time of a search in a map. Nothing is kept of the other messages.
#![tactic(auto)]

mod channel;
mod hearing;
mod message;
mod no;
mod open_channel;
mod reading;

pub use channel::{ClientSaid, HeardChannel, HeardRequest, Saying};
pub use message::Message;
pub use no::RecordingNo;
pub use reading::recorded_channels;
