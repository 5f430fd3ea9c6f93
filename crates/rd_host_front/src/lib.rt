//! A host's front: what a channel's reader and its writer share, and the calling thread, which begins and ends channels.
//!
//! It stands on `rd_host` for the end of a channel, and on `rd_table` and `rd_turn` for the table. The layer above uses one contract: each call of a
//! `HostFront` is its step of the definitions (`HostFrontStep`).
//!
//! Cost: a message is moved in, and moved out into a room. A completion's head is cut off its message in place, so its bytes are handed to the table with no
//! memory found for them. A message that is heard makes at most one call of the table's turn for a completion, and one for each device otherwise; a message
//! that is handed out at most one.
#![tactic(auto)]

mod calls;
mod channels;
mod first_pass;
mod front_pass;
mod hearing;
mod host_front;
mod laws;
mod sending;

pub use calls::{Came, HostFrontCall, HostFrontReply, Stop, Wakes};
pub use first_pass::{FirstPass, TableTurn};
pub use host_front::HostFront;
pub use laws::{
    host_fronts_ask_the_table, host_fronts_count_messages, host_fronts_go_on,
    host_fronts_hand_back, host_fronts_hand_out,
};
