//! A client's front: what its reader and its writer share.
//!
//! It stands on `rd_desk` and `rd_turn`, and on the client of `rd_world`. The layer above uses one contract: each call of a `Front` is its step of the
//! definitions (`FrontStep`).
#![tactic(auto)]

mod calls;
mod device_desk;
mod ending;
mod front;
mod hearing;
mod kept_job;
mod laws;
mod next;
mod telling;

pub use calls::{FrontCall, FrontReply, Rest};
pub use device_desk::DeviceDesk;
pub use front::Front;
pub use laws::{a_front_is_there, fronts_call_desks, fronts_count_messages};
