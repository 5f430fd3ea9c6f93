//! Room for messages: a writer lends it, and what hands messages out fills it.
//!
//! It stands on `rd_base`. The places are found where a room is made, so that no message takes memory when it comes or goes.
//!
//! Cost: a message is moved in and out. Nothing is copied.
#![tactic(auto)]

mod room;

pub use room::Room;
