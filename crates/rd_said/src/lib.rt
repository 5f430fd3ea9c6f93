//! What was left to be said when a channel ended: with it no request there was passed over, and no more was told of devices than is due.
//!
//! It stands on `rd_rest`, `rd_answered`, `rd_acted`, `rd_orders` and `rd_told`, and has no code: each statement is the contract of a function that does nothing.
#![tactic(auto)]

mod laws;

pub use laws::{ended_channels_are_left_so, scripts_leave_channels_so, what_waits_is_told};
