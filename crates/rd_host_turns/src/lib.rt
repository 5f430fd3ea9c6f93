//! What stands between the calls that a host's front makes of the table: calls of applications, and looks.
//!
//! It stands on `rd_host_session`, and has no code: each statement is the contract of a function that does nothing.
#![tactic(auto)]

mod laws;

pub use laws::only_quiet_calls_stand_between;
