//! The recording of a whole session is read without a fault, and its lines are those of what both sides wrote.
//!
//! It stands on `rd_printed` and `rd_runs`, and has no code: each statement is the contract of a function that does nothing.
#![tactic(auto)]

mod laws;

pub use laws::{whole_sessions_are_printed, whole_sessions_are_readable};
