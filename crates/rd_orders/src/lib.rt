//! Both orders of every channel, in every run.
//!
//! It stands on `rd_controls` and `rd_journals`, and has no code: each statement is the contract of a function that does nothing.
#![tactic(auto)]

mod laws;

pub use laws::{ends_stand, scripts_are_writable, sessions_are_in_order};
