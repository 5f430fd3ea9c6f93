//! Which refusals the completions of a session tell to requests that never came.
//!
//! It stands on `rd_replied`, and has no code: each statement is the contract of a function that does nothing.
#![tactic(auto)]

mod laws;

pub use laws::{marks_are_said, messages_say_who_is_gone, refusals_are_left};
