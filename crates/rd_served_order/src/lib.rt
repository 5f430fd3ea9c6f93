//! In which order a client reads and writes, by a history of its front.
//!
//! It stands on `rd_served`, and has no code: each statement is the contract of a function that does nothing.
#![tactic(auto)]

mod laws;

pub use laws::{completions_are_sent_in_order, messages_are_in_order, tellings_are_those_of_calls};
