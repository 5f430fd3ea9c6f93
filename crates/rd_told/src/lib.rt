//! What the clients of every run told, beyond what joins the two sides: when entries are stored, how completions are written, and what printers and their
//! cache come to.
//!
//! It stands on `rd_journals` and `rd_joined`, and has no code: each statement is the contract of a function that does nothing.
#![tactic(auto)]

mod laws;

pub use laws::{completions_are_plain, devices_are_left, entries_are_stored_open};
