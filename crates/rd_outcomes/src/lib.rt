//! What came of the lines of applications in every run.
//!
//! It stands on `rd_journals` and `rd_joined`, and has no code: each statement is the contract of a function that does nothing.
#![tactic(auto)]

mod laws;

pub use laws::{
    known_outcomes_are_taken, lines_come_out, outcomes_are_numbered, requests_are_sent,
};
