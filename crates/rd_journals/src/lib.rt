//! What holds of the journals of a session's devices in every run.
//!
//! It stands on `rd_runs`, and has no code: each statement is the contract of a function that does nothing.
#![tactic(auto)]

mod laws;

pub use laws::{
    completions_answer, completions_are_in_order, completions_are_of_requests, completions_stand,
    journals_are_short, replies_stay, runs_keep_journals, scripts_are_fit, stations_are_tied,
};
