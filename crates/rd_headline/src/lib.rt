//! The whole of a session: what every run of a script's lines comes to.
//!
//! It stands on the crates that say what holds in every run, and has no code: each statement is the contract of a function that does nothing.
#![tactic(auto)]

mod laws;

pub use laws::{
    channels_open_in_time, loads_are_whole, runs_are_whole, scripts_are_whole,
    wrong_runs_are_refused,
};
