//! Scripts and loads have lines as statements on every run take them.
//!
//! It stands on the crates that say what holds in every run, and has no code: each statement is the contract of a function that does nothing.
#![tactic(auto)]

mod laws;

pub use laws::{loads_meet_all_premises, scripts_meet_all_premises};
