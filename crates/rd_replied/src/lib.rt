//! Whose replies the completions of a session tell, by the journals of its devices as they are at its end.
//!
//! It stands on `rd_journals`, and has no code: each statement is the contract of a function that does nothing.
#![tactic(auto)]

mod laws;

pub use laws::{completions_are_answered, completions_are_replied, removals_are_told};
