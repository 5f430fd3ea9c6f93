//! That every run of a session's world ends, and that what a run wrote which was cut off begins an end's recording.
//!
//! It stands on `rd_opening` and `rd_told`, and has no code: each statement is the contract of a function that does nothing. Each thing that happens by itself makes one of ten counts
//! smaller and leaves those before it as they are (`proofs/Remaining`, `Happening`), so nothing goes on for ever.
#![tactic(auto)]

mod laws;

pub use laws::{cut_runs_are_cut_off, journals_mark_their_runs, runs_are_of_their_marks, runs_end};
