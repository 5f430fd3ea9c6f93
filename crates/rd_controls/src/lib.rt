//! What the control lines of a script do in every run of it.
//!
//! It stands on `rd_runs`, and has no code: each statement is the contract of a function that does nothing. What is seen of a world by its control lines is which
//! channel is open, which devices are gone, and what was done by lines; of what happens by itself nothing of that is seen (`proofs/Unseen`). A channel opens in the rounds of its begin,
//! which are computed (`proofs/Opening`).
#![tactic(auto)]

mod laws;

pub use laws::{
    control_lines_do_as_said, scripts_are_ordered, sessions_do_as_said, settle_lines_rest,
};
