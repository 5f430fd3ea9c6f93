//! What is known of a client's session over a socket, from what its workers served.
//!
//! It stands on `rd_workers` and on what holds of every history of a front, and has no code: each statement is the contract of a function that does nothing.
#![tactic(auto)]

mod laws;

pub use laws::{scripts_are_servable, sessions_are_told};
