//! What is printed of a recording is the lines of what both sides wrote.
//!
//! It stands on `rd_world` and `rd_decode`, and has no code: each statement is the contract of a function that does nothing.
#![tactic(auto)]

mod laws;

pub use laws::{deeds_are_printed, lines_are_as_listed, lines_say_values};
