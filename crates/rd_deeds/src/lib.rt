//! What host and client do, as one list of deeds, and the law that joins both sides.
//!
//! It stands on both ends and the table, and has no code: each statement is the contract of a function that does nothing. The definitions come first;
//! `joined_sides_agree` is the joining law.
#![tactic(auto)]

mod laws;

pub use laws::{a_session_is_joined, joined_sides_agree};
