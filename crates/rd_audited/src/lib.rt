//! What an auditor's yes means.
//!
//! It stands on `rd_audit`, and has no code: each statement is the contract of a function that does nothing.
#![tactic(auto)]

mod laws;

pub use laws::{yes_is_complete, yes_journals_are_own};
