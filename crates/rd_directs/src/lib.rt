//! In which order a client answers requests that never came to their devices, in every run.
//!
//! It stands on `rd_journals`, and has no code: each statement is the contract of a function that does nothing.
#![tactic(auto)]

mod laws;

pub use laws::{
    alone_requests_meet_none, direct_answers_are_in_order, kept_jobs_meet_none,
    requests_come_unworn,
};
