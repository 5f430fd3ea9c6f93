//! Which refusal a client's front gives to a request that never came to its desk, and that each has its cause.
//!
//! It stands on `rd_served` and the crates beside it, and has no code: each statement is the contract of a function that does nothing.
#![tactic(auto)]

mod laws;

pub use laws::{
    devices_are_cut_where_removed, fronts_answer, fronts_leave_answers, fronts_refuse_as_they_said,
    fronts_say_who_is_there, requests_come_unworn_to_fronts, starts_are_heard_unhindered,
};
