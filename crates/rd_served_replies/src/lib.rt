//! Whose replies a client's front tells: each completion that it writes is the answer to its own request.
//!
//! It stands on `rd_served`, and has no code: each statement is the contract of a function that does nothing.
#![tactic(auto)]

mod laws;

pub use laws::{
    answers_are_complete, completions_are_answered, completions_are_replied, jobs_come_as_read,
    passes_gave_their_own, passes_lead_stations, removals_are_told, requests_put_were_read,
    stations_are_tied,
};
