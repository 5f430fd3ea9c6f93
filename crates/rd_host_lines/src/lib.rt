//! What the lines of a host's script asked its table for, what came of each, and where these calls stand among those by which the host acts lines itself.
//!
//! It stands on `rd_host_session`, and has no code: each statement is the contract of a function that does nothing.
#![tactic(auto)]

mod laws;

pub use laws::{
    lines_have_their_outcomes, places_are_as_listed, requests_have_room, scripts_ask_in_range,
    scripts_go_along_histories,
};
