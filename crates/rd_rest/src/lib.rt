//! What a session has done where nothing can happen by itself.
//!
//! It stands on `rd_answered`, `rd_told` and `rd_controls`, and has no code: each statement is the contract of a function that does nothing.
#![tactic(auto)]

mod laws;

pub use laws::{
    dropped_journals_are_over, hands_hold_what_is_taken, left_channel_is_open,
    left_channel_is_said, left_channels_are_still, none_is_kept_back, requests_are_completed,
    requests_are_in_turn, rests_are_still, runs_end_at_rest, sessions_end_at_rest,
    waiting_requests_were_left, what_is_left_waits,
};
