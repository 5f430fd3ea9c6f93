//! What a client's front did in a history, and what it tells by that.
//!
//! It stands on `rd_front`, and has no code: each statement is the contract of a function that does nothing.
#![tactic(auto)]

mod laws;

pub use laws::{
    completions_keep_the_order_of_journals, completions_stand_after_their_keys,
    deeds_tell_histories, duplicates_have_a_cause, fronts_never_answer_unfit,
    histories_go_by_parts, keys_come_after_their_requests, messages_are_on_their_channel,
};
