//! Which requests a client's front answers without their devices, in which order, and that it passes over none.
//!
//! It stands on `rd_served`, and has no code: each statement is the contract of a function that does nothing.
#![tactic(auto)]

mod laws;

pub use laws::{
    fronts_answer_in_order, fronts_pass_over_none, messages_of_bytes_name_in_room,
    nothing_is_heard_too_late,
};
