//! Which calls of a host's table may change places.
//!
//! It stands on `rd_pending`, and has no code: each statement is the contract of a function that does nothing.
#![tactic(auto)]

mod laws;

pub use laws::{
    asks_follow_lives, asks_part_at_removals, calls_make_histories, exchanges_are_as_listed,
    tables_stay_reached,
};
