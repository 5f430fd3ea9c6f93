//! Both sides of every session of a script are joined.
//!
//! It stands on `rd_journals`, and has no code: each statement is the contract of a function that does nothing.
#![tactic(auto)]

mod laws;

pub use laws::{
    cuts_are_few, journals_have_room, reads_are_few, sessions_are_recorded, sessions_are_tied,
    sessions_keep_journals, sessions_run_in_order,
};
