//! The host's table behind a turn: the threads of a host call it, each with a pass of its own.
//!
//! It stands on `rd_pending` (tables) and `rd_turn`. The layer above opens a turn over a `Table`, and gives its front and each application's thread a
//! pass.
//!
//! Cost: that of the table's call. Messages, bodies and outcomes are moved; a turn moves a pointer to the table.
#![tactic(auto)]

mod calls;
mod laws;
mod table;

pub use calls::{PendingCall, PendingReply};
pub use laws::{
    ended_tables_have_all_outcomes, looks_tell_the_channel, outcomes_are_handed_out_once,
    passes_make_the_history, passes_stand_in_order, replies_are_as_listed,
    requests_are_accepted_once, tables_go_by_their_calls,
};
pub use table::Table;
