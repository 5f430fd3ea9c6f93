//! What the control lines of a script did: where devices were cut off, what was told of them and of printers, and when.
//!
//! It stands on `rd_joined` and `rd_controls`, and has no code: each statement is the contract of a function that does nothing. Each is of every world that lines come to, or of a
//! run's end. What a client tells waits in its outbox until it is written, so that what was written and what waits say, together, what is due (`proofs/TellLemmas`); a station is live just while its device is there and told of
//! (`proofs/ThereLemmas`).
#![tactic(auto)]

mod laws;

pub use laws::{
    caches_keep_what_is_read, channels_end_told, control_lines_are_by_acts, orders_read_well,
    rests_tell_all, runs_act, runs_cut_devices, runs_tell_in_time, runs_tell_of_printers,
    sessions_act,
};
