//! A host's table (`Pending`): what it asked of devices, and what came of each request.
//!
//! It stands on `rd_irp`, `rd_chunk` and `rd_base`. The layers above use one contract of it: each call of a `Pending` is its step of the
//! definitions (`TableStep`), and the table came to be by calls (`IsReachedTable`). Of such a table `reached_tables_tell_outcomes` says that each
//! request has the outcome that what was heard gives it.
//!
//! Cost: a request is put into a slot that is found by a bit in 16 words, and into an ordered map by its number; its completion finds the slot by
//! its place and the number in the map. Messages and outcomes are moved. Nothing grows with the requests whose outcomes were taken; the end of
//! a device or of a channel goes over the outcomes that weren't.
#![tactic(auto)]

mod calls;
mod kept;
mod laws;
mod losing;
mod pending;
mod replies;
mod slots;
mod table;
mod target;

pub use calls::{
    CompleteNo, Completed, Handle, LiveNo, Outcome, Stage, SubmitNo, TakeNo, Taken, Target,
};
pub use laws::{
    histories_are_as_listed, histories_tell_outcomes, outcomes_are_as_listed,
    outcomes_are_handed_out, reached_tables_tell_outcomes, replies_are_of_their_requests,
    slots_are_few, steps_are_as_listed, steps_keep_slots, steps_reach_tables, tables_are_as_listed,
};
pub use pending::Pending;
pub use target::may_submit;
