//! The requests of one device, from the moment when they come until their completions are handed out, and the device's journal.
//!
//! It stands on `rd_drive`, `rd_irp` and `rd_base`. The layer above uses one contract of it: each call of a `Station` is one step of its
//! definition (`StationStep`), and in every state it came to be by such steps (`IsReached`). What is proved of any of them holds then:
//! the journal is lawful and what is held is bounded (`stations_are_kept`), the device and what is ready are as the journal tells
//! (`stations_stay_tied`).
//!
//! Cost: `put`, `apply` and `collect` look up one completion id, or one key among those in hands, by comparisons that grow with the logarithm
//! of what is held, at most 128 (a job that leaves a hand moves those behind it up); a run that ends requests that waited goes once through
//! those that wait, at most 64. `remove` and `drop_channel` go through what is held. Nothing depends on what has passed. A job, a reply and a
//! completion are moved and never copied. `new`, `announce` and `put` find all memory; the journal grows by at least a half of itself.
#![tactic(auto)]

mod answers;
mod held;
mod laws;
mod memory;
mod refusals;
mod station;

pub use answers::{Applied, Completion, Given};
pub use laws::{
    calls_reach_stations, drives_are_run_by_their_step, station_steps_are_as_listed,
    stations_are_as_listed, stations_are_kept, stations_stay_tied, ties_are_as_listed,
};
pub use refusals::{AnnounceNo, PutNo, PutWhy, StationNo};
pub use station::{MAX_ENTRIES, Station};
