//! A station behind a turn: a reader, a writer and workers call it, each with a pass of its own.
//!
//! It stands on `rd_station`, `rd_turn` and `rd_drive`. The layer above opens a turn over a `Desk`, gives each worker a `Hand`, and uses one fact of
//! its histories: each is one of the station's own calls (`desks_are_stations`), in which every run is of the job that came under its key, where
//! each pass gives back its own (`jobs_run_as_they_came`), as hands do.
//!
//! Cost: those of the station's calls, of which a worker's call makes up to eight. Plans, jobs and what came of them are moved into room that a worker
//! made once; `Batch::new` takes memory for it, `into_batch` for what plans need, `Put` and `Announce` as the station does, and nothing else.
#![tactic(auto)]

mod batch;
mod calls;
mod desk;
mod hand;
mod laws;

pub use batch::{Batch, MOST, Run, Worked};
pub use calls::{DeskCall, DeskReply};
pub use desk::Desk;
pub use hand::Hand;
pub use laws::{
    desks_are_as_listed, desks_are_stations, hands_give_back_their_own, jobs_run_as_they_came,
};
