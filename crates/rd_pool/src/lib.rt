//! The workers' pool.
#![tactic(auto)]

mod bell;
mod desks;
mod hands;
mod laws;
mod outside;
mod passes;
mod workers;

pub use bell::Bell;
pub use desks::Desks;
pub use hands::Hands;
pub use laws::{
    all_but_one_are_hands, calls_keep_passes, passes_come_home,
    stations_are_as_their_calls_left_them,
};
pub use outside::{AfterGate, AtOnce, Outside};
pub use passes::{Homecoming, Passes};
pub use workers::with_workers;
