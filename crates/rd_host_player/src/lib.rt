//! How a host plays the lines of a script: what the thread does that comes to them, beside the two of each channel.
//!
//! It stands on `rd_host_front` and `rd_table` (what a host's threads share) and on `rd_issuer` (the applications, each on a thread of its own).
//!
//! Cost: between two control lines one thread for each application that has something to do.
#![tactic(auto)]

mod handing;
mod plan;
mod player;
mod telling;

pub use handing::HandsBack;
pub use plan::{Control, acted_by, awaited_devices};
pub use player::{Player, Stop};
pub use telling::tell_all;
