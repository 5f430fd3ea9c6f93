//! A host with threads: it plays the lines of its script on one channel after the other.
//!
//! It stands on `rd_host_front` and `rd_table` (what its threads share), on `rd_host_channel` (the two threads of a channel) and on `rd_host_player` (the one that plays the script). The layer above uses one contract, that of `serve_host`.
//!
//! Cost: for each channel two threads, and between two control lines one for each application that has something to do.
#![tactic(auto)]

mod channels;
mod session;

pub use session::serve_host;
