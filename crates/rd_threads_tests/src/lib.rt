//! The tests that the threads of a client and those of a host work at the same time, and serve a folder, by the public calls of `rd_cli`.
#![tactic(auto)]

#[cfg(test)]
mod client;
#[cfg(test)]
mod folder;
#[cfg(test)]
mod host;
#[cfg(test)]
mod serving;

#[cfg(test)]
pub use serving::{serve, waits_for};
