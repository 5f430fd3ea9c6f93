//! The tests of `rd_issuer`, by its public calls. They stand beside it, since a crate with tests of its own is proved twice.
#![tactic(auto)]

#[cfg(test)]
mod client;
#[cfg(test)]
mod session;
#[cfg(test)]
mod tests;

#[cfg(test)]
pub use client::{complete, play_client};
#[cfg(test)]
pub use session::{issue, run};
