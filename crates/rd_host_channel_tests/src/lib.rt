//! The tests of `rd_host_channel`, by its public calls. They stand beside it, since a crate with tests of its own is proved twice.
#![tactic(auto)]

#[cfg(test)]
mod handing;
#[cfg(test)]
mod one_channel;
#[cfg(test)]
mod tests;

#[cfg(test)]
pub use handing::{Handing, written};
#[cfg(test)]
pub use one_channel::{on_one_table, over_turn};
