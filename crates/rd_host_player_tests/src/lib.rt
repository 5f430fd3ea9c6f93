//! The tests of `rd_host_player`, by its public calls. They stand beside it, since a crate with tests of its own is proved twice.
#![tactic(auto)]

#[cfg(test)]
mod session;
#[cfg(test)]
mod tests;

#[cfg(test)]
pub use session::{over_table, over_turn};
