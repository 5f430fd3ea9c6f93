//! The tests of `rd_host_front`, by its public calls. They stand beside it, since a crate with tests of its own is proved twice.
#![tactic(auto)]

#[cfg(test)]
mod one_table;
#[cfg(test)]
mod tests;

#[cfg(test)]
pub use one_table::{on_one_table, over_turn};
