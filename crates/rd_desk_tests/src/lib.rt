//! The tests of `rd_desk`, by its public calls. They stand beside it, since a crate with tests of its own is proved twice.
#![tactic(auto)]

#[cfg(test)]
mod side_by_side;
#[cfg(test)]
mod tests;

#[cfg(test)]
pub use side_by_side::{run_two, work_side_by_side};
