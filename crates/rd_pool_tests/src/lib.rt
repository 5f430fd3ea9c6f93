//! The tests of `rd_pool`, by its public calls. They stand beside it, since a crate with tests of its own is proved twice.
#![tactic(auto)]

#[cfg(test)]
mod alone;
#[cfg(test)]
mod side_by_side;
#[cfg(test)]
mod tests;

#[cfg(test)]
pub use alone::{Digits, run_alone};
#[cfg(test)]
pub use side_by_side::{Held, Order, open_two, run_two};
