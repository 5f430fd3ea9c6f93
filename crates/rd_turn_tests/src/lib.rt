//! The tests of `rd_turn`, by its public calls. They stand beside it, since a crate with tests of its own is proved twice.
#![tactic(auto)]

mod adder;
mod front;
mod laws;
mod shelf;
mod side_by_side;
#[cfg(test)]
mod tests;

pub use adder::Adder;
pub use front::Front;
pub use laws::histories_are_as_listed;
pub use shelf::Shelf;
pub use side_by_side::{add_three, call_side_by_side};
