//! The tests of `rd_carry`, by its public calls, and callers of any two halves. They stand beside it, since a crate with tests of its own is
//! proved twice.
#![tactic(auto)]

#[cfg(test)]
mod echo;
#[cfg(test)]
mod moved;
#[cfg(test)]
mod tests;

#[cfg(test)]
pub use echo::echo_all;
#[cfg(test)]
pub use moved::flush_in_thread;
