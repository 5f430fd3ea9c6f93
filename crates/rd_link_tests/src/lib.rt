//! The tests of `rd_link`, by its public calls, and a caller of any linker. They stand beside it, since a crate with tests of its own is
//! proved twice.
#![tactic(auto)]

#[cfg(test)]
mod echo;
#[cfg(test)]
mod tests;

#[cfg(test)]
pub use echo::{echo_once, pass_on};
