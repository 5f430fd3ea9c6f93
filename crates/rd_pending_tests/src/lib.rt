//! The tests of `rd_pending`, by its public calls. They stand beside it, since a crate with tests of its own is proved twice.
#![tactic(auto)]

#[cfg(test)]
mod calls;
#[cfg(test)]
mod rows;
#[cfg(test)]
mod tests;
