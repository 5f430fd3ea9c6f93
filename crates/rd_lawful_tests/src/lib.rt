//! The tests of `rd_lawful`, by its public calls. They stand beside it, since a crate with tests of its own is proved twice.
#![tactic(auto)]

#[cfg(test)]
mod tests;
