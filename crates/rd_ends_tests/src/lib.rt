//! The tests of `rd_client` and `rd_host`, by their public calls. They stand beside them, since a crate with tests of its own is proved twice.
#![tactic(auto)]

#[cfg(test)]
mod client;
#[cfg(test)]
mod host;
#[cfg(test)]
mod messages;
