//! The tests of `rd_drive`, by its public calls. They stand beside it, since a crate with tests of its own is proved twice.
#![tactic(auto)]

#[cfg(test)]
mod asks;
#[cfg(test)]
mod close;
#[cfg(test)]
mod create;
#[cfg(test)]
mod failing;
#[cfg(test)]
mod handles;
#[cfg(test)]
mod locking;
#[cfg(test)]
mod notify;
#[cfg(test)]
mod opening;
#[cfg(test)]
mod query;
#[cfg(test)]
mod query_dir;
#[cfg(test)]
mod read_write;
#[cfg(test)]
mod rename;
#[cfg(test)]
mod rows;
#[cfg(test)]
mod set_file;
#[cfg(test)]
mod statuses;
