//! Where the threads of a host sleep, and who wakes them.
//!
//! It stands on `std` alone. The layers above promise nothing of who is woken, or when: whoever is looks again, so nothing that they promise rests on it.
//!
//! Cost: to ring takes a lock, and a call of the system where somebody sleeps.
#![tactic(auto)]

mod sleepers;

pub use sleepers::Sleepers;
