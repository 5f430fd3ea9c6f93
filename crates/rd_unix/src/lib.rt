//! Channels over Unix sockets, and the system's clock: the part of the outside that is trusted to do what its names say.
//!
//! It stands on `rd_link` and `rd_base`, and meets their traits, but tells nothing of bytes and moments. It is the only library that needs
//! the system's network.
//!
//! Cost: a read or a write is one call of the system, with no buffer between. A channel takes two descriptors.
#![tactic(auto)]

mod clock;
mod faults;
mod halves;
mod linker;
mod listening;

pub use clock::SystemClock;
pub use halves::{UnixIn, UnixOut};
pub use linker::UnixLinker;
