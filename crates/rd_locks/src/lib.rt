//! Locks on ranges of bytes: to their callers one list in the order in which the locks were taken, with a number of places
//! reserved beside it; inside slots in that order, of which those of one node are chained.
//!
//! It stands on `rd_irp` (`Range`) and `rd_base`. The layer above uses the list: each call tells in `specs/Locks`' words what
//! is in the way, which locks stand afterwards, and that a refusal changes nothing.
//!
//! Cost: a call walks the locks of its own node, once for each range, and those of no other; taking a lock, or reserving a
//! place for one, costs the same whatever other locks stand. Only `lock` and `reserve` take memory.
#![tactic(auto)]

mod held;
mod index;
mod laws;
mod leap;
mod locks;
mod slots;

pub use held::Held;
pub use laws::locks_are_as_listed;
pub use locks::{LockNo, Locks, MAX_LOCKS};
