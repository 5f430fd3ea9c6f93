//! Where channels come from: a linker gives the two halves of one channel after another, and takes them back. And what else a running
//! end asks of the outside: a clock, and a gate that its workers pass.
//!
//! It stands on `rd_base` alone. The layers above use two contracts of it: `connect` and `settle` fail, and count faults, only where
//! something failed; and where a linker tells its channels, what a caller read and wrote on one is what is told of it (`Linker`).
//!
//! Cost: giving a channel and taking it back copy no byte and take no memory. In memory, the bytes of every channel are copied once
//! when the linker is made.
#![tactic(auto)]

mod clock;
mod gate;
mod halves;
mod link;
mod memory;

pub use clock::{Clock, FixedClock};
pub use gate::{Gate, NoGate};
pub use halves::{MemIn, MemOut};
pub use link::{Hang, Linker};
pub use memory::{MemLinker, Settled};
