//! Why an end can't go on with a channel.

use rd_base::Bad;
use std::alloc::AllocError;

/// What is wrong with a message for the end that reads it.
#[derive(Clone, Copy, Debug, PartialEq, Eq)]
pub enum EndFault {
    /// The packet isn't one that the end reads in its state.
    Order {
        /// The number of the state.
        state: u8,
        /// The PacketId of the message.
        packet: u16,
    },
    /// The message has no header, or is no message of its packet: its first fault.
    Grammar(Bad),
    Memory,
}

impl From<AllocError> for EndFault {
    ghost use Rattle.std.specs.Prelude.{◌≡◌};
    ghost use Rattle.rd_hello.specs.declared.end_fault.EndFault.TheVariants as fault;

    ghost from_gives = { λ _ e. e ≡ fault.Memory };

    fn from(_error: AllocError) -> EndFault {
        EndFault::Memory
    }
}
