//! What a step of a side returns.

ghost use Rattle.std.specs.Prelude.{◌≡◌};

use crate::hello::Hello;
use std::alloc::{AllocError, AllocFailed};
use thiserror::Error;

/// What a side writes when it has read a message, and whether it is ready then.
#[derive(Debug, Drop)]
pub struct Replies {
    pub first: Option<Hello>,
    /// Written after `first`.
    pub second: Option<Hello>,
    /// Whether the opening is over on this side then, also where it was over before.
    pub ready: bool,
}

/// Why a side can't take a message.
#[derive(Clone, Copy, Debug, PartialEq, Eq, Drop, Error)]
pub enum ShakeNo {
    /// The table of states has no row for it.
    #[error("the packet {packet:#06x} doesn't come in state {state}")]
    OutOfOrder {
        /// The number of the state.
        state: u8,
        /// The PacketId of the message.
        packet: u16,
    },
    #[error("out of memory")]
    Memory,
}

impl From<AllocError> for ShakeNo {
    ghost use Rattle.rd_hello.specs.declared.replies.ShakeNo.TheVariants as no;

    ghost from_gives = { λ _ e. e ≡ no.Memory };

    fn from(_error: AllocError) -> ShakeNo {
        ShakeNo::Memory
    }
}

impl<T: Drop> From<AllocFailed<T>> for ShakeNo {
    ghost use Rattle.rd_hello.specs.declared.replies.ShakeNo.TheVariants as no;

    ghost from_gives = { λ _ e. e ≡ no.Memory };

    fn from(_error: AllocFailed<T>) -> ShakeNo {
        ShakeNo::Memory
    }
}
