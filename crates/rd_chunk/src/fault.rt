//! What can be wrong with a stream of carrier frames.

ghost use Rattle.std.specs.Prelude.{◌≡◌};

use std::alloc::{AllocError, AllocFailed};
use thiserror::Error;

/// What is wrong with a frame (MS-RDPBCGR 2.2.6.1).
#[derive(Clone, Copy, Debug, PartialEq, Eq)]
pub enum ChunkWhy {
    /// The frame has no data.
    Empty,
    /// The size can't be that of a frame.
    Size,
    /// The data are compressed.
    Compressed,
    /// A message begins without its first frame's flag.
    NoFirst,
    /// A first frame comes while a message is under way.
    SecondFirst,
    /// The message would be longer than 1,052,672 bytes.
    TooLong,
    /// The length isn't that of the message's first frame.
    LengthChanged,
    /// The data would pass the message's length.
    Overrun,
    /// The last frame's flag stands where data are missing.
    LastEarly,
    /// The message is complete without its last frame's flag.
    NotLast,
}

/// The first fault of a stream of frames.
#[derive(Clone, Copy, Debug, PartialEq, Eq)]
pub struct ChunkBad {
    /// The place in bytes from the stream's first, modulo 2^64.
    pub at: u64,
    pub why: ChunkWhy,
}

/// Why a joiner takes no bytes.
#[derive(Debug, Drop, Error)]
pub enum FeedNo {
    #[error("a frame at {} has the fault {:?}", .0.at, .0.why)]
    Bad(ChunkBad),
    #[error("out of memory")]
    Memory,
}

impl From<AllocError> for FeedNo {
    ghost use Rattle.rd_chunk.specs.declared.fault.FeedNo.TheVariants as no;

    ghost from_gives = { λ _ e. e ≡ no.Memory };

    fn from(_error: AllocError) -> FeedNo {
        FeedNo::Memory
    }
}

impl<T: Drop> From<AllocFailed<T>> for FeedNo {
    ghost use Rattle.rd_chunk.specs.declared.fault.FeedNo.TheVariants as no;

    ghost from_gives = { λ _ e. e ≡ no.Memory };

    fn from(_error: AllocFailed<T>) -> FeedNo {
        FeedNo::Memory
    }
}
