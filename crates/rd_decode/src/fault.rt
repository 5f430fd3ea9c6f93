//! What can be wrong with a recording.

ghost use Rattle.std.specs.Prelude.{◌≡◌};

use rd_base::{Bad, ReadNo, Why};
use rd_chunk::ChunkWhy;
use std::alloc::{AllocError, AllocFailed};
use thiserror::Error;

/// What is wrong with a recording.
#[derive(Clone, Copy, Debug, PartialEq, Eq)]
pub enum FaultWhy {
    /// A frame can't stand where it stands (MS-RDPBCGR 2.2.6.1).
    Chunk(ChunkWhy),
    /// A field of a message, or of the recording itself, has a fault.
    Field(Why),
    /// A completion has no request.
    Stray,
}

/// The first fault of a recording.
#[derive(Clone, Copy, Debug, PartialEq, Eq)]
pub struct Fault {
    /// In bytes from the recording's first.
    pub at: u64,
    pub why: FaultWhy,
}

/// What goes wrong first in an entry of a recording.
#[derive(Clone, Copy, Debug, PartialEq, Eq)]
pub struct EntryFault {
    /// In bytes from the entry's first.
    pub offset: u32,
    pub why: FaultWhy,
}

/// Why the printing of a recording ended before its end.
#[derive(Debug, Drop, Error)]
pub enum DecodeNo {
    #[error("a read of the input failed")]
    Input,
    #[error("a write to the output failed")]
    Output,
    #[error("the recording has the fault {:?} at {}", .0.why, .0.at)]
    Bad(Fault),
    /// 2^40 bytes were read.
    #[error("the recording is too long")]
    Long,
    #[error("out of memory")]
    Memory,
}

impl From<AllocError> for DecodeNo {
    ghost use Rattle.rd_decode.specs.declared.fault.DecodeNo.TheVariants as no;

    ghost from_gives = { λ _ e. e ≡ no.Memory };

    fn from(_error: AllocError) -> DecodeNo {
        DecodeNo::Memory
    }
}

impl<T: Drop> From<AllocFailed<T>> for DecodeNo {
    ghost use Rattle.rd_decode.specs.declared.fault.DecodeNo.TheVariants as no;

    ghost from_gives = { λ _ e. e ≡ no.Memory };

    fn from(_error: AllocFailed<T>) -> DecodeNo {
        DecodeNo::Memory
    }
}

/// Why a message has no line.
#[derive(Debug, Drop)]
pub enum LineNo {
    Bad(EntryFault),
    Memory,
}

impl From<Bad> for LineNo {
    ghost use Rattle.rd_decode.specs.Kept.{line_no_of};

    ghost from_gives = { λ bad e. e ≡ line_no_of bad };

    /// A fault of a field has the place of the frame that ended its message.
    fn from(bad: Bad) -> LineNo {
        LineNo::Bad(EntryFault {
            offset: 1,
            why: FaultWhy::Field(bad.why),
        })
    }
}

impl From<ReadNo> for LineNo {
    ghost use Rattle.rd_decode.specs.Kept.{line_no_of_read};

    ghost from_gives = { λ no e. e ≡ line_no_of_read no };

    fn from(no: ReadNo) -> LineNo {
        match no {
            ReadNo::Bad(bad) => LineNo::from(bad),
            ReadNo::Memory => LineNo::Memory,
        }
    }
}

impl From<AllocError> for LineNo {
    ghost use Rattle.rd_decode.specs.declared.fault.LineNo.TheVariants as no;

    ghost from_gives = { λ _ e. e ≡ no.Memory };

    fn from(_error: AllocError) -> LineNo {
        LineNo::Memory
    }
}

impl<T: Drop> From<AllocFailed<T>> for LineNo {
    ghost use Rattle.rd_decode.specs.declared.fault.LineNo.TheVariants as no;

    ghost from_gives = { λ _ e. e ≡ no.Memory };

    fn from(_failed: AllocFailed<T>) -> LineNo {
        LineNo::Memory
    }
}
