//! Why a recording can't be heard.

use rd_decode::Fault;
use std::alloc::{AllocError, AllocFailed};
use thiserror::Error;

/// Why a recording can't be heard: its first fault, whose place is in bytes from the first of the file that holds it, or want of memory.
#[derive(Debug, Drop, Error)]
pub enum RecordingNo {
    #[error("the recording has the fault {:?} at {}", .0.why, .0.at)]
    Bad(Fault),
    #[error("out of memory")]
    Memory,
}

impl From<AllocError> for RecordingNo {
    ghost use Rattle.std.specs.Prelude.{◌≡◌};
    ghost use Rattle.rd_recorded.specs.declared.no.RecordingNo.TheVariants as no;

    ghost from_gives = { λ _ e. e ≡ no.Memory };

    fn from(_error: AllocError) -> RecordingNo {
        RecordingNo::Memory
    }
}

impl<T: Drop> From<AllocFailed<T>> for RecordingNo {
    ghost use Rattle.std.specs.Prelude.{◌≡◌};
    ghost use Rattle.rd_recorded.specs.declared.no.RecordingNo.TheVariants as no;

    ghost from_gives = { λ _ e. e ≡ no.Memory };

    fn from(_error: AllocFailed<T>) -> RecordingNo {
        RecordingNo::Memory
    }
}
