//! What ends a command before its end.

ghost use Rattle.std.specs.Prelude.{◌≡◌};
ghost use Rattle.rd_cli.specs.Stops.{early_stop};
ghost use Rattle.rd_cli.specs.declared.stop.Stop.TheVariants as stop;

use rd_audit::Verdict;
use rd_carry::EndWhy;
use rd_decode::Fault;
use rd_script::LineWhy;
use rd_world::StepNo;
use std::alloc::{AllocError, AllocFailed};

#[derive(Debug, Drop)]
pub enum Stop {
    /// The words are no command.
    Words,
    /// This line of the script, counted from 1, is the first that is refused.
    Line {
        line: u32,
        why: LineWhy,
    },
    /// A read of the input failed.
    Input,
    /// A write to the output failed.
    Output,
    /// A write to the recording failed.
    Recording,
    /// This is the first fault of the recording that was to be printed, or of the audit file.
    Fault(Fault),
    /// What the other side sent on a channel is wrong. The fields are those of `Ended::Channel`.
    Channel {
        channel: u32,
        at: u64,
        message: u64,
        why: EndWhy,
    },
    /// A channel couldn't be had, or failed.
    Link,
    /// The recording, or what came on a channel, has 2^40 bytes or more, or the audit file more than 2^30.
    Long,
    /// A folder of a client's script couldn't be opened.
    Folder,
    /// This was found of an audit file, of which not all belongs together.
    No(Verdict),
    Memory,
}

impl Stop {
    ghost use Rattle.rd_cli.specs.Stops.{status_of};

    /// The exit status.
    pub fn status(&self) -> u8
        ensures { result ≡ status_of self.now }
    {
        match self {
            Stop::Words | Stop::Line { .. } => 1,
            Stop::Input => 2,
            Stop::Output | Stop::Recording => 3,
            Stop::Fault(_) | Stop::Channel { .. } => 4,
            Stop::Link => 5,
            Stop::Memory => 6,
            Stop::Long => 7,
            Stop::Folder => 8,
            Stop::No(_) => 9,
        }
    }
}

impl From<AllocError> for Stop {
    ghost from_gives = { λ _ e. e ≡ stop.Memory };

    fn from(_error: AllocError) -> Stop {
        Stop::Memory
    }
}

impl<T: Drop> From<AllocFailed<T>> for Stop {
    ghost from_gives = { λ _ e. e ≡ stop.Memory };

    fn from(_error: AllocFailed<T>) -> Stop {
        Stop::Memory
    }
}

impl From<StepNo> for Stop {
    ghost from_gives = { λ cause e. e ≡ early_stop cause };

    fn from(cause: StepNo) -> Stop {
        match cause {
            StepNo::Wire => Stop::Recording,
            _ => Stop::Memory,
        }
    }
}
