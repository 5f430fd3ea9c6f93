//! What can happen in a session.

ghost use Rattle.std.specs.Prelude.{◌≡◌};

use rd_base::Failed;
use rd_printer::Notice;
use std::alloc::AllocError;
use thiserror::Error;

/// An event of a session. Applications, devices and hands by their numbers, hands counted from 1.
#[derive(Debug, Drop)]
pub enum Event {
    /// The application issues its next line.
    Issue(u32),
    /// The host sends its first message.
    HostSend,
    /// The client reads so many bytes.
    ClientRead(u32),
    /// The client sends its first message.
    ClientSend,
    /// The client collects a completion of the device, and sends it.
    Collect(u32),
    /// The host reads so many bytes.
    HostRead(u32),
    /// A hand takes a job of a device.
    Take { device: u32, hand: u32 },
    /// A hand runs its job.
    Apply(u32),
    /// The client tells that the device is gone.
    Remove(u32),
    /// The client tells that the device is there again.
    Add(u32),
    /// The channel ends.
    Drop,
    /// A channel begins.
    Connect,
    /// The host tells the client of a printer.
    Notice(Notice),
}

/// Why a session doesn't go on.
#[derive(Debug, Drop, Error)]
pub enum StepNo {
    #[error("this can't happen now")]
    Disabled(Event),
    #[error("a write of the recording failed")]
    Wire,
    #[error("out of memory")]
    Memory,
}
