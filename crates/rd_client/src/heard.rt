//! What a client makes of a message that it hears.

use rd_drive::Job;
use rd_irp::Request;
use rd_printer::Notice;

/// What a message of the host asks of a client.
#[derive(Debug, Drop)]
pub enum Heard {
    Nothing,
    /// A request for a device.
    Ask { device: u32, job: Job },
    /// What the host tells of a printer.
    Print(Notice),
}

/// The same, before the request got its place on the channel.
#[derive(Drop)]
pub enum Came {
    Nothing,
    Ask(Request),
    Print(Notice),
}
