//! What a host makes of a message that it hears.

use rd_base::Bytes;
use rd_devices::{DeviceList, Removal};
use rd_irp::Head;

/// What a message of the client asks of a host.
#[derive(Debug, Drop)]
pub enum Act {
    Nothing,
    /// A completion, and the bytes after its head.
    Complete { head: Head, body: Bytes },
    /// Devices that are there from now on.
    Announced(DeviceList),
    /// Devices that are gone.
    Removed(Removal),
}

/// The same, where the bytes after a completion's head are still in the message.
#[derive(Debug, Drop)]
pub enum LentAct<'m> {
    Nothing,
    /// A completion, and the bytes after its head.
    Complete { head: Head, body: &'m [u8] },
    /// Devices that are there from now on.
    Announced(DeviceList),
    /// Devices that are gone.
    Removed(Removal),
}
