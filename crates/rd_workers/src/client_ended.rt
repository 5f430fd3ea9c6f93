//! How a client ended.

use rd_carry::Ended;

/// How a client ended.
#[derive(Clone, Copy, Debug)]
pub enum ClientEnded {
    /// It had its devices open, and served them to this end; or no memory was found.
    Ended(Ended),
    /// The folder of this device couldn't be opened, and nothing was connected.
    Folder { device: u32 },
}
