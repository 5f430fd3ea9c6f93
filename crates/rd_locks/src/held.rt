//! A lock on a range of a file.

use rd_irp::Range;

/// A lock that stands, or that is wanted.
#[derive(Clone, Copy, Debug, PartialEq, Eq, Drop)]
pub struct Held {
    /// The drive's number of the file that is locked.
    pub node: u32,
    /// The handle that took it.
    pub file: u32,
    /// An exclusive lock is kept out by every other; a shared one by the exclusive locks of other handles.
    pub exclusive: bool,
    pub range: Range,
}
