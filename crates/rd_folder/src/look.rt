//! What a folder tells of a node.

use rd_base::{Moments, Units};

/// What a folder tells of a node.
#[derive(Clone, Copy, Debug, PartialEq, Eq)]
pub struct Look {
    pub folder: bool,
    /// How many bytes a file has; a folder has none.
    pub end: u64,
    /// As a drive stores them (MS-FSCC 2.6).
    pub attributes: u32,
    /// In units of 100 ns since 1601-01-01 UTC.
    pub moments: Moments,
}

/// What a listing tells of a node.
#[derive(Debug, Drop)]
pub struct Listed {
    /// The last name of its path.
    pub name: Units,
    pub look: Look,
}
