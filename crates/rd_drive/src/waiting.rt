//! Requests that wait.

use rd_base::Key;
use rd_irp::Ranges;

/// What a request waits for.
#[derive(Debug, Drop)]
pub enum Wish {
    /// All of these ranges, locked exclusively or shared. Their places are reserved.
    Ranges {
        exclusive: bool,
        ranges: Ranges,
    },
    /// A change that shares a bit with the filter, in the folder or with `deep` anywhere below it. There is room for what is told of
    /// one.
    Change {
        deep: bool,
        filter: u32,
        room: Vec<u8>,
    },
}

/// A request that waits.
#[derive(Debug, Drop)]
pub struct Waiting {
    pub key: Key,
    /// The file id that it names.
    pub file: u32,
    pub wish: Wish,
}
