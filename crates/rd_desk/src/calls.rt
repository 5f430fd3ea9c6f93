//! The calls of a desk, and its replies.

use crate::batch::{Batch, Worked};
use rd_drive::Job;
use rd_station::{AnnounceNo, Completion, PutNo};

/// A call of a desk.
#[derive(Drop)]
pub enum DeskCall {
    /// Jobs may come from now on.
    Announce,
    /// A job comes.
    Put(Job),
    /// A hand gives back what it took, which is run, and takes what came first.
    Work(Batch),
    /// What was ready first is handed out.
    Collect,
    /// The host is told that the device is gone.
    Remove,
    /// The channel ended.
    DropChannel,
    /// The session is over.
    End,
}

/// What a desk replies.
#[derive(Drop)]
pub enum DeskReply {
    Announced(Result<(), AnnounceNo>),
    Put(Result<(), PutNo>),
    /// A job that may not come, as it was: its key isn't above those that came, or not on their channel.
    Unfit(Job),
    Worked(Worked),
    Collected(Option<Completion>),
    /// Whether the device was there.
    Removed(bool),
    Dropped,
    Ended,
}
