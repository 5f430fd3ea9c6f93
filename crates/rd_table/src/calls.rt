//! The calls of a table, and its replies.

use rd_base::Bytes;
use rd_irp::{Head, Op};
use rd_pending::{CompleteNo, Completed, LiveNo, Stage, SubmitNo, TakeNo, Taken, Target};

/// A call of a table: a method of `Pending` that may change it.
#[derive(Drop)]
pub enum PendingCall {
    /// A channel begins.
    Begin(u32),
    /// A device begins its next life.
    Live(u32),
    /// An application asks something of a device.
    Submit { app: u32, target: Target, op: Op },
    /// The message that was submitted first is handed out.
    Outbox,
    /// A completion was heard, with the bytes after its head.
    Complete { head: Head, body: Bytes },
    /// A device is gone.
    Remove(u32),
    /// The channel ended.
    DropChannel,
    /// The channel is to end, unless a message is to be sent.
    DropSent,
    /// The outcome of a number is handed out.
    Take(u64),
    /// How far the channel got is looked at.
    Stage,
}

/// What a table replies.
#[derive(Drop)]
pub enum PendingReply {
    /// Whether the channel began.
    Begun(bool),
    Lives(Result<u64, LiveNo>),
    Submitted(Result<u64, SubmitNo>),
    /// A channel or a request that may not come: the channel isn't above those before, the operation can't be written, or it doesn't fit what is named.
    Unfit,
    Sent(Option<Bytes>),
    Completed(Result<Completed, CompleteNo>),
    /// Whether the device was there.
    Removed(bool),
    Dropped,
    /// Whether nothing was to be sent.
    DroppedSent(bool),
    Taken(Result<Taken, TakeNo>),
    Stands(Stage),
}
