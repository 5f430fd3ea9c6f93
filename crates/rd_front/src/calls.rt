//! The calls of a front, and its replies.

use rd_base::{Bytes, Key};
use rd_hello::EndFault;
use rd_room::Room;

/// A call of a front. The writer makes `Next`, and the reader all others.
#[derive(Drop)]
pub enum FrontCall {
    /// A channel of this number begins.
    Begin(u32),
    /// A message of the host is heard.
    Hear(Bytes),
    /// The job that is kept back is tried once more.
    Retry,
    /// Messages to be written on the channel of this number, as many as there is room for: those of the core first, and then completions of the desk at
    /// this place. There are none where another channel began last.
    Next {
        channel: u32,
        place: usize,
        room: Room,
    },
    /// The host is told that a device is gone.
    Remove(u32),
    /// The host is told that a device is there again.
    Add(u32),
    /// How far the channel is.
    Look,
    /// The channel ended.
    EndChannel,
    /// The session is over.
    EndSession,
}

/// What a front replies.
#[derive(Drop)]
pub enum FrontReply {
    /// It is done.
    Done {
        /// The place of the desk that has more to do, if one has: a job came, so a hand is to be woken, or its device was removed, so that completions
        /// are to be collected there.
        at: Option<usize>,
        /// Whether 1,024 messages may stand in the core's outbox, so that reading stops.
        full: bool,
    },
    /// How far the channel is.
    Stands {
        /// Whether its opening is over. None has begun to where no channel is on.
        ready: bool,
        /// How many requests were heard on the channel that began last.
        asked: u64,
    },
    /// The job is kept back, since its desk is full. No message is heard before it has gone.
    Kept,
    /// The message is wrong.
    Wrong(EndFault),
    /// The host uses a completion id that the request of this key has. The channel has ended.
    Duplicate(Key),
    /// A job can't come to its desk, nor be answered.
    Unfit,
    /// No memory was found for all that was to be done.
    Memory,
    /// 1,024 messages may stand in the core's outbox, so nothing was done.
    Full,
    /// The call doesn't fit, so nothing was done.
    Refused,
    /// Messages to be written, in order.
    Messages {
        room: Room,
        rest: Rest,
    },
}

/// Why a writer was given no more messages.
#[derive(Clone, Copy)]
pub enum Rest {
    /// The room is full.
    More,
    /// There is none in the core, nor at that desk.
    Nothing,
    /// No memory was found for the completion that was collected last.
    Memory,
}
