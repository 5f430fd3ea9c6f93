//! How a session at an end of channels ended.

use rd_base::Why;
use rd_chunk::ChunkWhy;
use rd_hello::EndFault;

/// What is wrong with what the peer wrote on a channel.
#[derive(Clone, Copy, Debug, PartialEq, Eq)]
pub enum EndWhy {
    /// The stream of frames has this fault.
    Chunk(ChunkWhy),
    /// A message has it, for the end that reads it.
    Message(EndFault),
    /// A completion belongs to no request.
    Stray,
    /// The body of a completion isn't one for its request.
    BodyBad(Why),
    /// A request has the numbers of one that isn't completed yet.
    Duplicate,
}

/// How an end's session ended.
#[derive(Clone, Copy, Debug, PartialEq, Eq)]
pub enum Ended {
    /// All channels came to their end.
    Over,
    /// What the peer wrote on a channel has a fault.
    Channel {
        /// The number of the channel, from 1.
        channel: u32,
        /// For a fault of the frames its place in bytes from the channel's first, else from the message's first.
        at: u64,
        /// How many messages were heard before it on the channel; 0 for a fault of the frames.
        message: u64,
        why: EndWhy,
    },
    /// A channel couldn't be had, or one of its halves had a fault.
    Link,
    Memory,
    /// So many bytes were read from one channel as are read at most, 2^40.
    Long,
}
