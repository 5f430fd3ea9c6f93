//! What the notes say to a person of the channel whose end is that of a session: what is wrong with what came on it. No contract speaks of it, and
//! where it can't be said it is left out.

use rd_base::{Sink, Why, write_all};
use rd_carry::{EndWhy, Ended};
use rd_chunk::ChunkWhy;
use rd_hello::EndFault;
use std::alloc::{AllocError, Global};

/// Says which channel ended a session, and why, if what the peer sent on it did.
pub fn note_channel<N: Sink>(alloc: Global, notes: &mut N, peer: &str, ended: Ended) {
    if let Ended::Channel {
        channel,
        at,
        message,
        why,
    } = ended
    {
        if let Ok(note) = channel_note(alloc, peer, channel, at, message, why) {
            let _ = write_all(notes, note.as_bytes());
        }
    }
}

fn channel_note(
    alloc: Global,
    peer: &str,
    channel: u32,
    at: u64,
    message: u64,
    why: EndWhy,
) -> Result<String, AllocError> {
    let said = said_of(why);
    match why {
        EndWhy::Chunk(_) => format!(in alloc;
            "rdr: channel {channel}: in the frame at byte {at} of what the {peer} sent, {said}\n"
        ),
        EndWhy::Message(EndFault::Order { state, packet }) => format!(in alloc;
            "rdr: channel {channel}: after {message} messages the {peer} sent packet {packet:#06x}, which isn't read in state {state}\n"
        ),
        _ => format!(in alloc;
            "rdr: channel {channel}: after {message} messages the {peer} sent one in which, at byte {at}, {said}\n"
        ),
    }
}

fn said_of(why: EndWhy) -> &'static str {
    match why {
        EndWhy::Chunk(why) => said_of_chunk(why),
        EndWhy::Message(EndFault::Grammar(bad)) => said_of_field(bad.why),
        EndWhy::Message(EndFault::Order { .. }) => "a packet stands out of its order",
        EndWhy::Message(EndFault::Memory) => "no memory was found for a field",
        EndWhy::Stray => "a completion belongs to no request",
        EndWhy::BodyBad(_) => "the body of a completion isn't one for its request",
        EndWhy::Duplicate => "a request has the device and id of one that isn't completed yet",
    }
}

fn said_of_chunk(why: ChunkWhy) -> &'static str {
    match why {
        ChunkWhy::Empty => "there are no data",
        ChunkWhy::Size => "the size isn't one of 9 to 16392",
        ChunkWhy::Compressed => "the data are compressed",
        ChunkWhy::NoFirst => "a message goes on that didn't begin",
        ChunkWhy::SecondFirst => "a message begins inside another one",
        ChunkWhy::TooLong => "a message is longer than 1052672 bytes",
        ChunkWhy::LengthChanged => "a message has another length than in its first frame",
        ChunkWhy::Overrun => "the data go past the message's length",
        ChunkWhy::LastEarly => "a message ends before its length",
        ChunkWhy::NotLast => "a message goes on after its length",
    }
}

fn said_of_field(why: Why) -> &'static str {
    match why {
        Why::Short => "a field is cut off by the message's end",
        Why::Component => "the component isn't one that there is",
        Why::Packet => "the packet isn't one that there is",
        Why::Count => "there are more things than there may be",
        Why::Length => "a length is below that of its own fields",
        Why::Value => "a field has a value that it may not have",
    }
}
